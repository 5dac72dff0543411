//! Deliveries under the keys of their groups.
ghost use Rattle.std.specs.Prelude.{◌≡◌, ◌<◌, ◌≤◌, ◌-◌, ◌^◌, length, All, IfOk};
ghost use Rattle.relay_delivery.specs.Cuts.{IsOrdered};
ghost use Rattle.relay_delivery.specs.Keyed.{AreKeyed};

use crate::group_numbers::GroupNumbers;
use crate::placing::Placing;
use relay_rings::Placed;
use std::alloc::{AllocError, Global};

/// Groups, of which a key is the number, and recipients under their keys; both in the order of a plan.
#[derive(Drop)]
pub struct Keyed {
    pub groups: Vec<GroupNumbers>,
    pub placed: Vec<Placed>,
}

impl Keyed {
    /// The groups of the deliveries. Deliveries of a sender and a route stand side by side, so a group is new where one of the two changes.
    pub(crate) fn of(alloc: Global, placing: &Placing<'_>) -> Result<Keyed, AllocError>
        requires order { IsOrdered placing.now }
        requires count { length placing.now.deliveries.items ≤ 2 ^ 32 - 2 }
        ensures keyed { IfOk result (λ k. AreKeyed placing.now.recipients.items placing.now.deliveries.items k.groups.items k.placed.items) }
        ensures range { IfOk result (λ k. All (λ g. (g.sender < length placing.now.senders.items) × (g.route < length placing.now.routes.items)) k.groups.items) }
    {
        let mut groups = Vec::new(alloc);
        let mut placed = Vec::with_capacity(alloc, placing.deliveries.len())?;
        for delivery in &placing.deliveries {
            let group = GroupNumbers {
                sender: delivery.sender,
                route: placing.recipients[delivery.recipient as usize].route,
            };
            if groups.last().copied() != Some(group) {
                groups.push(group)?;
            }
            placed.push_reserved(Placed {
                key: (groups.len() - 1) as u32,
                item: delivery.recipient,
            });
        }
        Ok(Keyed { groups, placed })
    }
}
