//! Transactions in full.
ghost use Rattle.std.specs.Prelude.{◌≡◌, ◌+◌, ◌<◌, ◌≤◌, ◌++◌, length, map, vec_len, vec_capacity, All, IfOk, OnOk};
ghost use Rattle.relay_delivery.specs.Cuts.{address_at, planned_to};
ghost use Rattle.relay_delivery.specs.Placings.{senders_of, routes_of};

use crate::group_numbers::GroupNumbers;
use crate::placing::Placing;
use crate::routed::Routed;
use relay_routes::Route;
use relay_text::{Address, Seq};
use relay_wire::Planned;
use std::alloc::{AllocError, Global};

/// Puts copies of the addresses of recipients behind what is there, where there is room for them.
pub(crate) fn add_addresses(
    alloc: Global,
    recipients: &[Routed<'_>],
    items: &[u32],
    to: &mut Vec<Address>,
) -> Result<(), AllocError>
    requires room { vec_len to.old + length items.now ≤ vec_capacity to.old }
    requires range { All (λ n. n < length recipients.now) items.now }
    ensures { OnOk result (to.new.items ≡ to.old.items ++ map (address_at recipients.now) items.now) }
{
    for item in items {
        to.push_reserved(recipients[*item as usize].address.copy(alloc)?);
    }
    Ok(())
}

/// Copies of the addresses of recipients.
pub(crate) fn addresses(
    alloc: Global,
    recipients: &[Routed<'_>],
    items: &[u32],
) -> Result<Vec<Address>, AllocError>
    requires { All (λ n. n < length recipients.now) items.now }
    ensures { IfOk result (λ to. to.items ≡ map (address_at recipients.now) items.now) }
{
    let mut to = Vec::with_capacity(alloc, items.len())?;
    add_addresses(alloc, recipients, items, &mut to)?;
    Ok(to)
}

/// The transaction of a group to these addresses.
pub(crate) fn planned(
    alloc: Global,
    placing: &Placing<'_>,
    group: GroupNumbers,
    to: Vec<Address>,
) -> Result<Planned, AllocError>
    requires sender { group.sender < length placing.now.senders.items }
    requires route { group.route < length placing.now.routes.items }
    ensures { IfOk result (λ t. t ≡ planned_to (senders_of placing.now.senders.items) (routes_of placing.now.routes.items) group to.items) }
{
    let from = match placing.senders[group.sender as usize] {
        Some(sender) => Some(sender.copy(alloc)?),
        None => None,
    };
    let Route {
        transport,
        nexthop,
        hosts,
    } = placing.routes[group.route as usize].copy(alloc)?;
    Ok(Planned {
        from,
        transport,
        nexthop,
        hosts,
        to: Seq::of(to),
    })
}
