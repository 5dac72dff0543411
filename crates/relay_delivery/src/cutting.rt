//! Transactions of what is placed.
ghost use Rattle.std.specs.Prelude.{◌≡◌, ◌<◌, ◌≤◌, ◌-◌, ◌^◌, length, map, All, IfOk};
ghost use Rattle.relay_routes.specs.declared.transport.Transport as names;
ghost use Rattle.relay_delivery.specs.Cuts.{route_at, transaction_of, IsWithin, IsOrdered};
ghost use Rattle.relay_delivery.specs.Groups.{limit_at, AreTransactionsOf, IsSoundFor, IsFewest};
ghost use Rattle.relay_delivery.specs.Placings.{senders_of, routes_of, IsPlacedBy};

use crate::group_numbers::GroupNumbers;
use crate::keyed::Keyed;
use crate::limits::BatchLimits;
use crate::placing::Placing;
use crate::planned::{addresses, planned};
use crate::rooms::written_by_crew;
use crate::shared::threads_for;
use relay_rings::{Transaction, batches};
use relay_routes::Route;
use relay_sharing::Crew;
use relay_wire::Planned;
use std::alloc::{AllocError, Global};
use std::thread::Threads;

/// The fewest recipients that a transaction has on the average where several threads copy: of fewer, the room alone takes one thread as
/// long as the copies.
const FEWEST_EACH: usize = 8;

/// The limit of each group, which is that of its transport.
fn limits_by_key(
    alloc: Global,
    routes: &[&Route],
    groups: &[GroupNumbers],
    limits: BatchLimits,
) -> Result<Vec<u32>, AllocError>
    requires range { All (λ g. g.route < length routes.now) groups.now }
    ensures { IfOk result (λ ls. ls.items ≡ map (λ g. limit_at limits (route_at (routes_of routes.now) g.route).transport) groups.now) }
{
    let mut by_key = Vec::with_capacity(alloc, groups.len())?;
    for group in groups {
        let transport = routes[group.route as usize].transport;
        by_key.push_reserved(limits.of(transport));
    }
    Ok(by_key)
}

/// The transactions of cuts, by one thread.
fn written(
    alloc: Global,
    placing: &Placing<'_>,
    groups: &[GroupNumbers],
    cuts: &[Transaction],
) -> Result<Vec<Planned>, AllocError>
    requires { All (IsWithin placing.now groups.now) cuts.now }
    ensures { IfOk result (λ ts. ts.items ≡ map (transaction_of placing.now groups.now) cuts.now) }
{
    let mut transactions = Vec::with_capacity(alloc, cuts.len())?;
    for cut in cuts {
        let to = addresses(alloc, &placing.recipients, cut.items.as_slice())?;
        let group = groups[cut.key as usize];
        transactions.push_reserved(planned(alloc, placing, group, to)?);
    }
    Ok(transactions)
}

/// The transactions of cuts, by a crew where there is much to copy.
fn transactions_of<R: Threads + Sync>(
    crew: &Crew<'_, R>,
    placing: &Placing<'_>,
    groups: &[GroupNumbers],
    cuts: &[Transaction],
) -> Result<Vec<Planned>, AllocError>
    requires { All (IsWithin placing.now groups.now) cuts.now }
    ensures { IfOk result (λ ts. ts.items ≡ map (transaction_of placing.now groups.now) cuts.now) }
{
    let copies = placing.deliveries.len();
    if threads_for(crew, copies) < 2 || copies / FEWEST_EACH < cuts.len() {
        return written(crew.alloc, placing, groups, cuts);
    }
    written_by_crew(crew, placing, groups, cuts)
}

/// The transactions: the recipients of each group in turn, in batches within the limit of its transport.
pub(crate) fn cut<R: Threads + Sync>(
    crew: &Crew<'_, R>,
    placing: &Placing<'_>,
    limits: BatchLimits,
) -> Result<Vec<Planned>, AllocError>
    requires order { IsOrdered placing.now }
    requires limits { (t : names.Transport) → 0 < limit_at limits t }
    requires count { length placing.now.deliveries.items ≤ 2 ^ 32 - 2 }
    ensures transactions { IfOk result (λ ts. AreTransactionsOf (limit_at limits) (IsPlacedBy (senders_of placing.now.senders.items) (routes_of placing.now.routes.items) placing.now.recipients.items placing.now.deliveries.items) ts.items) }
    ensures sound { IfOk result (λ ts. IsSoundFor (limit_at limits) (IsPlacedBy (senders_of placing.now.senders.items) (routes_of placing.now.routes.items) placing.now.recipients.items placing.now.deliveries.items) ts.items) }
    ensures fewest { IfOk result (λ ts. IsFewest (limit_at limits) (IsPlacedBy (senders_of placing.now.senders.items) (routes_of placing.now.routes.items) placing.now.recipients.items placing.now.deliveries.items) ts.items) }
{
    let alloc = crew.alloc;
    let Keyed { groups, placed } = Keyed::of(alloc, placing)?;
    let by_key = limits_by_key(alloc, &placing.routes, &groups, limits)?;
    let cuts = batches(alloc, &placed, &by_key)?;
    transactions_of(crew, placing, &groups, &cuts)
}
