//! The transactions of what goes out.
ghost use Rattle.std.specs.Prelude.{◌<◌, ◌≤◌, ◌-◌, ◌^◌, length, IfOk};
ghost use Rattle.relay_routes.specs.declared.transport.Transport as names;
ghost use Rattle.relay_delivery.specs.Groups.{limit_at, AreTransactionsOf, IsSoundFor, IsFewest};
ghost use Rattle.relay_delivery.specs.Placings.{senders_of, IsPlacedBy, AreApart, AreInRange};

use crate::cutting::cut;
use crate::delivery::Delivery;
use crate::limits::BatchLimits;
use crate::placing::Placing;
use crate::routed::Routed;
use relay_routes::Route;
use relay_sharing::Crew;
use relay_text::Address;
use relay_wire::Planned;
use std::alloc::AllocError;
use std::thread::Threads;

/// The transactions that bring each recipient its message under its senders and by its route, and nobody else, in the order of the
/// senders' written paths, the names of the transports, the nexthops and the recipients' written paths: the recipients of one sender,
/// transport and nexthop share transactions of `limits` recipients each, and perhaps fewer in the last (RFC 5321 section 4.5.3.1.8).
/// No sound list of transactions is shorter. An address that stands twice among the recipients of a route goes out once.
///
/// `Err` where memory runs out, or where there are more senders, routes or recipients than numbers of 32 bits.
pub fn transactions<'a, R: Threads + Sync>(
    crew: &Crew<'_, R>,
    senders: &[Option<&'a Address>],
    routes: &'a [Route],
    recipients: &[Routed<'a>],
    deliveries: Vec<Delivery>,
    limits: BatchLimits,
) -> Result<Vec<Planned>, AllocError>
    requires apart { AreApart (senders_of senders.now) routes.now }
    requires range { AreInRange (senders_of senders.now) routes.now recipients.now deliveries.items }
    requires limits { (t : names.Transport) → 0 < limit_at limits t }
    requires count { length deliveries.items ≤ 2 ^ 32 - 2 }
    ensures transactions { IfOk result (λ ts. AreTransactionsOf (limit_at limits) (IsPlacedBy (senders_of senders.now) routes.now recipients.now deliveries.items) ts.items) }
    ensures sound { IfOk result (λ ts. IsSoundFor (limit_at limits) (IsPlacedBy (senders_of senders.now) routes.now recipients.now deliveries.items) ts.items) }
    ensures fewest { IfOk result (λ ts. IsFewest (limit_at limits) (IsPlacedBy (senders_of senders.now) routes.now recipients.now deliveries.items) ts.items) }
{
    let placing = Placing::of(crew, senders, routes, recipients, deliveries)?;
    cut(crew, &placing, limits)
}
