//! Routes in the order of their transports' names and their nexthops.
ghost use Rattle.std.specs.Prelude.{◌≡◌, ◌≤◌, ◌^◌, length, map, IfOk};
ghost use Rattle.relay_delivery.specs.Placings.{routes_of, AreRoutesApart};
ghost use Rattle.relay_delivery.specs.Ranks.{AreKeysOf};
ghost use Rattle.relay_delivery.specs.Orders.{transport_rank, route_key, AreRoutesInOrder};

use crate::picks::picked;
use crate::ranks::Ranks;
use crate::sort_key::SortKey;
use relay_routes::{Route, Transport};
use relay_sharing::Crew;
use std::alloc::{AllocError, Global};
use std::thread::Threads;

/// Routes in order, and where each of them stands there, by its old number.
#[derive(Drop)]
pub struct RouteOrder<'a> {
    pub routes: Vec<&'a Route>,
    pub place_of: Vec<u32>,
}

/// Where the name of a transport stands among the names of all.
fn transport_rank(transport: Transport) -> u32
    ensures { result ≡ transport_rank transport }
{
    match transport {
        Transport::Lmtp => 0,
        Transport::Relay => 1,
        Transport::Smtp => 2,
    }
}

/// What routes are sorted by.
fn route_keys<'t>(alloc: Global, routes: &'t [Route]) -> Result<Vec<SortKey<'t>>, AllocError>
    ensures keys { IfOk result (λ keys. AreKeysOf (map route_key routes.now) keys.items) }
    ensures few { IfOk result (λ keys. length keys.items ≤ 2 ^ 32) }
{
    let mut keys = Vec::with_capacity(alloc, routes.len())?;
    for (index, route) in routes.iter().enumerate() {
        let Ok(number) = u32::try_from(index) else {
            return Err(AllocError);
        };
        let nexthop = route.nexthop.as_bytes();
        keys.push_reserved(SortKey::new(transport_rank(route.transport), nexthop, number));
    }
    Ok(keys)
}

/// References to all of them.
fn all_routes<'a>(alloc: Global, routes: &'a [Route]) -> Result<Vec<&'a Route>, AllocError>
    ensures { IfOk result (λ all. routes_of all.items ≡ routes.now) }
{
    routes.iter().collect(alloc)
}

impl<'a> RouteOrder<'a> {
    /// `Err` where memory runs out, or where there are more routes than numbers.
    pub(crate) fn of<R: Threads + Sync>(
        crew: &Crew<'_, R>,
        routes: &'a [Route],
    ) -> Result<RouteOrder<'a>, AllocError>
        requires { AreRoutesApart routes.now }
        ensures { IfOk result (λ order. AreRoutesInOrder routes.now (routes_of order.routes.items) order.place_of.items) }
    {
        let alloc = crew.alloc;
        let Ranks { order, place_of } = Ranks::of(crew, route_keys(alloc, routes)?)?;
        let all = all_routes(alloc, routes)?;
        let routes = picked(alloc, all.as_slice(), order.as_slice())?;
        Ok(RouteOrder { routes, place_of })
    }
}
