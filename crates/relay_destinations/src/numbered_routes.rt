//! Routes by destination.
use crate::known_ways::KnownWays;
use relay_chains::TextKey;
use relay_routes::{Route, RouteFinder, Router, Unrouted, Via};
use std::marker::Model;

/// The routes of the destinations that were asked for, and the reasons why there is none, under their numbers.
#[derive(Drop)]
pub struct NumberedRoutes<'r> {
    finder: RouteFinder<'r>,
    via: &'r Via,
    known: KnownWays,
    routes: Vec<Route>,
    reasons: Vec<Unrouted>,
}

impl<'r> Model for NumberedRoutes<'r> {
    ghost use Rattle.relay_destinations.specs.RoutesFound.{RoutesFound};
    ghost use Rattle.relay_destinations.specs.Numbering.{Numbering, AreNumbered};

    ghost Value = { Numbering };

    ghost view = { λ a. record { found = record { routing = a.finder; via = a.via.now; routes = a.routes.items; reasons = a.reasons.items }; known = a.known } };

    ghost invariant = { λ a. AreNumbered (record { routing = a.finder; via = a.via.now; routes = a.routes.items; reasons = a.reasons.items }) a.known };
}

ghost use Rattle.std.specs.Prelude.{◌≡◌, ◌≢◌, ◌⊎◌, [], None, Some, Ok, Err, ℕ, slice_get, IfOk, AllPairs};
ghost use Rattle.relay_routes.specs.declared.unrouted.Unrouted as reasons;
ghost use Rattle.relay_routes.specs.declared.unrouted.Unrouted.TheVariants.{Memory};
ghost use Rattle.relay_routes.specs.Routes.{route_to, route_of, route_via_of};
ghost use Rattle.relay_destinations.specs.Ways.{Means, Keeps};
ghost use Rattle.relay_destinations.specs.KnownWays.{way_in};
ghost use Rattle.relay_destinations.specs.Numbering.{key_of, KeepsNexthop};

use crate::way::Way;
use relay_routes::{Destination, route_by_destination};
use relay_text::{Address, Text};
use std::alloc::{AllocError, Global};

/// A text that stands for a destination, and for no other.
fn key_of(alloc: Global, to: &Destination) -> Result<Text, AllocError>
    ensures { IfOk result (λ key. key ≡ key_of to.now.transport to.now.nexthop) }
{
    let mut key = Text::copy_of(alloc, to.transport.name())?;
    key.append(alloc, b":")?;
    key.append(alloc, to.nexthop.as_bytes())?;
    Ok(key)
}

/// The number that comes after as many as there are.
fn next_number(count: usize) -> Result<u32, AllocError>
    ensures { IfOk result (λ number. number ≡ count) }
{
    u32::try_from(count).map_err(|_| AllocError)
}

impl<'r> NumberedRoutes<'r> {
    /// No destination yet. The key is that of their hashes.
    pub(crate) fn new(
        alloc: Global,
        router: &'r Router,
        via: &'r Via,
        key: TextKey,
    ) -> Result<NumberedRoutes<'r>, AllocError>
        ensures { IfOk result (λ numbered. numbered.found ≡ record { routing = router.entry.now; via = via.entry.now; routes = []; reasons = [] }) }
    {
        Ok(NumberedRoutes {
            finder: RouteFinder::new(alloc, router, key)?,
            via,
            known: KnownWays::new(alloc, key)?,
            routes: Vec::new(alloc),
            reasons: Vec::new(alloc),
        })
    }

    /// The routes, under their numbers.
    pub(crate) fn routes(&self) -> &[Route]
        ensures routes { result.now ≡ self.now.found.routes }
        ensures apart { AllPairs (λ r q. (r.transport ≢ q.transport) ⊎ (r.nexthop ≢ q.nexthop)) self.now.found.routes }
    {
        self.routes.as_slice()
    }

    /// The reasons, under their numbers.
    pub(crate) fn reasons(&self) -> &[Unrouted]
        ensures reasons { result.now ≡ self.now.found.reasons }
        ensures lasting { (number : ℕ) (reason : reasons.Unrouted) → slice_get self.now.found.reasons number ≡ Some reason → reason ≢ Memory }
    {
        self.reasons.as_slice()
    }

    /// Where a remote address goes.
    pub(crate) fn find(&mut self, alloc: Global, address: &Address) -> Result<Way, AllocError>
        ensures way { IfOk result (λ way. Means self.new.found way (route_of self.old.found.routing address.now)) }
        ensures kept { Keeps self.old.found self.new.found }
    {
        route_by_destination();
        match self.finder.router().destination(alloc, address) {
            Ok(to) => self.find_destination(alloc, &to),
            Err(reason) => self.put_reason(reason),
        }
    }

    /// Where a mailbox goes.
    pub(crate) fn find_mailbox(
        &mut self,
        alloc: Global,
        address: &Address,
    ) -> Result<Way, AllocError>
        ensures way { IfOk result (λ way. Means self.new.found way (route_via_of self.old.found.routing self.old.found.via address.now)) }
        ensures kept { Keeps self.old.found self.new.found }
    {
        route_by_destination();
        match self
            .finder
            .router()
            .destination_via(alloc, self.via, address)
        {
            Ok(to) => self.find_destination(alloc, &to),
            Err(reason) => self.put_reason(reason),
        }
    }

    /// Where a destination leads.
    fn find_destination(&mut self, alloc: Global, to: &Destination) -> Result<Way, AllocError>
        requires { KeepsNexthop self.old.found.routing to.now.transport to.now.nexthop }
        ensures way { IfOk result (λ way. Means self.new.found way (route_to self.old.found.routing to.now.transport to.now.nexthop)) }
        ensures kept { Keeps self.old.found self.new.found }
    {
        let key = key_of(alloc, to)?;
        if let Some(way) = self.known.find(key.as_bytes()) {
            return Ok(way);
        }
        match self
            .finder
            .route_to(alloc, to.transport, to.nexthop.as_bytes())
        {
            Ok(route) => self.put_route(key.as_bytes(), route),
            Err(reason) => self.put_reason_of(key.as_bytes(), to, reason),
        }
    }

    /// Puts the route of a new destination at the end.
    fn put_route(&mut self, key: &[u8], route: Route) -> Result<Way, AllocError>
        requires new { way_in self.old.known key.now ≡ None }
        requires key { key.now ≡ key_of route.transport route.nexthop }
        requires route { route_to self.old.found.routing route.transport route.nexthop ≡ Ok route }
        ensures way { IfOk result (λ way. Means self.new.found way (Ok route)) }
        ensures kept { Keeps self.old.found self.new.found }
    {
        let number = next_number(self.routes.len())?;
        self.routes.reserve(1)?;
        self.known.keep(key, Way::To(number))?;
        self.routes.push_reserved(route);
        Ok(Way::To(number))
    }

    /// Puts the reason why a new destination has no route at the end.
    fn put_reason_of(
        &mut self,
        key: &[u8],
        to: &Destination,
        reason: Unrouted,
    ) -> Result<Way, AllocError>
        requires new { way_in self.old.known key.now ≡ None }
        requires key { key.now ≡ key_of to.now.transport to.now.nexthop }
        requires reason { reason ≢ Memory → route_to self.old.found.routing to.now.transport to.now.nexthop ≡ Err reason }
        ensures way { IfOk result (λ way. (reason ≢ Memory) × Means self.new.found way (Err reason)) }
        ensures kept { Keeps self.old.found self.new.found }
    {
        let way = self.put_reason(reason)?;
        self.known.keep(key, way)?;
        Ok(way)
    }

    /// Puts a reason at the end. `Err` where that is want of memory, too.
    fn put_reason(&mut self, reason: Unrouted) -> Result<Way, AllocError>
        ensures way { IfOk result (λ way. (reason ≢ Memory) × Means self.new.found way (Err reason)) }
        ensures kept { Keeps self.old.found self.new.found }
        ensures known { self.new.known ≡ self.old.known }
    {
        if let Unrouted::Memory = reason {
            return Err(AllocError);
        }
        let number = next_number(self.reasons.len())?;
        self.reasons.push(reason)?;
        Ok(Way::Nowhere(number))
    }
}
