//! The routes of addresses.
use crate::known_ways::KnownWays;
use crate::numbered_routes::NumberedRoutes;
use relay_chains::TextKey;
use std::marker::Model;

/// The routes of the addresses that were asked for, and the reasons why there is none, each under its number from 0 up. Contracts see it
/// as what the routes go by, and these two lists.
///
/// Where no pattern of the transport table is that of an address, an address is found by its domain alone, which is hashed once; else
/// the router finds its destination. A route is looked up once for each transport and nexthop. Memory is that of the routes, and for
/// each domain and each destination its bytes and some 30 more; with patterns of addresses, also a reason for each address that has no
/// destination.
pub struct Destinations<'r> {
    numbered: NumberedRoutes<'r>,
    goes_by_domain: bool,
    by_domain: KnownWays,
    by_mailbox_domain: KnownWays,
}

// Written out: what becomes of a derived drop's parts is followed in each proof that has such a value to its end.
impl<'r> Drop for Destinations<'r> {
    fn drop(self) {
        let Destinations {
            numbered: _,
            goes_by_domain: _,
            by_domain: _,
            by_mailbox_domain: _,
        } = self;
    }
}

impl<'r> Model for Destinations<'r> {
    ghost use Rattle.relay_destinations.specs.RoutesFound.{RoutesFound};
    ghost use Rattle.relay_destinations.specs.Domains.{AreByDomain};

    ghost Value = { RoutesFound };

    ghost view = { λ a. a.numbered.found };

    ghost invariant = { λ a. AreByDomain a.numbered.found a.goes_by_domain a.by_domain a.by_mailbox_domain };
}

ghost use Rattle.std.specs.Prelude.{◌≡◌, ◌≢◌, ◌⊎◌, [], Some, ℕ, slice_get, IfOk, AllPairs};
ghost use Rattle.relay_routes.specs.declared.unrouted.Unrouted as reasons;
ghost use Rattle.relay_routes.specs.declared.unrouted.Unrouted.TheVariants.{Memory};
ghost use Rattle.relay_routes.specs.Routes.{route_of, route_via_of};
ghost use Rattle.relay_destinations.specs.Ways.{Means, Keeps};

use crate::way::Way;
use relay_routes::{Route, Router, Unrouted, Via, route_by_destination};
use relay_text::Address;
use std::alloc::{AllocError, Global};

impl<'r> Destinations<'r> {
    /// Nothing is found yet. Mailboxes go by `via`. The key is that of the hashes of domains and nexthops: who writes them must not know
    /// it. `Err` where memory runs out.
    pub fn new(
        alloc: Global,
        router: &'r Router,
        via: &'r Via,
        key: TextKey,
    ) -> Result<Destinations<'r>, AllocError>
        ensures { IfOk result (λ found. found ≡ record { routing = router.entry.now; via = via.entry.now; routes = []; reasons = [] }) }
    {
        route_by_destination();
        Ok(Destinations {
            numbered: NumberedRoutes::new(alloc, router, via, key)?,
            goes_by_domain: router.goes_by_domain(),
            by_domain: KnownWays::new(alloc, key)?,
            by_mailbox_domain: KnownWays::new(alloc, key)?,
        })
    }

    /// Where a remote address goes: by the number of its route, or of the reason why it has none, as `Router::route` gives them. What was
    /// found before keeps its number. `Err` where memory runs out, which no reason is.
    pub fn find(&mut self, alloc: Global, address: &Address) -> Result<Way, AllocError>
        ensures way { IfOk result (λ way. Means self.new way (route_of self.old.routing address.now)) }
        ensures kept { Keeps self.old self.new }
    {
        if !self.goes_by_domain {
            return self.numbered.find(alloc, address);
        }
        if let Some(way) = self.by_domain.recall(address.domain()) {
            return Ok(way);
        }
        let way = self.numbered.find(alloc, address)?;
        self.by_domain.keep(address.domain(), way)?;
        Ok(way)
    }

    /// The same of a mailbox, as `Router::route_via` gives it.
    pub fn find_mailbox(&mut self, alloc: Global, address: &Address) -> Result<Way, AllocError>
        ensures way { IfOk result (λ way. Means self.new way (route_via_of self.old.routing self.old.via address.now)) }
        ensures kept { Keeps self.old self.new }
    {
        if let Some(way) = self.by_mailbox_domain.recall(address.domain()) {
            return Ok(way);
        }
        let way = self.numbered.find_mailbox(alloc, address)?;
        self.by_mailbox_domain.keep(address.domain(), way)?;
        Ok(way)
    }

    /// The routes, under their numbers. No two have one transport and one nexthop.
    pub fn routes(&self) -> &[Route]
        ensures routes { result.now ≡ self.now.routes }
        ensures apart { AllPairs (λ r q. (r.transport ≢ q.transport) ⊎ (r.nexthop ≢ q.nexthop)) self.now.routes }
    {
        self.numbered.routes()
    }

    /// The reasons why an address or a mailbox has no route, under their numbers. None is want of memory.
    pub fn reasons(&self) -> &[Unrouted]
        ensures reasons { result.now ≡ self.now.reasons }
        ensures lasting { (number : ℕ) (reason : reasons.Unrouted) → slice_get self.now.reasons number ≡ Some reason → reason ≢ Memory }
    {
        self.numbered.reasons()
    }
}
