//! Routes.
ghost use Rattle.std.specs.Prelude.{◌≡◌, ℕ, List, [], ◌∷◌, ◌++◌, false, Ok, IfOk};
ghost use Rattle.relay_text.specs.AddressParts.{AddressParts};
ghost use Rattle.relay_text.specs.Bytes.{folded};
ghost use Rattle.relay_routes.specs.declared.via.Via as settings;
ghost use Rattle.relay_routes.specs.Forms.{hosted, at_path};
ghost use Rattle.relay_routes.specs.Routing.{Routing};
ghost use Rattle.relay_routes.specs.Routes.{route_to, route_with, route_of, route_via_of};
ghost use Rattle.relay_routes.specs.Destinations.{destination_of, destination_via_of, Determines};

use crate::copies::{folded_text, joined};
use crate::host_form::HostForm;
use crate::hosts::Hosts;
use crate::transport::Transport;
use relay_text::{Seq, Text};
use std::alloc::{AllocError, Global};

/// Where an address goes.
#[derive(Drop)]
pub struct Route {
    pub transport: Transport,
    /// As the plan writes it: folded, but for the path of a `unix:` nexthop.
    pub nexthop: Text,
    pub hosts: Hosts,
}

impl Route {
    /// A copy of its own.
    pub fn copy(&self, alloc: Global) -> Result<Route, AllocError>
        ensures { IfOk result (λ route. route ≡ self.now) }
    {
        let nexthop = Text::copy_of(alloc, self.nexthop.as_bytes())?;
        let Ok(hosts) = self.hosts.copy(alloc) else {
            drop(nexthop);
            return Err(AllocError);
        };
        Ok(Route {
            transport: self.transport,
            nexthop,
            hosts,
        })
    }
}

/// What routes go by.
#[derive(Drop)]
pub struct RouteSettings {
    /// The relay's own names, in lower case. Where one of them is a domain's mail exchanger, only exchangers before it are tried.
    pub own_names: Seq<Text>,
    /// What splits a local part into a name and an extension (local(8), "address extension").
    pub delimiter: Option<u8>,
    /// The transport where the table names none.
    pub default_transport: Transport,
    /// By how many places the exchangers of one preference are rotated to the left, modulo their number.
    pub seed: u64,
}

/// The written nexthop of a route and its transport determine its hosts.
pub fn one_route_per_nexthop()
    ensures { (router : Routing) (t : Transport) (n m : List ℕ) (r q : Route) → route_to router t n ≡ Ok r → route_to router t m ≡ Ok q → r.nexthop ≡ q.nexthop → r ≡ q }
{}

/// The destination of an address, or of a mailbox by its setting, determines its route.
pub fn route_by_destination()
    ensures of_address { (r : Routing) (a : AddressParts) → Determines r (destination_of r a) (route_of r a) }
    ensures of_mailbox { (r : Routing) (via : settings.Via) (a : AddressParts) → Determines r (destination_via_of via a) (route_via_of r via a) }
{}

/// The route to a host, whose mail exchangers aren't looked up.
pub(crate) fn route_to_host(
    alloc: Global,
    transport: Transport,
    form: &HostForm,
) -> Result<Route, AllocError>
    ensures { IfOk result (λ r. r ≡ record { transport = transport; nexthop = (hosted form.now).text; hosts = ((hosted form.now).host ++ (hosted form.now).port) ∷ [] }) }
{
    let nexthop = Text::folded_copy_of(alloc, form.text)?;
    let Ok(host) = joined(alloc, form.host, form.port) else {
        drop(nexthop);
        return Err(AllocError);
    };
    let Ok(hosts) = Hosts::one(alloc, folded_text(host)) else {
        drop(nexthop);
        return Err(AllocError);
    };
    Ok(Route {
        transport,
        nexthop,
        hosts,
    })
}

/// The route to the mail exchangers of a host, whose port follows each of them.
pub(crate) fn route_to_exchangers(
    alloc: Global,
    transport: Transport,
    form: &HostForm,
    exchangers: Hosts,
) -> Result<Route, AllocError>
    ensures { IfOk result (λ r. r ≡ route_with transport (hosted form.now) exchangers) }
{
    let hosts = exchangers.each_with_port(alloc, form.port)?;
    Ok(Route {
        transport,
        nexthop: Text::folded_copy_of(alloc, form.text)?,
        hosts,
    })
}

/// The route to a socket.
pub(crate) fn route_to_path(
    alloc: Global,
    transport: Transport,
    path: &[u8],
) -> Result<Route, AllocError>
    ensures { IfOk result (λ r. r ≡ record { transport = transport; nexthop = (at_path path.now).text; hosts = ((at_path path.now).host ++ (at_path path.now).port) ∷ [] }) }
{
    let nexthop = joined(alloc, b"unix:", path)?;
    let host = joined(alloc, b"unix:", path)?;
    let hosts = Hosts::one(alloc, Text::of(host))?;
    Ok(Route {
        transport,
        nexthop: Text::of(nexthop),
        hosts,
    })
}
