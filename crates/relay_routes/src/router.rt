//! The routes of addresses.
use crate::choice::Choice;
use crate::destination::{Destination, destination_or_domain, destination_to};
use crate::form::{Form, form_of};
use crate::host_form::HostForm;
use crate::hosts::Hosts;
use crate::mx::MxTable;
use crate::route::{Route, RouteSettings, route_to_exchangers, route_to_host, route_to_path};
use crate::transport::Transport;
use crate::transport_table::TransportTable;
use crate::unrouted::Unrouted;
use crate::via::Via;
use relay_text::{Address, Text, TextSet};
use std::alloc::{AllocError, Global};
use std::marker::Model;

/// What finds the route of an address.
pub struct Router {
    settings: RouteSettings,
    own_names: TextSet,
    transports: TransportTable,
    exchanges: MxTable,
}

// Written out: what becomes of a derived drop's parts is followed in each proof that has such a value to its end.
impl Drop for Router {
    fn drop(self) {
        let Router {
            settings: _,
            own_names: _,
            transports: _,
            exchanges: _,
        } = self;
    }
}

impl Model for Router {
    ghost use Rattle.std.specs.Prelude.{◌≡◌, List, ℕ};
    ghost use Rattle.relay_text.specs.Bytes.{has_text};
    ghost use Rattle.relay_routes.specs.Routing.{Routing};

    ghost Value = { Routing };

    ghost view = { λ a. record { settings = a.settings; transports = a.transports; exchanges = a.exchanges } };

    ghost invariant = { λ a. (q : List ℕ) → has_text a.own_names q ≡ has_text a.settings.own_names q };
}

ghost use Rattle.std.specs.Prelude.{◌≡◌, Some, option_map, not, IsTrue, IfOk};
ghost use Rattle.relay_text.specs.AddressParts.{AddressParts};
ghost use Rattle.relay_routes.specs.Forms.{hosted, nexthop_from};
ghost use Rattle.relay_routes.specs.Routes.{Answers, exchangers_of, route_by, route_to, route_of, route_via_of};
ghost use Rattle.relay_routes.specs.TableSteps.{has_address};
ghost use Rattle.relay_routes.specs.Destinations.{destination_of, destination_via_of};

impl Router {
    /// A router that goes by these settings and tables. `Err` where memory runs out.
    pub fn new(
        alloc: Global,
        settings: RouteSettings,
        transports: TransportTable,
        exchanges: MxTable,
    ) -> Result<Router, AllocError>
        ensures { IfOk result (λ router. router ≡ record { settings = settings; transports = transports; exchanges = exchanges }) }
    {
        let own_names = TextSet::of(alloc, settings.own_names.as_slice())?;
        Ok(Router {
            settings,
            own_names,
            transports,
            exchanges,
        })
    }

    /// Where a remote address goes: as the transport table says, by the default transport where it names none, and to the address's
    /// domain where it names no nexthop (transport(5), "RESULT FORMAT"). No mail exchanger is looked up. Callers who route many
    /// addresses find the route of each destination once, by `route_to`.
    ///
    /// `Refused`: the table refuses the address, with this text. `Transport`: the table names another transport, or the transport
    /// takes no such nexthop. `Memory`: memory ran out.
    pub fn destination(&self, alloc: Global, address: &Address) -> Result<Destination, Unrouted>
        ensures { Answers result (destination_of self.now address.now) }
    {
        let choice = self
            .transports
            .find(alloc, address, self.settings.delimiter)?;
        match choice {
            Choice::Absent => {
                destination_to(alloc, self.settings.default_transport, address.domain())
            }
            Choice::Via { transport, nexthop } => {
                let transport = transport.unwrap_or(self.settings.default_transport);
                destination_or_domain(alloc, transport, nexthop.as_ref(), address)
            }
            Choice::Refused(text) => Err(Unrouted::Refused(text)),
            Choice::Unknown => Err(Unrouted::Transport),
        }
    }

    /// Whether all addresses of a domain have one destination: no pattern of the transport table is that of an address (transport(5),
    /// "TABLE FORMAT"). Callers may then keep what they found for a domain.
    pub fn goes_by_domain(&self) -> bool
        ensures patterns { result ≡ not (has_address self.now.transports.entries) }
        ensures by_domain { IsTrue result → (a b : AddressParts) → a.domain ≡ b.domain → destination_of self.now a ≡ destination_of self.now b }
    {
        !self.transports.has_addresses()
    }

    /// Where a mailbox goes, by its setting: to the nexthop that it names, else to the address's domain (transport(5)). The table
    /// isn't looked at.
    ///
    /// The errors are those of `destination`, without `Refused`.
    pub fn destination_via(
        &self,
        alloc: Global,
        via: &Via,
        address: &Address,
    ) -> Result<Destination, Unrouted>
        ensures { Answers result (destination_via_of via.now address.now) }
    {
        destination_or_domain(alloc, via.transport, via.nexthop.as_ref(), address)
    }

    /// The route of a remote address: by the transport of its destination to its nexthop (RFC 5321 section 5).
    ///
    /// `Domain`: mail exchangers are to be looked up, and the domain has none and no address. `MxSelf`: none is left before the relay
    /// itself. `NullMx`: the domain takes no mail. The other errors are those of `destination`.
    pub fn route(&self, alloc: Global, address: &Address) -> Result<Route, Unrouted>
        ensures { Answers result (route_of self.now address.now) }
    {
        let to = self.destination(alloc, address)?;
        let route = self.route_to(alloc, to.transport, to.nexthop.as_bytes());
        drop(to.nexthop);
        route
    }

    /// The route of a mailbox, by its setting.
    ///
    /// The errors are those of `route`, without `Refused`.
    pub fn route_via(&self, alloc: Global, via: &Via, address: &Address) -> Result<Route, Unrouted>
        ensures { Answers result (route_via_of self.now via.now address.now) }
    {
        let to = self.destination_via(alloc, via, address)?;
        let route = self.route_to(alloc, to.transport, to.nexthop.as_bytes());
        drop(to.nexthop);
        route
    }

    /// The route by a transport to a nexthop, which may stand as a table or a setting writes it or as the plan does.
    ///
    /// `Transport`: the transport takes no such nexthop. The other errors are those of `route`, without `Refused`.
    #[tactic(auto, unfolding(crate::specs::Routes::route_to))]
    pub fn route_to(
        &self,
        alloc: Global,
        transport: Transport,
        nexthop: &[u8],
    ) -> Result<Route, Unrouted>
        ensures { Answers result (route_to self.now transport nexthop.now) }
    {
        self.route_by_form(alloc, transport, form_of(transport, nexthop))
    }

    /// The route by a transport to a nexthop that was read: `None` is one that the transport doesn't take.
    pub(crate) fn route_by_form(
        &self,
        alloc: Global,
        transport: Transport,
        form: Option<Form<'_>>,
    ) -> Result<Route, Unrouted>
        ensures { Answers result (route_by self.now transport (option_map nexthop_from form.entry)) }
    {
        match form {
            Some(Form::Host(form)) => self.route_to_host(alloc, transport, &form),
            Some(Form::Unix(path)) => {
                let route = route_to_path(alloc, transport, path)?;
                Ok(route)
            }
            None => Err(Unrouted::Transport),
        }
    }

    /// The route to a host, or to its mail exchangers where they are looked up.
    fn route_to_host(
        &self,
        alloc: Global,
        transport: Transport,
        form: &HostForm,
    ) -> Result<Route, Unrouted>
        ensures { Answers result (route_by self.now transport (Some (hosted form.now))) }
    {
        if !form.looks_up {
            let route = route_to_host(alloc, transport, form)?;
            return Ok(route);
        }
        let domain = Text::folded_copy_of(alloc, form.host)?;
        let exchangers = self.exchangers(alloc, domain.as_bytes());
        drop(domain);
        let exchangers = exchangers?;
        let route = route_to_exchangers(alloc, transport, form, exchangers)?;
        Ok(route)
    }

    /// The mail exchangers of a domain, which is given in lower case.
    pub(crate) fn exchangers(&self, alloc: Global, domain: &[u8]) -> Result<Hosts, Unrouted>
        ensures { Answers result (exchangers_of self.now domain.now) }
    {
        self.exchanges
            .hosts_beside(alloc, domain, &self.own_names, self.settings.seed)
    }
}
