//! Routes of destinations, of which many have one host and differ in their ports.
use crate::hosts::Hosts;
use crate::router::Router;
use crate::unrouted::Unrouted;
use relay_chains::{Interner, TextKey};
use std::marker::Model;

/// What finds the routes of destinations, and looks up the mail exchangers of a host once, whatever ports stand behind it. Contracts see
/// it as what its router goes by. Memory is that of the exchangers of each host that has a port behind it, and its bytes.
#[derive(Drop)]
pub struct RouteFinder<'r> {
    router: &'r Router,
    domains: Interner,
    found: Vec<Result<Hosts, Unrouted>>,
}

impl<'r> Model for RouteFinder<'r> {
    ghost use Rattle.std.specs.Prelude.{◌≡◌, map};
    ghost use Rattle.relay_routes.specs.Routing.{Routing};
    ghost use Rattle.relay_routes.specs.Routes.{exchangers_of};

    ghost Value = { Routing };

    ghost view = { λ a. a.router.now };

    ghost invariant = { λ a. a.found.items ≡ map (exchangers_of a.router.now) a.domains.keys };
}

ghost use Rattle.std.specs.Prelude.{◌≡◌, true, Some, IfOk};
ghost use Rattle.relay_text.specs.Bytes.{folded};
ghost use Rattle.relay_routes.specs.Forms.{hosted};
ghost use Rattle.relay_routes.specs.Routes.{Answers, exchangers_of, route_by, route_to};

use crate::form::{Form, form_of};
use crate::host_form::HostForm;
use crate::room::MOST_TEXTS;
use crate::route::{Route, route_to_exchangers};
use crate::transport::Transport;
use relay_text::Text;
use std::alloc::{AllocError, Global};

/// A copy of what was found.
fn copy_of(
    alloc: Global,
    found: &Result<Hosts, Unrouted>,
) -> Result<Result<Hosts, Unrouted>, AllocError>
    ensures { IfOk result (λ copy. copy ≡ found.now) }
{
    Ok(match found {
        Ok(hosts) => Ok(hosts.copy(alloc)?),
        Err(reason) => Err(reason.copy(alloc)?),
    })
}

impl<'r> RouteFinder<'r> {
    /// Nothing is looked up yet. The key is that of the hashes of domains: who writes them must not know it. `Err` where memory runs out.
    pub fn new(
        alloc: Global,
        router: &'r Router,
        key: TextKey,
    ) -> Result<RouteFinder<'r>, AllocError>
        ensures { IfOk result (λ finder. finder ≡ router.entry.now) }
    {
        Ok(RouteFinder {
            router,
            domains: Interner::new(alloc, key, 1, MOST_TEXTS)?,
            found: Vec::new(alloc),
        })
    }

    /// What it goes by.
    pub fn router(&self) -> &'r Router
        ensures { result.now ≡ self.now }
    {
        self.router
    }

    /// The route by a transport to a nexthop, as `Router::route_to` gives it, with its errors.
    #[tactic(auto, unfolding(crate::specs::Routes::route_to))]
    pub fn route_to(
        &mut self,
        alloc: Global,
        transport: Transport,
        nexthop: &[u8],
    ) -> Result<Route, Unrouted>
        ensures route { Answers result (route_to self.old transport nexthop.now) }
        ensures kept { self.new ≡ self.old }
    {
        match form_of(transport, nexthop) {
            Some(Form::Host(form)) if form.looks_up && !form.port.is_empty() => {
                self.route_to_port(alloc, transport, &form)
            }
            form => self.router.route_by_form(alloc, transport, form),
        }
    }

    /// The route to the mail exchangers of a host.
    fn route_to_port(
        &mut self,
        alloc: Global,
        transport: Transport,
        form: &HostForm,
    ) -> Result<Route, Unrouted>
        requires { form.now.looks_up ≡ true }
        ensures route { Answers result (route_by self.old transport (Some (hosted form.now))) }
        ensures kept { self.new ≡ self.old }
    {
        let domain = Text::folded_copy_of(alloc, form.host)?;
        let exchangers = self.exchangers_of_domain(alloc, domain.as_bytes());
        drop(domain);
        let exchangers = exchangers?;
        let route = route_to_exchangers(alloc, transport, form, exchangers)?;
        Ok(route)
    }

    /// The mail exchangers of a domain, which is given in lower case.
    fn exchangers_of_domain(&mut self, alloc: Global, domain: &[u8]) -> Result<Hosts, Unrouted>
        ensures exchangers { Answers result (exchangers_of self.old domain.now) }
        ensures kept { self.new ≡ self.old }
    {
        if let Some(number) = self.domains.find(domain) {
            return copy_of(alloc, &self.found[number as usize])?;
        }
        let found = self.router.exchangers(alloc, domain);
        if let Err(Unrouted::Memory) = found {
            return found;
        }
        self.keep_copy(alloc, domain, &found)?;
        found
    }

    /// Keeps a copy of what was found of a domain. `Err` where memory runs out, or the numbers of domains do.
    fn keep_copy(
        &mut self,
        alloc: Global,
        domain: &[u8],
        found: &Result<Hosts, Unrouted>,
    ) -> Result<(), AllocError>
        requires { found.now ≡ exchangers_of self.old domain.now }
        ensures { self.new ≡ self.old }
    {
        let copy = copy_of(alloc, found)?;
        self.found.reserve(1)?;
        let Ok((_, is_new)) = self.domains.intern(domain) else {
            return Err(AllocError);
        };
        if is_new {
            self.found.push_reserved(copy);
        }
        Ok(())
    }
}
