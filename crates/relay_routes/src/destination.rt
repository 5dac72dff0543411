//! The destinations of addresses, before their hosts are looked up.
use crate::transport::Transport;
use relay_text::Text;

/// A transport and a nexthop, which determine a route: addresses of one destination go the same way.
#[derive(Drop)]
pub struct Destination {
    pub transport: Transport,
    /// As the plan writes it: folded, but for the path of a `unix:` nexthop.
    pub nexthop: Text,
}

ghost use Rattle.std.specs.Prelude.{◌≡◌, IfOk, option_map, unwrap_or};
ghost use Rattle.relay_routes.specs.Routes.{Answers};
ghost use Rattle.relay_routes.specs.Destinations.{destination_to, looked_up_name};

use crate::form::{Form, form_of};
use crate::unrouted::Unrouted;
use relay_text::Address;
use std::alloc::{AllocError, Global};

impl Destination {
    /// The name, in lower case, whose mail exchangers the route to it looks up (RFC 5321 section 5.1). `None` where the host stands in
    /// brackets, or the transport is LMTP: no exchanger is looked up then.
    pub fn looked_up_name(&self, alloc: Global) -> Result<Option<Text>, AllocError>
        ensures { IfOk result (λ name. name ≡ looked_up_name self.now) }
    {
        match form_of(self.transport, self.nexthop.as_bytes()) {
            Some(Form::Host(form)) if form.looks_up => {
                let name = Text::folded_copy_of(alloc, form.host)?;
                Ok(Some(name))
            }
            _ => Ok(None),
        }
    }
}

/// The destination by a transport to a nexthop.
#[tactic(auto, unfolding(crate::specs::Destinations::destination_to))]
pub(crate) fn destination_to(
    alloc: Global,
    transport: Transport,
    nexthop: &[u8],
) -> Result<Destination, Unrouted>
    ensures { Answers result (destination_to transport nexthop.now) }
{
    let Some(form) = form_of(transport, nexthop) else {
        return Err(Unrouted::Transport);
    };
    let nexthop = form.written(alloc)?;
    Ok(Destination { transport, nexthop })
}

/// The same, or where there is no nexthop to an address's domain.
pub(crate) fn destination_or_domain(
    alloc: Global,
    transport: Transport,
    nexthop: Option<&Text>,
    address: &Address,
) -> Result<Destination, Unrouted>
    ensures { Answers result (destination_to transport (unwrap_or (option_map (λ text. text.now) nexthop.entry) address.now.domain)) }
{
    match nexthop {
        Some(nexthop) => destination_to(alloc, transport, nexthop.as_bytes()),
        None => destination_to(alloc, transport, address.domain()),
    }
}
