//! What a setting says of a transport.
ghost use Rattle.std.specs.Prelude.{◌≡◌, IfOk};
ghost use Rattle.relay_routes.specs.Nexthops.{via_setting_of};

use crate::form::form_of;
use crate::host_form::place_of;
use crate::transport::Transport;
use relay_text::Text;
use std::alloc::{AllocError, Global};

/// A transport, and a nexthop if one is given, as it is written.
#[derive(Drop)]
pub struct Via {
    pub transport: Transport,
    pub nexthop: Option<Text>,
}

impl Via {
    /// The transport and nexthop that a setting names: `T`, or `T:N` with a nexthop of the forms of that transport
    /// (transport(5), "RESULT FORMAT").
    pub fn parse(alloc: Global, bytes: &[u8]) -> Result<Option<Via>, AllocError>
        ensures { IfOk result (λ via. via ≡ via_setting_of bytes.now) }
    {
        let (name, rest) = bytes.split_at(place_of(b':', bytes));
        let Some(transport) = Transport::named(name) else {
            return Ok(None);
        };
        let [_, nexthop @ ..] = rest else {
            return Ok(Some(Via {
                transport,
                nexthop: None,
            }));
        };
        if form_of(transport, nexthop).is_none() {
            return Ok(None);
        }
        let nexthop = Text::copy_of(alloc, nexthop)?;
        Ok(Some(Via {
            transport,
            nexthop: Some(nexthop),
        }))
    }
}
