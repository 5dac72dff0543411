//! What a transport table says of an address.
use crate::transport::Transport;
use relay_text::Text;

/// What a transport table says of an address (transport(5), "RESULT FORMAT").
#[derive(Drop)]
pub enum Choice {
    /// No pattern fits, or the result is `:`.
    Absent,
    /// A transport, a nexthop, or both. The nexthop stands as it is written.
    Via {
        transport: Option<Transport>,
        nexthop: Option<Text>,
    },
    /// `error:`, with its text, without white space at the ends.
    Refused(Text),
    /// Another transport's name.
    Unknown,
}

ghost use Rattle.std.specs.Prelude.{◌≡◌, Some, drop, IfOk};
ghost use Rattle.relay_routes.specs.Transports.{choice_of, nexthop_alone, some_text};

use crate::host_form::place_of;
use crate::transport_line::refusal;
use relay_text::trimmed;
use std::alloc::{AllocError, Global};

impl Choice {
    /// What the text of a result says.
    pub(crate) fn of(alloc: Global, text: &[u8]) -> Result<Choice, AllocError>
        ensures { IfOk result (λ choice. choice ≡ choice_of (Some text.now)) }
    {
        if let Some(reason) = refusal(text) {
            return Ok(Choice::Refused(Text::copy_of(alloc, trimmed(reason))?));
        }
        let (name, rest) = text.split_at(place_of(b':', text));
        let nexthop = nexthop_in(alloc, rest)?;
        if name.is_empty() {
            return Ok(Choice::by_default(nexthop));
        }
        match Transport::named(name) {
            Some(transport) => Ok(Choice::Via {
                transport: Some(transport),
                nexthop,
            }),
            None => Ok(Choice::Unknown),
        }
    }

    /// A nexthop, if there is one, without a transport.
    fn by_default(nexthop: Option<Text>) -> Choice
        ensures { result ≡ nexthop_alone nexthop }
    {
        if nexthop.is_none() {
            return Choice::Absent;
        }
        Choice::Via {
            transport: None,
            nexthop,
        }
    }
}

/// The nexthop in a result, past its first `:`. `None` where there is nothing.
fn nexthop_in(alloc: Global, rest: &[u8]) -> Result<Option<Text>, AllocError>
    ensures { IfOk result (λ nexthop. nexthop ≡ some_text (drop 1 rest.now)) }
{
    match rest {
        [_, nexthop @ ..] if !nexthop.is_empty() => Ok(Some(Text::copy_of(alloc, nexthop)?)),
        _ => Ok(None),
    }
}
