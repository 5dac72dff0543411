//! Why an address has no route.
ghost use Rattle.std.specs.Prelude.{◌≡◌, IfOk};
ghost use Rattle.relay_routes.specs.declared.unrouted.Unrouted.TheVariants.{Memory};

use relay_text::Text;
use std::alloc::{AllocError, Global};

/// Why an address has no route.
#[derive(Drop)]
pub enum Unrouted {
    /// The domain has neither mail exchangers nor an address (RFC 5321 section 5).
    Domain,
    /// No mail exchanger is left before the relay itself.
    MxSelf,
    /// No known transport, or no nexthop of its forms.
    Transport,
    /// The transport table refuses the address, with a text.
    Refused(Text),
    /// The domain takes no mail (RFC 7505).
    NullMx,
    /// Memory ran out.
    Memory,
}

impl Unrouted {
    /// A copy of its own.
    pub fn copy(&self, alloc: Global) -> Result<Unrouted, AllocError>
        ensures { IfOk result (λ reason. reason ≡ self.now) }
    {
        Ok(match self {
            Unrouted::Domain => Unrouted::Domain,
            Unrouted::MxSelf => Unrouted::MxSelf,
            Unrouted::Transport => Unrouted::Transport,
            Unrouted::Refused(text) => Unrouted::Refused(Text::copy_of(alloc, text.as_bytes())?),
            Unrouted::NullMx => Unrouted::NullMx,
            Unrouted::Memory => Unrouted::Memory,
        })
    }
}

impl From<AllocError> for Unrouted {
    ghost from_gives = { λ _ reason. reason ≡ Memory };

    fn from(_error: AllocError) -> Unrouted {
        Unrouted::Memory
    }
}
