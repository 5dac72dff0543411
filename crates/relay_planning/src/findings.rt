//! Why an address has no route, as the findings of a plan say it.
ghost use Rattle.std.specs.Prelude.{◌≡◌};
ghost use Rattle.relay_planning.specs.Report.{reason_of};

use relay_routes::Unrouted;
use relay_wire::Reason;

/// The reason that a plan gives; `None` where memory ran out.
pub fn reason_for(unrouted: Unrouted) -> Option<Reason>
    ensures { result ≡ reason_of unrouted }
{
    match unrouted {
        Unrouted::Domain => Some(Reason::Domain),
        Unrouted::MxSelf => Some(Reason::MxSelf),
        Unrouted::Transport => Some(Reason::Transport),
        Unrouted::Refused(text) => Some(Reason::Refused(text)),
        Unrouted::NullMx => Some(Reason::NullMx),
        Unrouted::Memory => None,
    }
}
