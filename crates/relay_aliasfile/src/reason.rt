//! Why the text of an item is none.
use relay_text::TextFault;
use thiserror::Error;

/// The rule that the text of an item breaks, in the order of the checks (aliases(5), RFC 5321 sections 4.1.2 and 4.5.3.1).
#[derive(Clone, Copy, Debug, PartialEq, Eq, Error)]
pub enum ItemReason {
    #[error("a byte outside printable ASCII")]
    Unprintable,
    #[error("a quote that isn't closed")]
    OpenQuote,
    #[error("no path that begins with / behind :include:")]
    RelativePath,
    #[error("no local part")]
    NoLocalPart,
    #[error("a byte that may not stand in the local part")]
    BadByte,
    #[error("no closing quote, or something other than @ behind it")]
    BadQuote,
    #[error("what stands behind @ is no domain")]
    BadDomain,
    #[error("a local part over 64 octets, a domain over 255 or a path over 256")]
    TooLong,
}

impl ItemReason {
    ghost use Rattle.std.specs.Prelude.{◌≡◌};
    ghost use Rattle.relay_aliasfile.specs.ItemReasons.{reason_of};

    /// What a text breaks that has to spell an address or a name and has this fault; `None` where it can't be read.
    pub(crate) fn of_fault(fault: TextFault) -> Option<ItemReason>
        ensures { result ≡ reason_of fault }
    {
        match fault {
            TextFault::Empty => Some(ItemReason::NoLocalPart),
            TextFault::BadByte => Some(ItemReason::BadByte),
            TextFault::BadQuote => Some(ItemReason::BadQuote),
            TextFault::BadDomain => Some(ItemReason::BadDomain),
            TextFault::TooLong => Some(ItemReason::TooLong),
            TextFault::Memory => None,
        }
    }
}
