//! Why a text spells no address.

/// Why a text spells no address, in the order of the checks (RFC 5321 sections 4.1.2 and 4.5.3.1).
#[derive(Clone, Copy, Debug, PartialEq, Eq)]
pub enum TextFault {
    /// There is no text, or a local part of no bytes.
    Empty,
    /// The local part has a byte that it may not have, or a path doesn't stand between `<` and `>`.
    BadByte,
    /// A quoted local part has no closing `"`, or something other than `@` follows it.
    BadQuote,
    /// What follows the `@` is no domain, or a name has an `@`.
    BadDomain,
    /// The written local part has more than 64 octets, the domain more than 255, or the written path more than 256.
    TooLong,
    /// Memory ran out. The text may have any of the other faults or none.
    Memory,
}
