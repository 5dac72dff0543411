//! What becomes of mail exchangers.

/// What becomes of a mail exchanger (RFC 5321 section 5.1).
#[derive(Clone, Copy, Debug, PartialEq, Eq)]
pub enum Fate {
    /// It is a host to try.
    Host,
    /// An earlier record has the same host and preference.
    Repeated,
    /// It is the relay itself.
    Own,
    /// It doesn't come before the relay itself.
    Discarded,
    /// It is the null MX (RFC 7505).
    Null,
}
