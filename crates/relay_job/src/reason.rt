//! Which rule a line of a job breaks.
use thiserror::Error;

/// The rule that a line breaks.
#[derive(Clone, Copy, Debug, PartialEq, Eq, Error)]
pub enum Reason {
    #[error("no such heading")]
    UnknownHeading,
    #[error("a heading that stands before")]
    RepeatedHeading,
    #[error("text before the first heading")]
    BeforeHeadings,
    #[error("no = in it")]
    NoEquals,
    #[error("unknown key")]
    UnknownKey,
    #[error("said twice")]
    RepeatedKey,
    #[error("not a domain name of at most 189 octets")]
    NotHost,
    #[error("not a list of domains")]
    NotDomains,
    #[error("neither empty nor one byte of atext")]
    NotDelimiter,
    #[error("not a number from 1 to 65535")]
    NotLimit,
    #[error("no such transport")]
    NotTransport,
    #[error("no transport with a nexthop that it takes")]
    NotVia,
    #[error("not a number from 0 to 18446744073709551615")]
    NotSeed,
    #[error("neither yes nor no")]
    NotChoice,
    #[error("not MAIL FROM: and a path")]
    NotSender,
    #[error("not RCPT TO: and an address in angle brackets")]
    NotRecipient,
    #[error("a sender and a recipient have to be in the envelope")]
    TooFewCommands,
}
