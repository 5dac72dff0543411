//! What is local.
use relay_text::{Seq, Text};

/// Which domains are local, and how a local name is read. The local domains are the origin and `domains`.
#[derive(Drop)]
pub struct Local {
    /// The domain of a name that has none, and of each mailbox: folded, at most 189 octets (postconf(5), "myorigin").
    pub origin: Text,
    /// Further local domains, folded (postconf(5), "mydestination").
    pub domains: Seq<Text>,
    /// Where a name is split into a base and an extension (postconf(5), "recipient_delimiter").
    pub delimiter: Option<u8>,
    /// Whether the sender after a list with an owner is the one address that the owner alias lists (postconf(5),
    /// "expand_owner_alias").
    pub expand: bool,
}
