//! The settings of a job.
use relay_routes::{Transport, Via};
use relay_text::{Seq, Text};

/// What the settings section says, or leaves at its default (postconf(5) of Postfix).
#[derive(Drop)]
pub struct Settings {
    /// myhostname, folded.
    pub hostname: Text,
    /// myorigin, folded.
    pub origin: Text,
    /// mydestination: the local domains beside the origin, folded.
    pub destinations: Seq<Text>,
    /// recipient_delimiter.
    pub delimiter: Option<u8>,
    /// How many recipients a transaction over SMTP takes.
    pub smtp_limit: u32,
    /// How many over `relay`.
    pub relay_limit: u32,
    /// How many over LMTP.
    pub lmtp_limit: u32,
    /// default_transport.
    pub default_transport: Transport,
    /// mailbox_transport.
    pub mailbox_transport: Via,
    /// By how much hosts of equal preference are rotated.
    pub seed: u64,
    /// expand_owner_alias.
    pub expand: bool,
}
