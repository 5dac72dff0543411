//! The files of which a job is gathered.
use relay_text::{Seq, Text};

/// The paths of the files of which a job is gathered; a section whose file isn't named isn't in the job. The files are as the job's
/// sections are: settings, alias files (aliases(5) of Postfix), mailboxes, transport tables (transport(5)), mail exchangers (RFC 5321
/// section 5) and an envelope. Alias files and transport tables stand in the order in which they are searched (postconf(5), alias_maps,
/// transport_maps): of a name, or a pattern, the first entry holds.
#[derive(Drop)]
pub struct Paths {
    pub settings: Option<Text>,
    pub aliases: Seq<Text>,
    pub mailboxes: Option<Text>,
    pub transport: Seq<Text>,
    pub mx: Option<Text>,
    pub envelope: Option<Text>,
}
