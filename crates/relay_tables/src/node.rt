//! What mail can lead to.
use relay_text::{Address, Text};

/// What an item or a recipient leads to.
#[derive(Drop)]
pub enum Node {
    /// An entry of the alias table, by its number from 0.
    Alias(u32),
    /// An include file of the job, by its number from 0.
    Include(u32),
    /// A local mailbox: the name with its extension, at the origin.
    Mailbox(Address),
    /// An address whose domain isn't local.
    Remote(Address),
    /// A local name, folded, that is neither an alias nor a mailbox.
    Missing(Text),
    /// The path of an include file that the job doesn't have.
    NoInclude(Text),
    /// A command, with its `|`.
    Command(Text),
    /// The path of a file.
    File(Text),
}
