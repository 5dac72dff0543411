//! Include files by their paths.
use relay_aliasfile::Item;
use relay_text::{Seq, Text};

/// An include file of the job (aliases(5), ":include:/file/name").
#[derive(Drop)]
pub struct IncludeEntry {
    /// The path as items name it, byte by byte.
    pub path: Text,
    /// Its good items in order.
    pub items: Seq<Item>,
}
