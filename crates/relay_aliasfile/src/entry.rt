//! Entries of an alias file.
use crate::items::Items;
use relay_text::Text;

/// An entry: a name, and what mail for it goes to (aliases(5)).
#[derive(Drop)]
pub struct Entry {
    /// The name, without quotes and escapes, folded.
    pub name: Text,
    /// The number of its logical line's first physical line, from 1; ignored lines count too.
    pub line: usize,
    /// Its good items in order, none of them where the list is empty or all of it is bad.
    pub items: Items,
}
