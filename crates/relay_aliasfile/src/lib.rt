//! The files that administrators write, read as aliases(5) reads them.
#![tactic(auto)]

mod alias_table;
pub mod aliases;
pub mod counts;
mod distinct;
pub mod entry;
pub mod fault;
mod first_places;
mod heading;
pub mod includes;
pub mod item;
mod item_counts;
mod item_text;
mod item_texts;
pub mod items;
mod list_cuts;
mod list_parts;
mod list_readers;
mod lists;
mod mailbox_lines;
pub mod mailboxes;
mod names;
mod paths;
pub mod places;
mod quotes;
mod reading;
pub mod reason;
pub mod reasons;
mod repeats;
mod special;
mod twins;
mod unquoted;

pub use aliases::{AliasFile, include_names, parse_aliases, parse_aliases_by};
pub use counts::file_counts;
pub use entry::Entry;
pub use fault::{FaultKind, LineFault};
pub use heading::entry_list;
pub use includes::{IncludeFile, include_names_of, parse_include};
pub use item::Item;
pub use items::Items;
pub use lists::bad_items;
pub use mailboxes::{MailboxFile, parse_mailboxes, parse_mailboxes_by};
pub use places::{
    ItemPlace, entries_on_lines, entry_places, include_places, list_places, places_of_items,
};
pub use reason::ItemReason;
pub use reasons::item_reason;
