//! The indices of tables: the hashes of what is named, and look-ups over them.
ghost use Rattle.std.specs.Prelude.{◌≡◌, ◌<◌, ◌-◌, ◌^◌, length, map, position, slice_get, option_map, Some, IfOk};
ghost use Rattle.std.specs.Str.{bytes_eq};
ghost use Rattle.relay_chains.specs.TextHash.{text_hash};
ghost use Rattle.relay_tables.specs.Tables.{IsLawful, AreTables};

use crate::include_entry::IncludeEntry;
use crate::local::Local;
use crate::marking::{MARKS, marks_of};
use crate::named::Named;
use crate::owning::entry_owners;
use relay_aliasfile::Entry;
use relay_chains::{Links, TextKey, hash_text};
use relay_text::{Text, TextSet, same_bytes};
use std::alloc::{AllocError, Global};

/// What is found by the local domains and by the names of entries, include files and mailboxes, and the owner of each entry.
#[derive(Drop)]
pub(crate) struct Indices {
    pub(crate) domains: TextSet,
    pub(crate) marks: [bool; MARKS],
    pub(crate) key: TextKey,
    pub(crate) aliases: Links,
    pub(crate) includes: Links,
    pub(crate) mailboxes: Links,
    pub(crate) owners: Vec<Option<u32>>,
}

impl Indices {
    /// Those of the tables of these settings and lists, by hashes under a key. `Err` where memory runs out.
    pub(crate) fn of(
        alloc: Global,
        key: TextKey,
        local: &Local,
        entries: &[Entry],
        includes: &[IncludeEntry],
        mailboxes: &[Text],
    ) -> Result<Indices, AllocError>
        requires lawful { IsLawful (record { local = local.now; aliases = entries.now; includes = includes.now; mailboxes = mailboxes.now }) }
        requires few_mailboxes { length mailboxes.now < 2 ^ 32 - 2 }
        ensures { IfOk result (λ made. AreTables (record { local = local.now; aliases = entries.now; includes = includes.now; mailboxes = mailboxes.now }) made.key made.domains made.marks made.aliases made.includes made.mailboxes made.owners.items) }
    {
        let domains = TextSet::of(alloc, local.domains.as_slice())?;
        let marks = marks_of(local);
        let aliases = links_of(alloc, key, entries)?;
        let includes = links_of(alloc, key, includes)?;
        let mailboxes = links_of(alloc, key, mailboxes)?;
        let owners = entry_owners(alloc, key, entries, &aliases)?;
        Ok(Indices {
            domains,
            marks,
            key,
            aliases,
            includes,
            mailboxes,
            owners,
        })
    }
}

// The hashes of the names of these.
fn links_of<T: Named>(alloc: Global, key: TextKey, items: &[T]) -> Result<Links, AllocError>
    requires { length items.now < 2 ^ 32 - 2 }
    ensures { IfOk result (λ links. links ≡ map (λ item. text_hash key (T.name_in item)) items.now) }
{
    let mut hashes = Vec::with_capacity(alloc, items.len())?;
    for item in items {
        hashes.push_reserved(hash_text(key, item.name_bytes()));
    }
    Links::of(alloc, &hashes)
}

/// The place of the first of these with a name.
pub(crate) fn place_named<T: Named>(
    items: &[T],
    links: &Links,
    key: TextKey,
    name: &[u8],
) -> Option<u32>
    requires { links.now ≡ map (λ item. text_hash key (T.name_in item)) items.now }
    ensures { result ≡ position (λ item. bytes_eq name.now (T.name_in item)) items.now }
{
    links.find(
        hash_text(key, name),
        |number: u32| -> bool
            requires { number < length items.now }
            ensures { option_map (λ item. bytes_eq name.entry.now (T.name_in item)) (slice_get items.entry.now number) ≡ Some result }
        { same_bytes(name, items[number as usize].name_bytes()) },
    )
}
