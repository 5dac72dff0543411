//! Who owns each entry of an alias table: the entry of the same name behind `owner-`.
ghost use Rattle.std.specs.Prelude.{◌≡◌, ℕ, ◌<◌, ◌≤◌, ◌-◌, ◌^◌, ◌++◌, List, true, false, length, map, codes, All, nat_le, ◌&&◌, slice_get, slice_index_or, unwrap_or, Some, None, IfOk, IfSome};
ghost use Rattle.std.specs.Str.{bytes_eq};
ghost use Rattle.relay_aliasfile.specs.declared.entry.Entry.{Entry};
ghost use Rattle.relay_chains.specs.TextHash.{text_hash};
ghost use Rattle.relay_tables.specs.Indices.{name_hash};
ghost use Rattle.relay_tables.specs.Tables.{owner_place, AreOwners};
ghost use Rattle.relay_tables.specs.Owning.{owner_or};

use relay_aliasfile::Entry;
use relay_chains::{Links, TextKey, hash_text};
use relay_text::same_bytes;
use std::alloc::{AllocError, Global};

/// The owner of each entry, the place of `owner-` and its name, if it has one. Where no name begins with `owner-`, nobody has an owner, and
/// no memory is taken.
///
/// What is looked up is the name behind each `owner-`, since few names begin so.
pub(crate) fn entry_owners(
    alloc: Global,
    key: TextKey,
    entries: &[Entry],
    links: &Links,
) -> Result<Vec<Option<u32>>, AllocError>
    requires few { length entries.now < 2 ^ 32 - 2 }
    requires hashed { links.now ≡ map (name_hash key) entries.now }
    ensures { IfOk result (λ owners. AreOwners entries.now owners.items) }
{
    if !has_owner(entries) {
        return Ok(Vec::new(alloc));
    }
    let mut owners = vec![in alloc; None; entries.len()]?;
    for number in 0..entries.len() {
        if let Some(name) = owned_name(entries[number].name.as_bytes()) {
            give_owner(key, entries, links, number as u32, name, &mut owners);
        }
    }
    Ok(owners)
}

// Whether some name begins with `owner-`.
fn has_owner(entries: &[Entry]) -> bool
    ensures { result ≡ false → All (λ e. owner_place entries.now e ≡ None) entries.now }
{
    for entry in entries {
        if owned_name(entry.name.as_bytes()).is_some() {
            return true;
        }
    }
    false
}

// The name behind `owner-`.
fn owned_name(name: &[u8]) -> Option<&[u8]>
    ensures some { IfSome result (λ owned. name.now ≡ codes "owner-" ++ owned.now) }
    ensures none { result ≡ None → (owned : List ℕ) → name.now ≡ codes "owner-" ++ owned → ⊥ }
{
    let (prefix, owned) = name.split_first_chunk::<6>()?;
    if same_bytes(prefix, b"owner-") {
        Some(owned)
    } else {
        None
    }
}

// Gives an owner to each entry of a name that has none.
fn give_owner(
    key: TextKey,
    entries: &[Entry],
    links: &Links,
    owner: u32,
    name: &[u8],
    owners: &mut [Option<u32>],
)
    requires few { length entries.now < 2 ^ 32 - 2 }
    requires hashed { links.now ≡ map (name_hash key) entries.now }
    requires count { length owners.old ≡ length entries.now }
    ensures count { length owners.new ≡ length owners.old }
    ensures given { (k : ℕ) → (e : Entry) → slice_get entries.now k ≡ Some e → slice_index_or owners.new k None ≡ owner_or (bytes_eq name.now e.name) (slice_index_or owners.old k None) owner }
{
    let hash = hash_text(key, name);
    let mut next = 0u32;
    while let Some(place) = named_from(entries, links, key, hash, name, next) {
        let found = owners[place as usize];
        owners[place as usize] = found.or(Some(owner));
        next = place + 1;
    }
}

// The place of the first entry of a name with this hash, from a place on.
fn named_from(
    entries: &[Entry],
    links: &Links,
    key: TextKey,
    hash: u32,
    name: &[u8],
    start: u32,
) -> Option<u32>
    requires hashed { links.now ≡ map (name_hash key) entries.now }
    requires hash { hash ≡ text_hash key name.now }
    ensures found { IfSome result (λ k. (start ≤ k) × (e : Entry) × (slice_get entries.now k ≡ Some e) × (bytes_eq name.now e.name ≡ true)) }
    ensures before { (k : ℕ) → (e : Entry) → start ≤ k → k < unwrap_or result (length entries.now) → slice_get entries.now k ≡ Some e → bytes_eq name.now e.name ≡ false }
{
    links.find(
        hash,
        |number: u32| -> bool
            requires { number < length entries.now }
            ensures { (e : Entry) → slice_get entries.entry.now number ≡ Some e → result ≡ (nat_le start number && bytes_eq name.entry.now e.name) }
        { start <= number && same_bytes(name, entries[number as usize].name.as_bytes()) },
    )
}
