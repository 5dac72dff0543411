//! Sets of keys and of texts, numbered in the order in which they came.
ghost use Rattle.std.specs.Prelude.{◌≤◌, ◌-◌, ◌^◌};

use crate::lending::made;
use growth_answers::{Answer, Seen, Teller, Unready, case, lent_mut, twice};
use relay_chains::{ChainFault, Chains, Interner, Key, Links};
use std::alloc::Global;

/// What a new or known key or text answers.
type Inserted = Result<(u32, bool), ChainFault>;

/// Keys, of which the last one finds no room among two.
const FEW_KEYS: [(Key, Inserted); 4] = [
    (7, Ok((0, true))),
    (9, Ok((1, true))),
    (7, Ok((0, false))),
    (8, Err(ChainFault::Full)),
];

/// So many that the nodes grow where there are some.
const MORE_KEYS: [(Key, Inserted); 9] = [
    (0, Ok((0, true))),
    (3, Ok((1, true))),
    (6, Ok((2, true))),
    (9, Ok((3, true))),
    (12, Ok((4, true))),
    (15, Ok((5, true))),
    (18, Ok((6, true))),
    (21, Ok((7, true))),
    (24, Ok((8, true))),
];

/// Texts, of which the last one finds no room among two.
const FEW_TEXTS: [(&[u8], Inserted); 4] = [
    (b"g", Ok((0, true))),
    (b"i", Ok((1, true))),
    (b"g", Ok((0, false))),
    (b"h", Err(ChainFault::Full)),
];

/// So many that nodes and bytes grow where there are some, and not at once.
const MORE_TEXTS: [(&[u8], Inserted); 6] = [
    (b"joe", Ok((0, true))),
    (b"kim@x", Ok((1, true))),
    (b"", Ok((2, true))),
    (b"l", Ok((3, true))),
    (b"owner-club", Ok((4, true))),
    (b"editor@example.com", Ok((5, true))),
];

fn makes_chains(alloc: Global) -> Answer {
    match Chains::new(alloc, 2, 2) {
        Ok(set) => Answer::given(set.is_empty()),
        Err(_) => Answer::Refused,
    }
}

/// The number that a new key or text gets in a set of so many.
fn next_number(len: usize) -> u32 {
    u32::try_from(len).unwrap_or(u32::MAX)
}

/// What inserting a key answers; where it's refused, the set has the keys that it had.
fn inserted(set: &mut Chains, key: Key, wanted: Inserted) -> Answer {
    let before = set.len();
    match set.insert(key) {
        Err(ChainFault::Memory) => Answer::refused(
            set.len() == before
                && set.find(key).is_none()
                && set.get(next_number(before)).is_none(),
        ),
        answer => Answer::given(answer == wanted),
    }
}

/// Inserts keys in turn, each again where it was refused.
fn inserts(set: &mut Chains, keys: &[(Key, Inserted)]) -> Seen {
    let mut seen = Seen::Answered;
    for (key, wanted) in keys {
        seen = seen.max(twice!(inserted(set, *key, *wanted)));
        if !seen.is_answered() {
            break;
        }
    }
    seen
}

/// Whether a set has each key under its number, and none that found no room.
fn has_keys(set: &Chains, keys: &[(Key, Inserted)]) -> bool {
    for (key, wanted) in keys {
        let is_right = match wanted {
            Ok((number, _)) => set.find(*key) == Some(*number) && set.get(*number) == Some(*key),
            Err(_) => set.find(*key).is_none(),
        };
        if !is_right {
            return false;
        }
    }
    true
}

/// How keys go into a set of room for so many.
fn inserts_keys(alloc: Global, limit: usize, keys: &[(Key, Inserted)]) -> Result<Seen, Unready>
    requires { limit ≤ 2 ^ 32 - 2 }
{
    let set = Chains::new(alloc, 2, limit)?;
    lent_mut(set, |set| Ok(inserts_all(set, keys)))
}

fn inserts_all(set: &mut Chains, keys: &[(Key, Inserted)]) -> Seen {
    let seen = inserts(set, keys);
    if seen.is_answered() && !has_keys(set, keys) {
        return Seen::Wrong;
    }
    seen
}

fn makes_an_interner(alloc: Global) -> Answer {
    match Interner::new(alloc, 0, 2, 2) {
        Ok(set) => Answer::given(set.is_empty()),
        Err(_) => Answer::Refused,
    }
}

/// What interning a text answers; where it's refused, the set has the texts that it had.
fn interned(set: &mut Interner, text: &[u8], wanted: Inserted) -> Answer {
    let before = set.len();
    match set.intern(text) {
        Err(ChainFault::Memory) => Answer::refused(
            set.len() == before
                && set.find(text).is_none()
                && set.text(next_number(before)).is_none(),
        ),
        answer => Answer::given(answer == wanted),
    }
}

/// Interns texts in turn, each again where it was refused.
fn interns(set: &mut Interner, texts: &[(&[u8], Inserted)]) -> Seen {
    let mut seen = Seen::Answered;
    for (text, wanted) in texts {
        seen = seen.max(twice!(interned(set, text, *wanted)));
        if !seen.is_answered() {
            break;
        }
    }
    seen
}

/// Whether a set has each text under its number, and none that found no room.
fn has_texts(set: &Interner, texts: &[(&[u8], Inserted)]) -> bool {
    for (text, wanted) in texts {
        let is_right = match wanted {
            Ok((number, _)) => {
                set.find(text) == Some(*number) && set.text(*number) == Some(*text)
            }
            Err(_) => set.find(text).is_none(),
        };
        if !is_right {
            return false;
        }
    }
    true
}

/// How texts go into a set of room for so many.
fn interns_texts(alloc: Global, limit: usize, texts: &[(&[u8], Inserted)]) -> Result<Seen, Unready>
    requires { limit ≤ 2 ^ 32 - 2 }
{
    let set = Interner::new(alloc, 0, 2, limit)?;
    lent_mut(set, |set| Ok(interns_all(set, texts)))
}

fn interns_all(set: &mut Interner, texts: &[(&[u8], Inserted)]) -> Seen {
    let seen = interns(set, texts);
    if seen.is_answered() && !has_texts(set, texts) {
        return Seen::Wrong;
    }
    seen
}

/// Each hash by the word of its newest number, which is that number and one more.
fn are_linked(links: &Links) -> bool {
    links.len() == 3 && links.newest(7) == 3 && links.newest(9) == 2 && links.newest(8) == 0
}

fn links_hashes(alloc: Global) -> Answer {
    made(Links::of(alloc, &[7, 9, 7]), are_linked)
}

pub(crate) fn tell<R: Print + AllocGlobal>(teller: &mut Teller<'_, R>) {
    let alloc = teller.rt.alloc();
    case!(teller, "Chains::new", Ok(twice!(makes_chains(alloc))));
    case!(teller, "Chains::insert", inserts_keys(alloc, 2, &FEW_KEYS));
    case!(
        teller,
        "Chains::insert, nine keys",
        inserts_keys(alloc, 9, &MORE_KEYS)
    );
    case!(
        teller,
        "Interner::new",
        Ok(twice!(makes_an_interner(alloc)))
    );
    case!(
        teller,
        "Interner::intern",
        interns_texts(alloc, 2, &FEW_TEXTS)
    );
    case!(
        teller,
        "Interner::intern, six texts",
        interns_texts(alloc, 6, &MORE_TEXTS)
    );
    case!(teller, "Links::of", Ok(twice!(links_hashes(alloc))));
}
