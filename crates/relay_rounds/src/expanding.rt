//! The next keys of many keys.
ghost use Rattle.std.specs.Prelude.{◌≡◌, ◌<◌, ◌++◌, All, flat_map, IfOk, OnOk};

use crate::crew::Crew;
use crate::shares::share_len;
use crate::steps::Steps;
use rayon::prelude::*;
use relay_chains::Key;
use std::alloc::{AllocError, Global};
use std::thread::Threads;

// The next keys of the keys of a share, in their order.
fn next_of_share<S: Steps>(alloc: Global, steps: &S, keys: &[Key]) -> Result<Vec<Key>, AllocError>
    requires { All (λ key. key < S.key_bound steps.now) keys.now }
    ensures { IfOk result (λ next. next.items ≡ flat_map (S.next_keys steps.now) keys.now) }
{
    let mut next = Vec::new(alloc);
    for key in keys {
        steps.append(*key, &mut next)?;
    }
    Ok(next)
}

// Puts the keys of all parts, in their order, behind what is there.
fn append_all(parts: &[Vec<Key>], keys: &mut Vec<Key>) -> Result<(), AllocError>
    ensures { OnOk result (keys.new.items ≡ keys.old.items ++ flat_map (λ part. part.items) parts.now) }
{
    for part in parts {
        keys.extend_from_slice(part.as_slice())?;
    }
    Ok(())
}

/// Puts the next keys of all keys, in their order, behind what is there: each thread of the crew expands a share of them.
pub(crate) fn next_keys<S: Steps, G, R: Threads + Sync>(
    crew: &Crew<G, R>,
    steps: &S,
    keys: &[Key],
    next: &mut Vec<Key>,
) -> Result<(), AllocError>
    requires { All (λ key. key < S.key_bound steps.now) keys.now }
    ensures { OnOk result (next.new.items ≡ next.old.items ++ flat_map (S.next_keys steps.now) keys.now) }
{
    let alloc = crew.alloc;
    let parts = keys
        .par_chunks(share_len(keys.len(), crew.workers))
        .map(
            |share: &[Key]| -> Result<Vec<Key>, AllocError>
                requires { All (λ key. key < S.key_bound steps.now) share.now }
                ensures { IfOk result (λ next. next.items ≡ flat_map (S.next_keys steps.entry.now) share.now) }
            { next_of_share(alloc, steps, share) },
        )
        .collect::<Result<Vec<Vec<Key>>, AllocError>>(crew.rt, alloc)??;
    append_all(parts.as_slice(), next)
}
