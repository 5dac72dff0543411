//! A plain breadth-first search.
ghost use Rattle.std.specs.Prelude.{◌<◌};

use relay_rounds::{Key, Steps};
use std::alloc::{AllocError, Global};
use std::collections::HashSet;

/// How many keys are reached from 0.
pub fn plain<S: Steps>(alloc: Global, steps: &S) -> Result<usize, AllocError> {
    let mut seen = HashSet::new(alloc);
    let mut queue = Vec::new(alloc);
    seen.insert(0)?;
    queue.push(0)?;
    for at in 0..steps.bound() {
        match queue.get(at as usize).copied() {
            Some(key) if key < steps.bound() => queue_next(steps, key, &mut seen, &mut queue)?,
            _ => break,
        }
    }
    Ok(queue.len())
}

// Queues what a key leads to and is not seen yet.
fn queue_next<S: Steps>(
    steps: &S,
    key: Key,
    seen: &mut HashSet<Key>,
    queue: &mut Vec<Key>,
) -> Result<(), AllocError>
    requires { key < S.key_bound steps.now }
{
    for i in 0..steps.count(key) {
        let next = steps.at(key, i);
        if seen.insert(next)? {
            queue.push(next)?;
        }
    }
    Ok(())
}
