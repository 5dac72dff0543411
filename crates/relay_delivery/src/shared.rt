//! What a crew shares.
ghost use Rattle.std.specs.Prelude.{◌≡◌, ◌<◌, map, IfOk};

use relay_sharing::Crew;
use std::alloc::{AllocError, Global};

/// The fewest that several threads share: with fewer, a thread takes longer to start than it saves.
const FEWEST: usize = 65_536;

/// The fewest that each of them has.
const LEAST: usize = 16_384;

/// How many threads of a crew share so many.
pub(crate) fn threads_for<R>(crew: &Crew<'_, R>, count: usize) -> usize
    ensures { 0 < result }
{
    if count < FEWEST {
        return 1;
    }
    crew.workers.min(count / LEAST).max(1)
}

/// What all shares have given. `Err` where memory ran out for one.
pub(crate) fn all_given<T: Drop>(
    alloc: Global,
    shares: Vec<Result<T, AllocError>>,
) -> Result<Vec<T>, AllocError>
    ensures { IfOk result (λ all. map (λ one. Ok one) all.items ≡ shares.items) }
{
    let mut all = Vec::with_capacity(alloc, shares.len())?;
    for share in shares {
        all.push(share?)?;
    }
    Ok(all)
}
