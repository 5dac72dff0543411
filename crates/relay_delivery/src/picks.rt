//! Elements by their numbers.
ghost use Rattle.std.specs.Prelude.{◌≡◌, ◌<◌, Some, map, length, All, slice_get, slice_index, IfOk};

use crate::shared::threads_for;
use relay_sharing::Crew;
use std::alloc::{AllocError, Global};
use std::thread::{Threads, for_each_mut};

/// The elements of these numbers, in their order.
pub(crate) fn picked<T: Copy>(
    alloc: Global,
    from: &[T],
    numbers: &[u32],
) -> Result<Vec<T>, AllocError>
    requires { All (λ n. n < length from.now) numbers.now }
    ensures { IfOk result (λ picks. map (λ x. Some x) picks.items ≡ map (slice_get from.now) numbers.now) }
{
    let mut picks = Vec::with_capacity(alloc, numbers.len())?;
    for number in numbers {
        picks.push_reserved(from[*number as usize]);
    }
    Ok(picks)
}

/// The same by a crew where there are many, each put in the place of another.
pub(crate) fn picked_by_crew<T: Copy + Send + Sync, R: Threads + Sync>(
    crew: &Crew<'_, R>,
    from: &[T],
    numbers: &[u32],
) -> Result<Vec<T>, AllocError>
    requires { All (λ n. n < length from.now) numbers.now }
    ensures { IfOk result (λ picks. map (λ x. Some x) picks.items ≡ map (slice_get from.now) numbers.now) }
{
    let threads = threads_for(crew, numbers.len());
    if from.is_empty() || threads < 2 {
        return picked(crew.alloc, from, numbers);
    }
    let mut picks = vec![in crew.alloc; from[0]; numbers.len()]?;
    for_each_mut(
        crew.rt,
        picks.as_mut_slice(),
        threads,
        &|index: usize, pick: &mut T|
            requires { (index < length numbers.now) × All (λ n. n < length from.now) numbers.now }
            ensures { slice_get from.entry.now (slice_index numbers.entry.now index) ≡ Some pick.exit.now }
        { *pick = from[numbers[index] as usize] },
    );
    Ok(picks)
}
