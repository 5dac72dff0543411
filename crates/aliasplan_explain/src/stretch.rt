//! Parts of trails.
ghost use Rattle.std.specs.Prelude.{◌<◌, ℕ, IfOk};
ghost use Rattle.aliasplan_explain.specs.Stretches.{AreStretches};

use std::alloc::{AllocError, Global};

/// The items of a trail from the one at `start` to the one before `end`.
#[derive(Clone, Copy)]
pub(crate) struct Stretch {
    pub(crate) start: usize,
    pub(crate) end: usize,
}

// Starting a thread takes as long as telling some hundred steps.
const FEWEST_STEPS: usize = 4_096;

/// A trail of so many items, cut into a part for each worker, or into fewer where it is short. `Err` where memory runs out.
pub(crate) fn stretches_of(
    alloc: Global,
    items: usize,
    workers: usize,
) -> Result<Vec<Stretch>, AllocError>
    requires { 0 < workers }
    ensures { IfOk result (λ stretches. AreStretches 0 stretches.items items) }
{
    let size = items.div_ceil(workers).max(FEWEST_STEPS);
    let mut stretches = Vec::new(alloc);
    let mut start = 0;
    while start < items {
        let end = start + size.min(items - start);
        stretches.push(Stretch { start, end })?;
        start = end;
    }
    Ok(stretches)
}
