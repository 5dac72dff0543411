//! What becomes of a job's bytes.
ghost use Rattle.std.specs.Prelude.{◌≡◌, ◌≤◌, length, IfOk, IfErr, IfSome};
ghost use Rattle.std.specs.List.{concat};
ghost use Rattle.relay_planning.specs.Limits.{AreOptions, AreLimits};
ghost use Rattle.aliasplan.specs.Outcomes.{IsAnswer, RefusesBytes};

use relay_job::{RunFault, parse_job_by};
use relay_planning::{Crew, Limits, Options, WrittenPlan, write_job};
use relay_rounds::Gate;
use relay_text::Text;
use std::alloc::Global;
use std::thread::Threads;

/// A job has copies of its sections, so the room of an input of more bytes is given back before its plan needs room. A smaller one's is
/// kept to the end: glibc takes blocks of the size of one that was freed, up to 32 MiB, from its heap, where vectors that grow leave
/// holes (mallopt(3), M_MMAP_THRESHOLD), and that would take more than it gives.
const LARGE: usize = 16 << 20;

/// A text, unless it is large: then its room is given back.
fn kept_of(text: Text) -> Option<Text>
    ensures { IfSome result (λ kept. kept ≡ text) }
{
    if text.len() > LARGE {
        return None;
    }
    Some(text)
}

/// What is written for a job's bytes.
pub(crate) fn answer_input<G: Gate, R: Threads + Sync>(
    rt: &R,
    alloc: Global,
    input: Text,
    options: Options,
    limits: Limits,
    gate: &G,
) -> Result<WrittenPlan, RunFault>
    requires options { AreOptions options }
    requires limits { AreLimits limits }
    requires input { length input ≤ limits.bytes }
    ensures answered { IfOk result (λ written. IsAnswer limits options.form input (concat written.texts.items) written.summary) }
    ensures refused { IfErr result (RefusesBytes limits input) }
{
    let job = parse_job_by(rt, alloc, options.workers, input.as_bytes())?;
    let kept = kept_of(input);
    let crew = Crew {
        rt,
        alloc,
        options,
        limits,
        gate,
    };
    let written = write_job(&crew, &job);
    drop(job);
    drop(kept);
    written
}
