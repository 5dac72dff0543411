//! What a job says, read beside the lines of its alias file, which the steps of a trail name.
use crate::basis::Basis;
use relay_text::Line;
use relay_wire::FindingLines;

/// What a job's plan is made from, and the logical lines of its alias file.
#[derive(Drop)]
pub(crate) struct Reading {
    pub(crate) basis: Basis,
    pub(crate) alias_lines: Vec<Line>,
}

ghost use Rattle.std.specs.Prelude.{◌≡◌, ℕ, List, IfOk, IfErr, OnOk};
ghost use Rattle.std.specs.Thread.{IsSync};
ghost use Rattle.relay_text.specs.Bytes.{has_text};
ghost use Rattle.relay_text.specs.Lines.{logical_lines_of};
ghost use Rattle.relay_job.specs.JobAnswers.{IsJobWithin};
ghost use Rattle.relay_planning.specs.Limits.{IsWithin, IsRefused};
ghost use Rattle.relay_planning.specs.Texts.{has_fault_line};
ghost use Rattle.aliasplan_explain.specs.Grounds.{IsBasisOf, IsReadingOf};

use crate::both::both_or_fault;
use aliasplan::{Crew, Gate, Job, RunFault};
use relay_text::logical_lines;
use std::alloc::Global;
use std::thread::{Threads, join};

// Starting a thread takes as long as cutting some ten thousand bytes into lines.
const FEWEST_BYTES: usize = 65_536;

// The logical lines of a job's alias file.
fn alias_lines_of(alloc: Global, job: &Job) -> Result<Vec<Line>, RunFault>
    ensures lines { IfOk result (λ lines. lines.items ≡ (logical_lines_of job.now.aliases).lines) }
    ensures memory { IfErr result (λ fault. fault ≡ RunFault.Memory) }
{
    let lines = logical_lines(alloc, job.aliases.as_bytes())?;
    Ok(lines.lines.into_vec())
}

// What a job's plan is made from, with the lines of what is at fault, and the lines of its alias file, which a thread of its own cuts where
// they are many.
fn read_and_cut<G: Gate, R: Threads + Sync>(
    crew: &Crew<G, R>,
    job: &Job,
) -> Result<((Basis, FindingLines), Vec<Line>), RunFault>
    requires { IsJobWithin crew.now.limits.bytes job.now }
    ensures basis { IfOk result (λ all. IsBasisOf job.now all.0.0) }
    ensures faults { IfOk result (λ all. (q : List ℕ) → has_text all.0.1 q ≡ has_fault_line job.now q) }
    ensures lines { IfOk result (λ all. all.1.items ≡ (logical_lines_of job.now.aliases).lines) }
    ensures within { OnOk result (IsWithin crew.now.limits job.now) }
    ensures refused { IfErr result (IsRefused crew.now.limits job.now) }
{
    let alloc = crew.alloc;
    if crew.options.workers == 1 || job.aliases.len() < FEWEST_BYTES {
        return both_or_fault(Basis::read(crew, job), alias_lines_of(alloc, job));
    }
    let cut = || -> Result<Vec<Line>, RunFault>
        ensures { IfOk result (λ lines. lines.items ≡ (logical_lines_of job.entry.now.aliases).lines) × IfErr result (λ fault. fault ≡ RunFault.Memory) }
    { alias_lines_of(alloc, job) };
    let read = || -> Result<(Basis, FindingLines), RunFault>
        requires { IsSync R.row × IsJobWithin crew.now.limits.bytes job.now }
        ensures { IfOk result (λ both. IsBasisOf job.entry.now both.0 × ((q : List ℕ) → has_text both.1 q ≡ has_fault_line job.entry.now q)) × OnOk result (IsWithin crew.entry.now.limits job.entry.now) × IfErr result (IsRefused crew.entry.now.limits job.entry.now) }
    { Basis::read(crew, job) };
    let (lines, read) = join(crew.rt, cut, read);
    both_or_fault(read, lines)
}

impl Reading {
    /// That of a job, and the lines of its files and tables that are at fault. The errors are those of `plan_job`, in the same order.
    pub(crate) fn of<G: Gate, R: Threads + Sync>(
        crew: &Crew<G, R>,
        job: &Job,
    ) -> Result<(Reading, FindingLines), RunFault>
        requires { IsJobWithin crew.now.limits.bytes job.now }
        ensures reading { IfOk result (λ both. IsReadingOf job.now both.0) }
        ensures faults { IfOk result (λ both. (q : List ℕ) → has_text both.1 q ≡ has_fault_line job.now q) }
        ensures within { OnOk result (IsWithin crew.now.limits job.now) }
        ensures refused { IfErr result (IsRefused crew.now.limits job.now) }
    {
        let ((basis, faults), alias_lines) = read_and_cut(crew, job)?;
        Ok((Reading { basis, alias_lines }, faults))
    }
}
