//! The plan of a job, beside the chains to what is asked for.
ghost use Rattle.std.specs.Prelude.{◌≡◌, ℕ, List, IfOk};
ghost use Rattle.std.specs.Thread.{IsSync};
ghost use Rattle.relay_text.specs.Bytes.{has_text};
ghost use Rattle.relay_planning.specs.Plans.{IsPlanOf, IsSoundFor};
ghost use Rattle.relay_planning.specs.Texts.{has_fault_line};
ghost use Rattle.aliasplan_explain.specs.Chains.{LeadToAsked};
ghost use Rattle.aliasplan_explain.specs.Grounds.{IsBasisOf};

use crate::both::{both_or_fault, with_or_fault};
use crate::chains::Chains;
use crate::grounds::Grounds;
use aliasplan::{Crew, Gate};
use relay_explain::Asked;
use relay_planning::{JobView, plan_reached};
use relay_wire::{FindingLines, Plan};
use std::alloc::AllocError;
use std::mem;
use std::thread::{Threads, join};

// Starting a thread takes as long as planning some hundred pairs.
const FEWEST_PAIRS: usize = 4_096;

// The plan of what an explanation rests on. The lines of files and tables that are at fault are given, and taken.
fn planned<G: Gate, R: Threads + Sync>(
    crew: &Crew<G, R>,
    view: &JobView<'_>,
    grounds: &Grounds<'_>,
    lines: &mut FindingLines,
) -> Result<Plan, AllocError>
    requires made { IsBasisOf grounds.now.job.now grounds.now.basis.now }
    requires view { view.now ≡ grounds.now.job.now }
    requires lines { (q : List ℕ) → has_text lines.old q ≡ has_fault_line grounds.now.job.now q }
    ensures plan { IfOk result (IsPlanOf grounds.now.job.now) }
    ensures sound { IfOk result (λ plan. IsSoundFor grounds.now.job.now plan.transactions) }
{
    let lines = mem::replace(lines, FindingLines::new(crew.alloc));
    let basis = grounds.basis;
    plan_reached(crew, view, &basis.lookup, &basis.graph, &basis.pairs, lines)
}

// The same, and the chains by a thread of its own meanwhile.
fn side_by_side<G: Gate, R: Threads + Sync>(
    crew: &Crew<G, R>,
    view: &JobView<'_>,
    grounds: &Grounds<'_>,
    asked: &Asked,
    lines: FindingLines,
) -> Result<(Chains, Plan), AllocError>
    requires made { IsBasisOf grounds.now.job.now grounds.now.basis.now }
    requires view { view.now ≡ grounds.now.job.now }
    requires lines { (q : List ℕ) → has_text lines q ≡ has_fault_line grounds.now.job.now q }
    ensures chains { IfOk result (λ both. LeadToAsked grounds.now.job.now grounds.now.basis.now.graph grounds.now.recipient_lines.now asked.now both.0) }
    ensures plan { IfOk result (λ both. IsPlanOf grounds.now.job.now both.1) }
    ensures sound { IfOk result (λ both. IsSoundFor grounds.now.job.now both.1.transactions) }
{
    let mut lines = lines;
    let lead = || -> Result<Chains, AllocError>
        requires { IsSync R.row × IsBasisOf grounds.now.job.now grounds.now.basis.now }
        ensures { IfOk result (LeadToAsked grounds.entry.now.job.now grounds.entry.now.basis.now.graph grounds.entry.now.recipient_lines.now asked.entry.now) }
    { Chains::to(crew, grounds, asked) };
    let plan = || -> Result<Plan, AllocError>
        requires { IsSync R.row × IsBasisOf grounds.now.job.now grounds.now.basis.now × (view.now ≡ grounds.now.job.now) × ((q : List ℕ) → has_text lines q ≡ has_fault_line grounds.now.job.now q) }
        ensures { IfOk result (λ plan. IsPlanOf grounds.entry.now.job.now plan × IsSoundFor grounds.entry.now.job.now plan.transactions) }
    { planned(crew, view, grounds, &mut lines) };
    let (there, here) = join(crew.rt, lead, plan);
    both_or_fault(there, here)
}

// The same, one after the other.
fn in_turn<G: Gate, R: Threads + Sync>(
    crew: &Crew<G, R>,
    view: &JobView<'_>,
    grounds: &Grounds<'_>,
    asked: &Asked,
    lines: &mut FindingLines,
) -> Result<(Chains, Plan), AllocError>
    requires made { IsBasisOf grounds.now.job.now grounds.now.basis.now }
    requires view { view.now ≡ grounds.now.job.now }
    requires lines { (q : List ℕ) → has_text lines.old q ≡ has_fault_line grounds.now.job.now q }
    ensures chains { IfOk result (λ both. LeadToAsked grounds.now.job.now grounds.now.basis.now.graph grounds.now.recipient_lines.now asked.now both.0) }
    ensures plan { IfOk result (λ both. IsPlanOf grounds.now.job.now both.1) }
    ensures sound { IfOk result (λ both. IsSoundFor grounds.now.job.now both.1.transactions) }
{
    let chains = Chains::to(crew, grounds, asked)?;
    let plan = planned(crew, view, grounds, lines);
    with_or_fault(chains, plan)
}

// Are there pairs enough for a thread of their own, and another worker?
fn is_shared<G: Gate, R: Threads + Sync>(crew: &Crew<G, R>, grounds: &Grounds<'_>) -> bool {
    crew.options.workers > 1 && grounds.basis.pairs.len() >= FEWEST_PAIRS
}

/// The chains to what is asked for, and the plan of a job: neither needs the other. The lines of files and tables that are at fault are
/// given. `Err` where memory runs out.
pub(crate) fn plan_beside<G: Gate, R: Threads + Sync>(
    crew: &Crew<G, R>,
    view: &JobView<'_>,
    grounds: &Grounds<'_>,
    asked: &Asked,
    lines: FindingLines,
) -> Result<(Chains, Plan), AllocError>
    requires made { IsBasisOf grounds.now.job.now grounds.now.basis.now }
    requires view { view.now ≡ grounds.now.job.now }
    requires lines { (q : List ℕ) → has_text lines q ≡ has_fault_line grounds.now.job.now q }
    ensures chains { IfOk result (λ both. LeadToAsked grounds.now.job.now grounds.now.basis.now.graph grounds.now.recipient_lines.now asked.now both.0) }
    ensures plan { IfOk result (λ both. IsPlanOf grounds.now.job.now both.1) }
    ensures sound { IfOk result (λ both. IsSoundFor grounds.now.job.now both.1.transactions) }
{
    if is_shared(crew, grounds) {
        side_by_side(crew, view, grounds, asked, lines)
    } else {
        let mut lines = lines;
        in_turn(crew, view, grounds, asked, &mut lines)
    }
}
