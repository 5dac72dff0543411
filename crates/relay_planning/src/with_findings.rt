//! A plan with its findings as values, for a program that acts upon them.
ghost use Rattle.std.specs.Prelude.{◌≡◌, ℕ, List, map, IfOk, IfErr, OnOk, IsTrue};
ghost use Rattle.relay_text.specs.Bytes.{has_text};
ghost use Rattle.relay_wire.specs.Findings.{finding_text_of};
ghost use Rattle.relay_job.specs.JobAnswers.{IsJobWithin};
ghost use Rattle.relay_planning.specs.Delivery.{directory_of, routing_of};
ghost use Rattle.relay_planning.specs.Limits.{IsWithin, IsRefused};
ghost use Rattle.relay_planning.specs.Plans.{AreTransactionsOf, IsFewest, IsPlanOf, IsPlanWith, IsSoundFor};
ghost use Rattle.relay_planning.specs.Texts.{has_fault_line};

use crate::crew::Crew;
use crate::job_view::JobView;
use crate::laws::parsed_is_readable;
use crate::lookup::Lookup;
use crate::planning::plan_with;
use crate::transacted::{Transacted, transactions_by_lookup};
use relay_job::{Job, RunFault};
use relay_rounds::Gate;
use relay_wire::{Finding, FindingLines, Found, Plan, Planned};
use std::alloc::{AllocError, Global};
use std::thread::Threads;

/// A plan, and what its lines of findings say as values.
#[derive(Drop)]
pub struct PlanWithFindings {
    pub plan: Plan,
    /// Of each of the plan's lines the finding that has it, at the same place.
    pub findings: Vec<Finding>,
}

/// The plan of transactions, with the findings that are gathered.
fn plan_with_found(
    alloc: Global,
    job: &JobView<'_>,
    transactions: Vec<Planned>,
    lines: FindingLines<Vec<Finding>>,
) -> Result<PlanWithFindings, AllocError>
    requires transactions { AreTransactionsOf job.now transactions.items }
    requires sound { IsSoundFor job.now transactions.items }
    requires fewest { IsFewest job.now transactions.items }
    ensures plan { IfOk result (λ reported. IsPlanWith job.now (λ q. IsTrue (has_text lines q)) reported.plan) }
    ensures sound { IfOk result (λ reported. IsSoundFor job.now reported.plan.transactions) }
    ensures fewest { IfOk result (λ reported. IsFewest job.now reported.plan.transactions) }
    ensures findings { IfOk result (λ reported. map finding_text_of reported.findings.items ≡ reported.plan.findings) }
{
    let Found { lines, findings } = match lines.into_found(alloc) {
        Ok(found) => found,
        Err(error) => {
            drop(transactions);
            return Err(error);
        }
    };
    match plan_with(alloc, job, transactions, lines) {
        Ok(plan) => Ok(PlanWithFindings { plan, findings }),
        Err(error) => {
            drop(findings);
            Err(error)
        }
    }
}

/// The plan of a job whose files and tables are read. Their faults are given.
fn plan_by_lookup_with_findings<G: Gate, R: Threads + Sync>(
    crew: &Crew<G, R>,
    job: &JobView<'_>,
    lookup: Lookup,
    lines: FindingLines<Vec<Finding>>,
) -> Result<PlanWithFindings, RunFault>
    requires tables { lookup.tables ≡ directory_of job.now }
    requires router { lookup.router ≡ routing_of job.now }
    requires lines { (q : List ℕ) → has_text lines q ≡ has_fault_line job.now q }
    ensures plan { IfOk result (λ reported. IsPlanOf job.now reported.plan) }
    ensures sound { IfOk result (λ reported. IsSoundFor job.now reported.plan.transactions) }
    ensures fewest { IfOk result (λ reported. IsFewest job.now reported.plan.transactions) }
    ensures findings { IfOk result (λ reported. map finding_text_of reported.findings.items ≡ reported.plan.findings) }
    ensures within { OnOk result (IsWithin crew.now.limits job.now) }
    ensures refused { IfErr result (IsRefused crew.now.limits job.now) }
{
    let mut lines = lines;
    match transactions_by_lookup(crew, job, lookup, &mut lines) {
        Ok(
            Transacted {
                transactions,
                basis,
            },
        ) => {
            drop(basis);
            match plan_with_found(crew.alloc, job, transactions, lines) {
                Ok(reported) => Ok(reported),
                Err(_) => Err(RunFault::Memory),
            }
        }
        Err(fault) => {
            drop(lines);
            Err(fault)
        }
    }
}

/// The plan of a job, as [`plan_job`](crate::plan_job) makes it and with its errors, and the finding of each of its lines as a value.
///
/// Of two findings that have one line, as paths with spaces may, one stands for it, as the line does in the plan. A finding takes some three times
/// the room of its line, and all of them are there until the plan is.
pub fn plan_with_findings<G: Gate, R: Threads + Sync>(
    crew: &Crew<G, R>,
    job: &Job,
) -> Result<PlanWithFindings, RunFault>
    requires { IsJobWithin crew.now.limits.bytes job.now }
    ensures plan { IfOk result (λ reported. IsPlanOf job.now reported.plan) }
    ensures sound { IfOk result (λ reported. IsSoundFor job.now reported.plan.transactions) }
    ensures fewest { IfOk result (λ reported. IsFewest job.now reported.plan.transactions) }
    ensures findings { IfOk result (λ reported. map finding_text_of reported.findings.items ≡ reported.plan.findings) }
    ensures within { OnOk result (IsWithin crew.now.limits job.now) }
    ensures refused { IfErr result (IsRefused crew.now.limits job.now) }
{
    parsed_is_readable();
    let mut lines = FindingLines::with_findings(crew.alloc);
    match Lookup::read_by(crew, job, &mut lines) {
        Ok(lookup) => plan_by_lookup_with_findings(crew, &JobView::of(job), lookup, lines),
        Err(_) => {
            drop(lines);
            Err(RunFault::Memory)
        }
    }
}
