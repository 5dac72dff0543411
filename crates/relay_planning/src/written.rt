//! What is written of the plan of a job.
//!
//! The lines of the findings are written from where they were gathered, so a plan's text is made of its transactions and these lines, and not
//! of a plan that has a text of its own for each finding.
use crate::summary::Summary;
use relay_text::Text;

/// The text of a plan in parts that stand one behind the other, and its numbers.
#[derive(Drop)]
pub struct WrittenPlan {
    pub texts: Vec<Text>,
    pub summary: Summary,
}

ghost use Rattle.std.specs.Prelude.{◌≡◌, ◌<◌, true, ℕ, List, IfOk, IfErr, OnOk};
ghost use Rattle.std.specs.Thread.{IsSync};
ghost use Rattle.relay_text.specs.Bytes.{has_text};
ghost use Rattle.relay_job.specs.JobAnswers.{IsJobWithin};
ghost use Rattle.relay_planning.specs.Delivery.{directory_of, routing_of};
ghost use Rattle.relay_planning.specs.Limits.{IsWithin, IsRefused};
ghost use Rattle.relay_planning.specs.Texts.{has_fault_line};
ghost use Rattle.relay_planning.specs.Written.{AreWritten, IsWrittenAs, IsWrittenFor};

use crate::crew::Crew;
use crate::job_view::JobView;
use crate::laws::parsed_is_readable;
use crate::lookup::Lookup;
use crate::options::Form;
use crate::planning::plan_by_lookup;
use crate::transacted::{Basis, MANY, Transacted, transactions_by_lookup};
use relay_job::{Job, RunFault};
use relay_rounds::Gate;
use relay_wire::{FindingLines, Plan, PlanTexts, Planned};
use std::alloc::{AllocError, Global};
use std::thread::{Threads, join};

/// What is written of a plan.
fn written_of(alloc: Global, form: Form, plan: &Plan) -> Result<WrittenPlan, RunFault>
    ensures written { IfOk result (IsWrittenAs form plan.now) }
    ensures memory { IfErr result (λ fault. fault ≡ RunFault.Memory) }
{
    let summary = Summary::of(plan)?;
    let texts = vec![in alloc; form.text_of(alloc, plan)?]?;
    Ok(WrittenPlan { texts, summary })
}

/// What is written of the plan of these transactions with these lines.
fn written_with<R: Threads + Sync>(
    crew: &relay_sharing::Crew<'_, R>,
    transactions: &[Planned],
    lines: FindingLines,
) -> Result<WrittenPlan, AllocError>
    ensures { IfOk result (AreWritten transactions.now lines) }
{
    let PlanTexts {
        texts,
        recipients,
        findings,
    } = lines.plan_texts_by(crew, transactions)?;
    Ok(WrittenPlan {
        texts,
        summary: Summary {
            transactions: transactions.len(),
            recipients,
            findings,
        },
    })
}

/// The same by so many workers. Apart from their crew, since of a closure that borrows one `join` tells nothing.
fn written_by<R: Threads + Sync>(
    rt: &R,
    alloc: Global,
    workers: usize,
    transactions: &[Planned],
    lines: FindingLines,
) -> Result<WrittenPlan, AllocError>
    ensures { IfOk result (AreWritten transactions.now lines) }
{
    let crew = relay_sharing::Crew { rt, alloc, workers };
    written_with(&crew, transactions, lines)
}

/// The same, and the basis of the transactions is let go of: in a thread of its own where it is large and there are several workers.
fn written_beside<R: Threads + Sync>(
    rt: &R,
    alloc: Global,
    workers: usize,
    basis: Basis,
    transactions: &[Planned],
    lines: FindingLines,
) -> Result<WrittenPlan, AllocError>
    ensures { IfOk result (AreWritten transactions.now lines) }
{
    if workers < 2 || basis.reached.pairs.len() < MANY {
        drop(basis);
        return written_by(rt, alloc, workers, transactions, lines);
    }
    let (_, written) = join(
        rt,
        || -> bool
            ensures { result ≡ true }
        {
            drop(basis);
            true
        },
        || -> Result<WrittenPlan, AllocError>
            requires { IsSync R.row }
            ensures { IfOk result (AreWritten transactions.entry.now lines) }
        { written_by(rt, alloc, workers, transactions, lines) },
    );
    written
}

/// What is written of the plan of a job whose files and tables are read. Their lines that are at fault are given.
fn written_by_lookup<G: Gate, R: Threads + Sync>(
    crew: &Crew<G, R>,
    job: &JobView<'_>,
    lookup: Lookup,
    lines: FindingLines,
) -> Result<WrittenPlan, RunFault>
    requires tables { lookup.tables ≡ directory_of job.now }
    requires router { lookup.router ≡ routing_of job.now }
    requires lines { (q : List ℕ) → has_text lines q ≡ has_fault_line job.now q }
    ensures written { IfOk result (IsWrittenFor job.now Form.Plan) }
    ensures within { OnOk result (IsWithin crew.now.limits job.now) }
    ensures refused { IfErr result (IsRefused crew.now.limits job.now) }
{
    let mut lines = lines;
    let Transacted {
        transactions,
        basis,
    } = transactions_by_lookup(crew, job, lookup, &mut lines)?;
    let written = written_beside(
        crew.rt,
        crew.alloc,
        crew.options.workers,
        basis,
        &transactions,
        lines,
    );
    drop(transactions);
    match written {
        Ok(written) => Ok(written),
        Err(_) => Err(RunFault::Memory),
    }
}

/// What is written, in the form that is asked for, of the plan of a job whose files and tables are read, of which a plan is made. Their lines
/// that are at fault are given.
fn formed_by_lookup<G: Gate, R: Threads + Sync>(
    crew: &Crew<G, R>,
    job: &JobView<'_>,
    lookup: Lookup,
    lines: FindingLines,
) -> Result<WrittenPlan, RunFault>
    requires tables { lookup.tables ≡ directory_of job.now }
    requires router { lookup.router ≡ routing_of job.now }
    requires lines { (q : List ℕ) → has_text lines q ≡ has_fault_line job.now q }
    ensures written { IfOk result (IsWrittenFor job.now crew.now.options.form) }
    ensures within { OnOk result (IsWithin crew.now.limits job.now) }
    ensures refused { IfErr result (IsRefused crew.now.limits job.now) }
{
    let plan = plan_by_lookup(crew, job, lookup, lines)?;
    let written = written_of(crew.alloc, crew.options.form, &plan);
    drop(plan);
    written
}

/// What is written of the plan of a job: the text of the plan that `plan_job` gives, in the form that is asked for, and its numbers.
///
/// The errors are those of [`plan_job`], in the same order.
pub fn write_job<G: Gate, R: Threads + Sync>(
    crew: &Crew<G, R>,
    job: &Job,
) -> Result<WrittenPlan, RunFault>
    requires { IsJobWithin crew.now.limits.bytes job.now }
    ensures written { IfOk result (IsWrittenFor job.now crew.now.options.form) }
    ensures within { OnOk result (IsWithin crew.now.limits job.now) }
    ensures refused { IfErr result (IsRefused crew.now.limits job.now) }
{
    parsed_is_readable();
    let mut lines = FindingLines::new(crew.alloc);
    let Ok(lookup) = Lookup::read_by(crew, job, &mut lines) else {
        return Err(RunFault::Memory);
    };
    let view = JobView::of(job);
    match crew.options.form {
        Form::Plan => written_by_lookup(crew, &view, lookup, lines),
        Form::Wire | Form::Json => formed_by_lookup(crew, &view, lookup, lines),
    }
}
