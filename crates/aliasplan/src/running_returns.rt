//! A run from a job's bytes to its plan's, with what is returned.
ghost use Rattle.std.specs.Prelude.{◌≡◌, ◌≢◌, ◌≤◌, List, false, true, length, Err, IfOk, IfErr, IfSome};
ghost use Rattle.std.specs.Io.KnownBytes.{Keeps};
ghost use Rattle.relay_job.specs.JobAnswers.{IsJobWithin};
ghost use Rattle.relay_wire.specs.declared.plan.Plan as plans;
ghost use Rattle.relay_returns.specs.declared.block.Return as returned;
ghost use Rattle.relay_planning.specs.Written.{summary_of};
ghost use Rattle.relay_planning.specs.Plans.{IsFewest, IsPlanOf, IsSoundFor};
ghost use Rattle.aliasplan.specs.Returns.{returned_text_in, AreReturnsOf, IsReturnedAnswer, IsReturnedWithin, IsUnreturned, PlansReturns, RefusesReturnBytes, RefusesReturns, WritesReturnsFront};

use crate::device::{Feed, Sink};
use crate::reading::read_job;
use crate::returned::Returned;
use crate::returning::returns;
use crate::writing::write_text;
use relay_job::{Job, RunFault, parse_job_by};
use relay_planning::{Crew, Form, Summary};
use relay_rounds::Gate;
use relay_text::Text;
use std::alloc::Global;
use std::thread::Threads;

/// The text of a plan with what is returned, and the plan's numbers.
#[derive(Drop)]
struct ReturnedText {
    text: Text,
    summary: Summary,
}

/// What is written of a plan and its blocks.
fn answer_of(alloc: Global, form: Form, returned: &Returned) -> Result<ReturnedText, RunFault>
    ensures written { IfOk result (λ answer. answer.text ≡ returned_text_in form returned.now.plan returned.now.returns) }
    ensures summed { IfOk result (λ answer. answer.summary ≡ summary_of returned.now.plan) }
    ensures memory { IfErr result (λ fault. fault ≡ RunFault.Memory) }
{
    let summary = Summary::of(&returned.plan)?;
    let text = returned.text_of(alloc, form)?;
    Ok(ReturnedText { text, summary })
}

/// What is written for a job.
fn answer_job<G: Gate, R: Threads + Sync>(
    crew: &Crew<G, R>,
    job: &Job,
) -> Result<ReturnedText, RunFault>
    requires job { IsJobWithin crew.now.limits.bytes job.now }
    ensures answered { IfOk result (λ answer. IsReturnedWithin crew.now.limits job.now × ((plan : plans.Plan) × IsPlanOf job.now plan × IsSoundFor job.now plan.transactions × IsFewest job.now plan.transactions × ((blocks : List returned.Return) × AreReturnsOf job.now blocks × (answer.text ≡ returned_text_in crew.now.options.form plan blocks) × (answer.summary ≡ summary_of plan)))) }
    ensures refused { IfErr result (IsUnreturned crew.now.limits job.now) }
{
    let returned = returns(crew, job)?;
    let answer = answer_of(crew.alloc, crew.options.form, &returned);
    drop(returned);
    answer
}

/// What is written for a job's bytes.
fn answer_input<G: Gate, R: Threads + Sync>(
    crew: &Crew<G, R>,
    input: &[u8],
) -> Result<ReturnedText, RunFault>
    requires { length input.now ≤ crew.now.limits.bytes }
    ensures answered { IfOk result (λ answer. IsReturnedAnswer crew.now.limits crew.now.options.form input.now answer.text answer.summary) }
    ensures refused { IfErr result (RefusesReturnBytes crew.now.limits input.now) }
{
    let job = parse_job_by(crew.rt, crew.alloc, crew.options.workers, input)?;
    let answer = answer_job(crew, &job);
    drop(job);
    answer
}

/// Reads a job, plans it, and writes the plan's text with what is returned, and nothing else: after the transactions and before the
/// findings one block for each sender under which something can't be delivered. All of the text is there before the first write.
///
/// The faults are those of `run`, and `TooManyPairs` also where more pairs than the limit are reached from the recipients, each counted
/// once for each recipient.
pub fn run_returns<F: Feed, S: Sink, G: Gate, R: Threads + Sync>(
    crew: &Crew<G, R>,
    reader: &mut F,
    writer: &mut S,
) -> Result<Summary, RunFault>
    requires reader { (F.has_failed reader.old ≡ false) × (F.has_ended reader.old ≡ false) }
    requires writer { S.has_failed writer.old ≡ false }
    // The bytes written are the text of the plan of the job that the bytes read are, with what is returned.
    ensures plans { IfOk result (λ summary. IfSome (F.remaining reader.old) (λ input. PlansReturns crew.now.limits crew.now.options.form input (S.contents writer.old) (S.contents writer.new) summary)) }
    ensures refuses { IfErr result (λ fault. IfSome (F.remaining reader.old) (λ input. RefusesReturns crew.now.limits input fault)) }
    // Read exactly where the reader failed, and Write exactly where the writer did.
    ensures read { (result ≡ Err RunFault.Read → F.has_failed reader.new ≡ true) × (result ≢ Err RunFault.Read → F.has_failed reader.new ≡ false) }
    ensures write { (result ≡ Err RunFault.Write → S.has_failed writer.new ≡ true) × (result ≢ Err RunFault.Write → S.has_failed writer.new ≡ false) }
    // A failed write leaves a front of the text; every other refusal writes nothing.
    ensures front { result ≡ Err RunFault.Write → IfSome (F.remaining reader.old) (λ input. WritesReturnsFront crew.now.limits crew.now.options.form input (S.contents writer.old) (S.contents writer.new)) }
    ensures nothing { IfErr result (λ fault. fault ≢ RunFault.Write → Keeps (S.contents writer.old) (S.contents writer.new)) }
    // But for Read, TooLong and Memory, the reader has ended.
    ensures ended { (result ≢ Err RunFault.Read) → (result ≢ Err RunFault.TooLong) → (result ≢ Err RunFault.Memory) → F.has_ended reader.new ≡ true }
{
    let input = read_job(crew.alloc, reader, crew.limits.bytes)?;
    let ReturnedText { text, summary } = answer_input(crew, input.as_bytes())?;
    match write_text(writer, text.as_bytes()) {
        Ok(()) => Ok(summary),
        Err(_) => Err(RunFault::Write),
    }
}
