//! A run from a job's bytes to the text of an explanation.
ghost use Rattle.std.specs.Prelude.{◌≡◌, ◌≢◌, ◌≤◌, false, true, length, Ok, Err, IfOk, IfErr, IfSome, OnOk, OnErr};
ghost use Rattle.std.specs.Io.KnownBytes.{Appends, Keeps};
ghost use Rattle.relay_wire.specs.declared.plan.Plan as plans;
ghost use Rattle.relay_job.specs.JobAnswers.{IsJobWithin};
ghost use Rattle.relay_job.specs.JobText.{job_of};
ghost use Rattle.relay_explain.specs.Explanations.{Explanation};
ghost use Rattle.relay_explain.specs.ExplanationText.{explanation_text_of};
ghost use Rattle.relay_explain.specs.PiecedTexts.{text_of};
ghost use Rattle.relay_planning.specs.Limits.{IsRefused, IsWithin};
ghost use Rattle.aliasplan.specs.Outcomes.{Refuses, RefusesBytes};
ghost use Rattle.aliasplan.specs.Transfers.{Fronts};
ghost use Rattle.relay_planning.specs.Plans.{IsPlanOf};
ghost use Rattle.aliasplan_explain.specs.Explanations.{IsExplanationOf, is_in_plan};
ghost use Rattle.aliasplan_explain.specs.Runs.{Explains, IsExplained, WritesExplanationFront};
ghost use Rattle.aliasplan_explain.specs.Tellings.{has_transaction};

use crate::explaining::explain;
use aliasplan::{
    Crew, Failed, Feed, Gate, Job, RunFault, Sink, parse_job_by, read_job, write_text,
};
use relay_explain::{Asked, Outcome, Telling, telling_text};
use relay_job::{each_recipient_has_line, recipient_lines};
use relay_text::{Seq, Text};
use std::thread::Threads;

// An explanation's text, in pieces, and whether the address is in the plan.
#[derive(Drop)]
struct Explained {
    text: Seq<Text>,
    in_plan: bool,
}

// Whether some answer says that a transaction has the address.
fn is_in_plan(telling: &Telling) -> bool
    ensures { result ≡ has_transaction telling.now }
{
    let answers = telling.answers.as_slice();
    answers.iter().any(|answer| matches!(answer.outcome, Some(Outcome::Transaction(_))))
}

// Writes the pieces of a text, one behind the other. After a failure a front of the text is written.
fn write_pieces<S: Sink>(writer: &mut S, pieces: &[Text]) -> Result<(), Failed>
    requires { S.has_failed writer.old ≡ false }
    ensures ok { OnOk result (Appends (S.contents writer.old) (S.contents writer.new) (text_of pieces.now)) }
    ensures works { OnOk result (S.has_failed writer.new ≡ false) }
    ensures front { OnErr result (Fronts (S.contents writer.old) (S.contents writer.new) (text_of pieces.now)) }
    ensures failed { OnErr result (S.has_failed writer.new ≡ true) }
{
    for piece in pieces {
        write_text(writer, piece.as_bytes())?;
    }
    Ok(())
}

// What is written for a job whose recipients stand on these lines.
fn answer_job<G: Gate, R: Threads + Sync>(
    crew: &Crew<G, R>,
    job: &Job,
    recipient_lines: &[usize],
    asked: &Asked,
) -> Result<Explained, RunFault>
    requires job { IsJobWithin crew.now.limits.bytes job.now }
    requires lines { length recipient_lines.now ≡ length job.now.recipients }
    ensures explained { IfOk result (λ it. IsWithin crew.now.limits job.now × ((plan : plans.Plan) × IsPlanOf job.now plan × ((explanation : Explanation) × IsExplanationOf job.now plan recipient_lines.now asked.now explanation × (text_of it.text ≡ explanation_text_of explanation) × (it.in_plan ≡ is_in_plan explanation)))) }
    ensures refused { IfErr result (IsRefused crew.now.limits job.now) }
{
    let telling = explain(crew, job, recipient_lines, asked)?;
    let in_plan = is_in_plan(&telling);
    let text = telling_text(crew.alloc, telling)?;
    Ok(Explained { text, in_plan })
}

// What is written for a job that these bytes are.
fn answer_parsed<G: Gate, R: Threads + Sync>(
    crew: &Crew<G, R>,
    job: &Job,
    input: &[u8],
    asked: &Asked,
) -> Result<Explained, RunFault>
    requires size { length input.now ≤ crew.now.limits.bytes }
    requires job { job_of input.now ≡ Ok job.now }
    ensures explained { IfOk result (λ it. IsExplained crew.now.limits asked.now input.now (text_of it.text) it.in_plan) }
    ensures refused { IfErr result (RefusesBytes crew.now.limits input.now) }
{
    each_recipient_has_line();
    let lines = recipient_lines(crew.alloc, input)?;
    answer_job(crew, job, &lines, asked)
}

// What is written for a job's bytes.
fn answer_input<G: Gate, R: Threads + Sync>(
    crew: &Crew<G, R>,
    input: &[u8],
    asked: &Asked,
) -> Result<Explained, RunFault>
    requires { length input.now ≤ crew.now.limits.bytes }
    ensures explained { IfOk result (λ it. IsExplained crew.now.limits asked.now input.now (text_of it.text) it.in_plan) }
    ensures refused { IfErr result (RefusesBytes crew.now.limits input.now) }
{
    let job = parse_job_by(crew.rt, crew.alloc, crew.options.workers, input)?;
    let answer = answer_parsed(crew, &job, input, asked);
    drop(job);
    answer
}

/// Reads a job, and writes why a name or an address is reached by its message, or isn't, and nothing else. All of the text is there before
/// the first write. Returns whether a transaction of the job's plan has the address.
///
/// The faults are those of `run` of aliasplan. The form of the options is not regarded.
pub fn run_explain<F: Feed, S: Sink, G: Gate, R: Threads + Sync>(
    crew: &Crew<G, R>,
    reader: &mut F,
    writer: &mut S,
    asked: &Asked,
) -> Result<bool, RunFault>
    requires reader { (F.has_failed reader.old ≡ false) × (F.has_ended reader.old ≡ false) }
    requires writer { S.has_failed writer.old ≡ false }
    // The bytes written are the text of the explanation by the job that the bytes read are.
    ensures explains { IfOk result (λ in_plan. IfSome (F.remaining reader.old) (λ input. Explains crew.now.limits asked.now input (S.contents writer.old) (S.contents writer.new) in_plan)) }
    ensures refuses { IfErr result (λ fault. IfSome (F.remaining reader.old) (λ input. Refuses crew.now.limits input fault)) }
    // Read exactly where the reader failed, and Write exactly where the writer did.
    ensures read { (result ≡ Err RunFault.Read → F.has_failed reader.new ≡ true) × (result ≢ Err RunFault.Read → F.has_failed reader.new ≡ false) }
    ensures write { (result ≡ Err RunFault.Write → S.has_failed writer.new ≡ true) × (result ≢ Err RunFault.Write → S.has_failed writer.new ≡ false) }
    // A failed write leaves a front of the text; every other refusal writes nothing.
    ensures front { result ≡ Err RunFault.Write → IfSome (F.remaining reader.old) (λ input. WritesExplanationFront crew.now.limits asked.now input (S.contents writer.old) (S.contents writer.new)) }
    ensures nothing { IfErr result (λ fault. fault ≢ RunFault.Write → Keeps (S.contents writer.old) (S.contents writer.new)) }
    // But for Read, TooLong and Memory, the reader has ended.
    ensures ended { (result ≢ Err RunFault.Read) → (result ≢ Err RunFault.TooLong) → (result ≢ Err RunFault.Memory) → F.has_ended reader.new ≡ true }
{
    let input = read_job(crew.alloc, reader, crew.limits.bytes)?;
    let Explained { text, in_plan } = answer_input(crew, input.as_bytes(), asked)?;
    match write_pieces(writer, text.as_slice()) {
        Ok(()) => Ok(in_plan),
        Err(_) => Err(RunFault::Write),
    }
}
