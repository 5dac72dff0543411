//! A run from a job's bytes to the lines of the domains that it asks for.
ghost use Rattle.std.specs.Prelude.{◌≡◌, ◌≢◌, ◌≤◌, ◌++◌, ℕ, List, false, true, length, Err, IfOk, IfErr, IfSome, OnOk};
ghost use Rattle.std.specs.Io.KnownBytes.{Keeps};
ghost use Rattle.relay_wire.specs.PlanText.{lines_of};
ghost use Rattle.relay_job.specs.JobAnswers.{IsJobWithin};
ghost use Rattle.aliasplan.specs.Domains.{AreAskedDomains, IsDomainText, WritesDomains, WritesDomainsFront};
ghost use Rattle.relay_planning.specs.Limits.{IsRefused, IsWithin};
ghost use Rattle.aliasplan.specs.Outcomes.{Refuses, RefusesBytes};

use crate::asking::domains;
use crate::device::{Feed, Sink};
use crate::reading::read_job;
use crate::writing::write_text;
use relay_job::{Job, RunFault, parse_job_by};
use relay_planning::Crew;
use relay_rounds::Gate;
use relay_text::Text;
use std::alloc::{AllocError, Global};
use std::thread::Threads;

/// A line for each name.
fn lines_of(alloc: Global, names: &[Text]) -> Result<Vec<u8>, AllocError>
    ensures { IfOk result (λ text. text.items ≡ lines_of names.now) }
{
    let mut text = Vec::new(alloc);
    for name in names {
        text.extend_from_slice(name.as_bytes())?;
        text.push(b'\n')?;
    }
    Ok(text)
}

/// A line for each domain that a job asks for.
fn domain_lines<G: Gate, R: Threads + Sync>(
    crew: &Crew<G, R>,
    job: &Job,
) -> Result<Vec<u8>, RunFault>
    requires job { IsJobWithin crew.now.limits.bytes job.now }
    ensures text { IfOk result (λ text. IsWithin crew.now.limits job.now × ((names : List (List ℕ)) × AreAskedDomains job.now names × (text.items ≡ lines_of names))) }
    ensures refused { IfErr result (IsRefused crew.now.limits job.now) }
{
    let names = domains(crew, job)?;
    match lines_of(crew.alloc, names.as_slice()) {
        Ok(text) => Ok(text),
        Err(_) => Err(RunFault::Memory),
    }
}

/// What is written for a job's bytes.
fn domain_text<G: Gate, R: Threads + Sync>(
    crew: &Crew<G, R>,
    input: &[u8],
) -> Result<Vec<u8>, RunFault>
    requires { length input.now ≤ crew.now.limits.bytes }
    ensures text { IfOk result (λ text. IsDomainText crew.now.limits input.now text.items) }
    ensures refused { IfErr result (RefusesBytes crew.now.limits input.now) }
{
    let job = parse_job_by(crew.rt, crew.alloc, crew.options.workers, input)?;
    let text = domain_lines(crew, &job);
    drop(job);
    text
}

/// Reads a job, and writes the domains whose mail exchangers it asks for, each on a line that ends with LF, and nothing else. All of the
/// text is there before the first write.
///
/// The faults are those of `run`. The form of the options is not regarded.
pub fn run_domains<F: Feed, S: Sink, G: Gate, R: Threads + Sync>(
    crew: &Crew<G, R>,
    reader: &mut F,
    writer: &mut S,
) -> Result<(), RunFault>
    requires reader { (F.has_failed reader.old ≡ false) × (F.has_ended reader.old ≡ false) }
    requires writer { S.has_failed writer.old ≡ false }
    // The bytes written are the lines of the domains that the job that was read asks for.
    ensures domains { OnOk result (IfSome (F.remaining reader.old) (λ input. WritesDomains crew.now.limits input (S.contents writer.old) (S.contents writer.new))) }
    ensures refuses { IfErr result (λ fault. IfSome (F.remaining reader.old) (λ input. Refuses crew.now.limits input fault)) }
    // Read exactly where the reader failed, and Write exactly where the writer did.
    ensures read { (result ≡ Err RunFault.Read → F.has_failed reader.new ≡ true) × (result ≢ Err RunFault.Read → F.has_failed reader.new ≡ false) }
    ensures write { (result ≡ Err RunFault.Write → S.has_failed writer.new ≡ true) × (result ≢ Err RunFault.Write → S.has_failed writer.new ≡ false) }
    // A failed write leaves a front of the text; every other refusal writes nothing.
    ensures front { result ≡ Err RunFault.Write → IfSome (F.remaining reader.old) (λ input. WritesDomainsFront crew.now.limits input (S.contents writer.old) (S.contents writer.new)) }
    ensures nothing { IfErr result (λ fault. fault ≢ RunFault.Write → Keeps (S.contents writer.old) (S.contents writer.new)) }
    // But for Read, TooLong and Memory, the reader has ended.
    ensures ended { (result ≢ Err RunFault.Read) → (result ≢ Err RunFault.TooLong) → (result ≢ Err RunFault.Memory) → F.has_ended reader.new ≡ true }
{
    let input = read_job(crew.alloc, reader, crew.limits.bytes)?;
    let text = domain_text(crew, input.as_bytes())?;
    match write_text(writer, text.as_slice()) {
        Ok(()) => Ok(()),
        Err(_) => Err(RunFault::Write),
    }
}
