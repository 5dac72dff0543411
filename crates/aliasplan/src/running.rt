//! A run from a job's bytes to its plan's.
ghost use Rattle.std.specs.Prelude.{◌≡◌, ◌≢◌, false, true, Err, IfOk, IfErr, IfSome};
ghost use Rattle.std.specs.Io.KnownBytes.{Keeps};
ghost use Rattle.relay_planning.specs.Limits.{AreOptions, AreLimits};
ghost use Rattle.aliasplan.specs.Outcomes.{Plans, Refuses, WritesFront};

use crate::answering::answer_input;
use crate::device::{Feed, Sink};
use crate::reading::read_job;
use crate::writing::write_texts;
use relay_job::RunFault;
use relay_planning::{Limits, Options, Summary, WrittenPlan};
use relay_rounds::Gate;
use std::alloc::Global;
use std::thread::Threads;

/// Reads a job, plans it, and writes the plan's text and nothing else.
///
/// `gate` is entered by each thread before a piece of work: `NoGate` unless a test wants to see the threads.
pub fn run<F: Feed, S: Sink, G: Gate, R: Threads + Sync>(
    rt: &R,
    alloc: Global,
    reader: &mut F,
    writer: &mut S,
    options: Options,
    limits: Limits,
    gate: &G,
) -> Result<Summary, RunFault>
    requires options { AreOptions options }
    requires limits { AreLimits limits }
    requires reader { (F.has_failed reader.old ≡ false) × (F.has_ended reader.old ≡ false) }
    requires writer { S.has_failed writer.old ≡ false }
    // The bytes written are the text of the plan of the job that the bytes read are.
    ensures plans { IfOk result (λ summary. IfSome (F.remaining reader.old) (λ input. Plans limits options.form input (S.contents writer.old) (S.contents writer.new) summary)) }
    ensures refuses { IfErr result (λ fault. IfSome (F.remaining reader.old) (λ input. Refuses limits input fault)) }
    // Read exactly where the reader failed, and Write exactly where the writer did.
    ensures read { (result ≡ Err RunFault.Read → F.has_failed reader.new ≡ true) × (result ≢ Err RunFault.Read → F.has_failed reader.new ≡ false) }
    ensures write { (result ≡ Err RunFault.Write → S.has_failed writer.new ≡ true) × (result ≢ Err RunFault.Write → S.has_failed writer.new ≡ false) }
    // A failed write leaves a front of the text; every other refusal writes nothing.
    ensures front { result ≡ Err RunFault.Write → IfSome (F.remaining reader.old) (λ input. WritesFront limits options.form input (S.contents writer.old) (S.contents writer.new)) }
    ensures nothing { IfErr result (λ fault. fault ≢ RunFault.Write → Keeps (S.contents writer.old) (S.contents writer.new)) }
    // But for Read, TooLong and Memory, the reader has ended.
    ensures ended { (result ≢ Err RunFault.Read) → (result ≢ Err RunFault.TooLong) → (result ≢ Err RunFault.Memory) → F.has_ended reader.new ≡ true }
{
    let input = read_job(alloc, reader, limits.bytes)?;
    let WrittenPlan { texts, summary } = answer_input(rt, alloc, input, options, limits, gate)?;
    match write_texts(writer, &texts) {
        Ok(()) => Ok(summary),
        Err(_) => Err(RunFault::Write),
    }
}
