//! A run from the bytes of tables and many envelopes to the plans of these.
ghost use Rattle.std.specs.Prelude.{◌≡◌, ◌≢◌, ◌≤◌, false, true, [], ◌∷◌, length, map, option_map, Some, Err, IfOk, OnOk, IfErr, IfSome};
ghost use Rattle.std.specs.Io.KnownBytes.{Keeps};
ghost use Rattle.relay_text.specs.Bytes.{first_of};
ghost use Rattle.relay_job.specs.JobAnswers.{Fails};
ghost use Rattle.relay_job.specs.JobParts.{Stops};
ghost use Rattle.relay_job.specs.JobText.{bad_job};
ghost use Rattle.relay_envelopes.specs.Envelopes.{section_in};
ghost use Rattle.relay_envelopes.specs.Sections.{each_tables_of};
ghost use Rattle.aliasplan_each.specs.Runs.{PlansEach, IsEachText, RefusesEach, RefusesEachBytes, WritesEachFront, AreEachParts, BeginsEach, IsEachAnswer, earlier_of};
ghost use Rattle.aliasplan_each.specs.Blocks.{GrowsByAll};

use crate::answers::Answers;
use crate::forms::{put_done, put_tables};
use crate::summary::EachSummary;
use crate::wording::Wording;
use aliasplan::{
    Crew, Feed, Form, Gate, Job, Planner, RunFault, Sink, parse_tables, read_job, write_text,
};
use relay_envelopes::{EnvelopeSection, envelopes_place, find_envelopes};
use std::alloc::{AllocError, Global};
use std::thread::Threads;

// What a text has: the tables, and the section of each envelope.
#[derive(Drop)]
struct EachParts<'a> {
    tables: Job,
    sections: Vec<EnvelopeSection<'a>>,
}

// What is written, and its numbers.
#[derive(Drop)]
struct Answered {
    text: Vec<u8>,
    summary: EachSummary,
}

// The earlier of a fault of the front and one of the envelopes: the settings are judged last.
fn earlier_of(front: RunFault, envelopes: RunFault) -> RunFault
    ensures { result ≡ earlier_of front envelopes }
{
    match front {
        RunFault::BadSetting(_) => envelopes,
        _ => front,
    }
}

// The first fault of a text whose front this is and whose envelopes have this fault.
fn first_fault(alloc: Global, front: &[u8], fault: RunFault) -> RunFault
    ensures { Stops (first_of (option_map RunFault.BadJob (bad_job front.now) ∷ Some fault ∷ [])) result }
{
    match parse_tables(alloc, front) {
        Ok(tables) => {
            drop(tables);
            fault
        }
        Err(first) => earlier_of(first, fault),
    }
}

// The parts of a text, or its first fault.
fn parts_of(alloc: Global, input: &[u8]) -> Result<EachParts<'_>, RunFault>
    ensures parts { IfOk result (λ parts. AreEachParts input.now parts.tables (map section_in parts.sections.items)) }
    ensures refused { IfErr result (λ fault. Fails fault (each_tables_of input.now)) }
{
    let place = envelopes_place(input);
    let front = &input[..input.len() - place.rest.len()];
    match find_envelopes(alloc, place) {
        Ok(sections) => match parse_tables(alloc, front) {
            Ok(tables) => Ok(EachParts { tables, sections }),
            Err(fault) => {
                drop(sections);
                Err(fault)
            }
        },
        Err(fault) => Err(first_fault(alloc, front, fault)),
    }
}

// Puts the lines of files and tables at the end of a text, and tells how many there are. `Err` where memory runs out.
fn put_findings(form: Form, planner: &Planner, out: &mut Vec<u8>) -> Result<usize, AllocError>
    ensures { IfOk result (BeginsEach form planner.now out.old.items out.new.items) }
{
    let findings = planner.findings();
    put_tables(form, findings, out)?;
    Ok(findings.len())
}

// Adds the blocks of envelopes, in order. `Err` where memory runs out.
fn add_sections<G: Gate, R: Threads + Sync>(
    crew: &Crew<G, R>,
    wording: Wording,
    planner: &Planner,
    sections: &[EnvelopeSection<'_>],
    answers: &mut Answers,
) -> Result<(), AllocError>
    ensures { OnOk result (GrowsByAll crew.now.limits wording planner.now (map section_in sections.now) answers.old.text.items answers.new.text.items answers.old.counts answers.new.counts) }
{
    for section in sections {
        answers.add(crew, wording, planner, *section)?;
    }
    Ok(())
}

// The answer by tables to the sections of envelopes. `Err` where memory runs out.
fn answer_sections<G: Gate, R: Threads + Sync>(
    crew: &Crew<G, R>,
    wording: Wording,
    planner: &Planner,
    sections: &[EnvelopeSection<'_>],
) -> Result<Answered, RunFault>
    ensures answer { IfOk result (λ it. IsEachAnswer crew.now.limits wording planner.now (map section_in sections.now) it.text.items it.summary) }
    ensures memory { IfErr result (λ fault. fault ≡ RunFault.Memory) }
{
    let mut answers = Answers::none(crew.alloc);
    let findings = put_findings(wording.form, planner, &mut answers.text)?;
    add_sections(crew, wording, planner, sections, &mut answers)?;
    let Answers { mut text, counts } = answers;
    put_done(wording.form, &counts, &mut text)?;
    let summary = EachSummary { findings, counts };
    Ok(Answered { text, summary })
}

// What is written for the bytes of tables and envelopes.
fn answer_input<G: Gate, R: Threads + Sync>(
    crew: &Crew<G, R>,
    wording: Wording,
    input: &[u8],
) -> Result<Answered, RunFault>
    requires { length input.now ≤ crew.now.limits.bytes }
    ensures answered { IfOk result (λ it. IsEachText crew.now.limits wording input.now it.text.items it.summary) }
    ensures refused { IfErr result (RefusesEachBytes crew.now.limits input.now) }
{
    let EachParts { tables, sections } = parts_of(crew.alloc, input)?;
    match Planner::new(crew.alloc, crew.options.key, tables, crew.limits) {
        Ok(planner) => {
            let answered = answer_sections(crew, wording, &planner, &sections);
            drop(planner);
            drop(sections);
            answered
        }
        Err(fault) => {
            drop(sections);
            Err(fault)
        }
    }
}

/// Reads settings, files, tables and envelopes, plans each envelope by the same tables, and writes a block for each in this wording, and
/// nothing else. All of the text is there before the first write. The form of the crew's options is not regarded.
///
/// The faults are those of `run` of aliasplan, but for those of envelopes: `BadEnvelope` and `TooManyPairs` never come, and `TooManyNames` and `TooManyOwners`
/// only where the tables alone have more than the limits. A bad envelope, and one with too many names or pairs, has a line that says so in
/// place of a plan, and changes no other's answer.
pub fn run_each<F: Feed, S: Sink, G: Gate, R: Threads + Sync>(
    crew: &Crew<G, R>,
    wording: Wording,
    reader: &mut F,
    writer: &mut S,
) -> Result<EachSummary, RunFault>
    requires reader { (F.has_failed reader.old ≡ false) × (F.has_ended reader.old ≡ false) }
    requires writer { S.has_failed writer.old ≡ false }
    // The bytes written are the answer to the text that the bytes read are.
    ensures plans { IfOk result (λ summary. IfSome (F.remaining reader.old) (λ input. PlansEach crew.now.limits wording input (S.contents writer.old) (S.contents writer.new) summary)) }
    ensures refuses { IfErr result (λ fault. IfSome (F.remaining reader.old) (λ input. RefusesEach crew.now.limits input fault)) }
    // Read exactly where the reader failed, and Write exactly where the writer did.
    ensures read { (result ≡ Err RunFault.Read → F.has_failed reader.new ≡ true) × (result ≢ Err RunFault.Read → F.has_failed reader.new ≡ false) }
    ensures write { (result ≡ Err RunFault.Write → S.has_failed writer.new ≡ true) × (result ≢ Err RunFault.Write → S.has_failed writer.new ≡ false) }
    // A failed write leaves a front of the text; every other refusal writes nothing.
    ensures front { result ≡ Err RunFault.Write → IfSome (F.remaining reader.old) (λ input. WritesEachFront crew.now.limits wording input (S.contents writer.old) (S.contents writer.new)) }
    ensures nothing { IfErr result (λ fault. fault ≢ RunFault.Write → Keeps (S.contents writer.old) (S.contents writer.new)) }
    // But for Read, TooLong and Memory, the reader has ended.
    ensures ended { (result ≢ Err RunFault.Read) → (result ≢ Err RunFault.TooLong) → (result ≢ Err RunFault.Memory) → F.has_ended reader.new ≡ true }
{
    let input = read_job(crew.alloc, reader, crew.limits.bytes)?;
    let answered = answer_input(crew, wording, input.as_bytes());
    drop(input);
    let Answered { text, summary } = answered?;
    let written = write_text(writer, &text);
    drop(text);
    match written {
        Ok(()) => Ok(summary),
        Err(_) => Err(RunFault::Write),
    }
}
