//! A run over envelopes that come from a reader one after another, beside tables that are there already.
ghost use Rattle.std.specs.Prelude.{◌≡◌, ◌≢◌, false, true, Err, IfOk, IfErr, OnOk, IfSome};
ghost use Rattle.std.specs.Io.KnownBytes.{Appends};
ghost use Rattle.relay_job.specs.Tables.{AreTablesWithin};
ghost use Rattle.aliasplan.specs.Outcomes.{AreTableCountsWithin};
ghost use Rattle.aliasplan.specs.Transfers.{Fronts};
ghost use Rattle.aliasplan_each.specs.Asks.{asks_in, has_tables};
ghost use Rattle.aliasplan_each.specs.Beside.{PlansBeside, RefusesBeside, WritesBesideFront};
ghost use Rattle.aliasplan_each.specs.BesideSteps.{IsWriteFault, WritesFindings, FrontsFindings, WritesBlock, FrontsBlock};
ghost use Rattle.aliasplan_each.specs.Forms.{done_text_in};
ghost use Rattle.aliasplan_each.specs.Replies.{PlansChanging, WritesChangingFront};
ghost use Rattle.aliasplan_each.specs.ReplySteps.{RepliesToAll, FrontsReplies};

use crate::answers::Answers;
use crate::changing::change_tables;
use crate::feeding::Feeding;
use crate::forms::{put_done, put_tables};
use crate::read_section::ReadSection;
use crate::summary::EachSummary;
use crate::tables_source::TablesSource;
use crate::wording::Wording;
use aliasplan::{Crew, Feed, Form, Gate, Job, Planner, RunFault, Sink, write_text};
use relay_envelopes::EnvelopeCounts;
use std::alloc::Global;
use std::thread::Threads;

/// Writes a text whole.
pub(crate) fn write_whole<S: Sink>(writer: &mut S, text: &[u8]) -> Result<(), RunFault>
    requires { S.has_failed writer.old ≡ false }
    ensures written { OnOk result (Appends (S.contents writer.old) (S.contents writer.new) text.now) }
    ensures front { IfErr result (λ fault. Fronts (S.contents writer.old) (S.contents writer.new) text.now) }
    ensures only { IfErr result (λ fault. fault ≡ RunFault.Write) }
    ensures write { (result ≡ Err RunFault.Write → S.has_failed writer.new ≡ true) × (result ≢ Err RunFault.Write → S.has_failed writer.new ≡ false) }
{
    write_text(writer, text).map_err(|_| RunFault::Write)
}

// Writes the lines of files and tables, and tells how many there are.
fn write_findings<S: Sink>(
    alloc: Global,
    form: Form,
    planner: &Planner,
    writer: &mut S,
) -> Result<usize, RunFault>
    requires { S.has_failed writer.old ≡ false }
    ensures written { IfOk result (WritesFindings form planner.now (S.contents writer.old) (S.contents writer.new)) }
    ensures front { IfErr result (λ fault. FrontsFindings form planner.now (S.contents writer.old) (S.contents writer.new)) }
    ensures only { IfErr result IsWriteFault }
    ensures write { (result ≡ Err RunFault.Write → S.has_failed writer.new ≡ true) × (result ≢ Err RunFault.Write → S.has_failed writer.new ≡ false) }
{
    let findings = planner.findings();
    let mut text = Vec::new(alloc);
    put_tables(form, findings, &mut text)?;
    write_whole(writer, &text)?;
    Ok(findings.len())
}

// Writes the block of an envelope, and counts it. The answer's text is that of this block alone.
fn answer_section<S: Sink, G: Gate, R: Threads + Sync>(
    crew: &Crew<G, R>,
    wording: Wording,
    planner: &Planner,
    section: &ReadSection,
    answers: &mut Answers,
    writer: &mut S,
) -> Result<(), RunFault>
    requires { S.has_failed writer.old ≡ false }
    ensures written { OnOk result (WritesBlock crew.now.limits wording planner.now section.now (S.contents writer.old) (S.contents writer.new) answers.old.counts answers.new.counts) }
    ensures front { IfErr result (λ fault. FrontsBlock crew.now.limits wording planner.now section.now (S.contents writer.old) (S.contents writer.new)) }
    ensures only { IfErr result IsWriteFault }
    ensures write { (result ≡ Err RunFault.Write → S.has_failed writer.new ≡ true) × (result ≢ Err RunFault.Write → S.has_failed writer.new ≡ false) }
{
    answers.text.clear();
    answers.add(crew, wording, planner, section.as_section())?;
    write_whole(writer, &answers.text)
}

// Writes the block of each envelope as soon as its section has ended, and the answer to each `%tables`, by which the planner may be another
// one, and counts the envelopes.
fn answer_asks<F: Feed, S: Sink, T: TablesSource, G: Gate, R: Threads + Sync>(
    crew: &Crew<G, R>,
    wording: Wording,
    planner: &mut Planner,
    source: &mut T,
    reader: &mut F,
    writer: &mut S,
) -> Result<EnvelopeCounts, RunFault>
    requires reader { (F.has_failed reader.old ≡ false) × (F.has_ended reader.old ≡ false) }
    requires writer { S.has_failed writer.old ≡ false }
    ensures written { IfOk result (λ counts. IfSome (F.remaining reader.old) (λ input. RepliesToAll crew.now.limits wording planner.old (T.coming source.old) input (S.contents writer.old) (S.contents writer.new) counts)) }
    ensures refused { IfErr result (λ fault. IfSome (F.remaining reader.old) (λ input. RefusesBeside crew.now.limits planner.old input fault)) }
    ensures front { IfErr result (λ fault. IfSome (F.remaining reader.old) (λ input. FrontsReplies crew.now.limits wording planner.old (T.coming source.old) (asks_in crew.now.limits.bytes input) (S.contents writer.old) (S.contents writer.new))) }
    ensures read { (result ≡ Err RunFault.Read → F.has_failed reader.new ≡ true) × (result ≢ Err RunFault.Read → F.has_failed reader.new ≡ false) }
    ensures write { (result ≡ Err RunFault.Write → S.has_failed writer.new ≡ true) × (result ≢ Err RunFault.Write → S.has_failed writer.new ≡ false) }
    ensures ended { OnOk result (F.has_ended reader.new ≡ true) }
{
    let mut feeding = Feeding::start(crew.alloc)?;
    let mut answers = Answers::none(crew.alloc);
    loop {
        if let Some(section) = feeding.next(crew.alloc, reader, crew.limits.bytes)? {
            answer_section(crew, wording, &*planner, &section, &mut answers, writer)?;
            continue;
        }
        if !feeding.passes_tables() {
            return Ok(answers.counts);
        }
        change_tables(crew, wording.form, planner, source, writer)?;
    }
}

// Writes the last line of an answer.
fn write_done<S: Sink>(
    alloc: Global,
    form: Form,
    counts: &EnvelopeCounts,
    writer: &mut S,
) -> Result<(), RunFault>
    requires { S.has_failed writer.old ≡ false }
    ensures written { OnOk result (Appends (S.contents writer.old) (S.contents writer.new) (done_text_in form counts.now)) }
    ensures front { IfErr result (λ fault. Fronts (S.contents writer.old) (S.contents writer.new) (done_text_in form counts.now)) }
    ensures only { IfErr result IsWriteFault }
    ensures write { (result ≡ Err RunFault.Write → S.has_failed writer.new ≡ true) × (result ≢ Err RunFault.Write → S.has_failed writer.new ≡ false) }
{
    let mut text = Vec::new(alloc);
    put_done(form, counts, &mut text)?;
    write_whole(writer, &text)
}

// Writes the answer by tables that are read.
fn answer_stream<F: Feed, S: Sink, T: TablesSource, G: Gate, R: Threads + Sync>(
    crew: &Crew<G, R>,
    wording: Wording,
    planner: &mut Planner,
    source: &mut T,
    reader: &mut F,
    writer: &mut S,
) -> Result<EachSummary, RunFault>
    requires few { AreTableCountsWithin crew.now.limits planner.old }
    requires reader { (F.has_failed reader.old ≡ false) × (F.has_ended reader.old ≡ false) }
    requires writer { S.has_failed writer.old ≡ false }
    ensures plans { IfOk result (λ summary. IfSome (F.remaining reader.old) (λ input. PlansChanging crew.now.limits wording planner.old (T.coming source.old) input (S.contents writer.old) (S.contents writer.new) summary)) }
    ensures refuses { IfErr result (λ fault. IfSome (F.remaining reader.old) (λ input. RefusesBeside crew.now.limits planner.old input fault)) }
    ensures read { (result ≡ Err RunFault.Read → F.has_failed reader.new ≡ true) × (result ≢ Err RunFault.Read → F.has_failed reader.new ≡ false) }
    ensures write { (result ≡ Err RunFault.Write → S.has_failed writer.new ≡ true) × (result ≢ Err RunFault.Write → S.has_failed writer.new ≡ false) }
    ensures front { IfErr result (λ fault. IfSome (F.remaining reader.old) (λ input. WritesChangingFront crew.now.limits wording planner.old (T.coming source.old) input (S.contents writer.old) (S.contents writer.new))) }
    ensures ended { OnOk result (F.has_ended reader.new ≡ true) }
{
    let findings = write_findings(crew.alloc, wording.form, &*planner, writer)?;
    let counts = answer_asks(crew, wording, planner, source, reader, writer)?;
    write_done(crew.alloc, wording.form, &counts, writer)?;
    Ok(EachSummary { findings, counts })
}

/// Plans each envelope that comes from a reader by tables that are read before, and writes its block in this wording as soon as its section has
/// ended, with `%end`, the heading of the next envelope or the end of the input. The lines of files and tables stand first: they are written
/// before anything is read. An ID may come again. The form of the crew's options is not regarded.
///
/// Memory doesn't grow with the number of envelopes. The time is near-linear in the bytes, whatever the sizes of the reads.
///
/// No text of envelopes ends the run. A heading without an ID, and a line that isn't of white space alone where no section goes on, begin one of
/// the ID `?`; any other heading is a line of the section that goes on. An envelope that is refused for that, because its section has more than
/// `limits.bytes` bytes, or because it has too many names, owners or pairs, has a line that says so in place of a plan, and changes no other's
/// answer. TooManyNames and TooManyOwners come where the tables alone have more than the limits, and TooLong where there are more bytes than
/// 64 bits can count; BadJob, BadSetting, BadEnvelope and TooManyPairs never come.
///
/// At a line `%tables`, which ends the section before it, the tables are read anew from the source, by all workers. Where they are good the
/// answer has the SHA-256 of their text, and sections behind it are planned by them; where they aren't it says why, and the old ones stay.
/// For a while there is memory of both.
pub fn run_beside<F: Feed, S: Sink, T: TablesSource, G: Gate, R: Threads + Sync>(
    crew: &Crew<G, R>,
    wording: Wording,
    tables: Job,
    source: &mut T,
    reader: &mut F,
    writer: &mut S,
) -> Result<EachSummary, RunFault>
    requires tables { AreTablesWithin crew.now.limits.bytes tables }
    requires reader { (F.has_failed reader.old ≡ false) × (F.has_ended reader.old ≡ false) }
    requires writer { S.has_failed writer.old ≡ false }
    // The bytes written are the answer to the envelopes that the bytes read are, and to each `%tables` between them.
    ensures changes { IfOk result (λ summary. IfSome (F.remaining reader.old) (λ input. PlansChanging crew.now.limits wording tables (T.coming source.old) input (S.contents writer.old) (S.contents writer.new) summary)) }
    ensures changes_front { IfErr result (λ fault. IfSome (F.remaining reader.old) (λ input. WritesChangingFront crew.now.limits wording tables (T.coming source.old) input (S.contents writer.old) (S.contents writer.new))) }
    // Where there is no `%tables`, they are the answer to the envelopes.
    ensures plans { IfOk result (λ summary. IfSome (F.remaining reader.old) (λ input. has_tables crew.now.limits.bytes input ≡ false → PlansBeside crew.now.limits wording tables input (S.contents writer.old) (S.contents writer.new) summary)) }
    ensures refuses { IfErr result (λ fault. IfSome (F.remaining reader.old) (λ input. RefusesBeside crew.now.limits tables input fault)) }
    // Read exactly where the reader failed, and Write exactly where the writer did.
    ensures read { (result ≡ Err RunFault.Read → F.has_failed reader.new ≡ true) × (result ≢ Err RunFault.Read → F.has_failed reader.new ≡ false) }
    ensures write { (result ≡ Err RunFault.Write → S.has_failed writer.new ≡ true) × (result ≢ Err RunFault.Write → S.has_failed writer.new ≡ false) }
    // A refusal leaves the blocks of the envelopes before it, and a failed write a front of what it had to write.
    ensures front { IfErr result (λ fault. IfSome (F.remaining reader.old) (λ input. has_tables crew.now.limits.bytes input ≡ false → WritesBesideFront crew.now.limits wording tables input (S.contents writer.old) (S.contents writer.new))) }
    ensures ended { OnOk result (F.has_ended reader.new ≡ true) }
{
    let mut planner = Planner::by_crew(crew, tables)?;
    let summary = answer_stream(crew, wording, &mut planner, source, reader, writer);
    drop(planner);
    summary
}
