//! A check of files and tables, from the bytes that are read to those that are written.
ghost use Rattle.std.specs.Prelude.{◌≡◌, ◌≢◌, ◌≤◌, false, true, length, Err, IfOk, IfErr, IfSome};
ghost use Rattle.std.specs.Io.KnownBytes.{Keeps};
ghost use Rattle.relay_job.specs.Tables.{AreTablesWithin};
ghost use Rattle.aliasplan_command.specs.Checks.{IsChecked, IsCheckRefused, IsCheckText, WritesCheck, RefusesCheck, RefusesCheckBytes};

use aliasplan::{
    Crew, Feed, Gate, Job, RunFault, Sink, check_aliases, check_texts, notes, parse_tables,
    read_job, write_text,
};
use aliasplan_words::Scope;
use relay_text::{Seq, Text};
use relay_wire::check_text;
use std::thread::Threads;

/// A check's text, and how many findings it has.
#[derive(Drop)]
struct Checked {
    text: Text,
    findings: usize,
}

/// The lines of findings.
fn lines_of<G: Gate, R: Threads + Sync>(
    crew: &Crew<G, R>,
    tables: Job,
    scope: Scope,
) -> Result<Seq<Text>, RunFault>
    requires { AreTablesWithin crew.now.limits.bytes tables }
    ensures lines { IfOk result (IsChecked crew.now.limits scope tables) }
    ensures refused { IfErr result (IsCheckRefused crew.now.limits scope tables) }
{
    match scope {
        Scope::Texts => match check_texts(crew.alloc, crew.options.key, &tables, crew.limits) {
            Ok(lines) => Ok(lines),
            Err(_) => Err(RunFault::Memory),
        },
        Scope::Aliases => check_aliases(crew, tables),
    }
}

/// What is written for the bytes of files and tables.
fn check_input<G: Gate, R: Threads + Sync>(
    crew: &Crew<G, R>,
    input: &[u8],
    scope: Scope,
) -> Result<Checked, RunFault>
    requires { length input.now ≤ crew.now.limits.bytes }
    ensures checked { IfOk result (λ checked. IsCheckText crew.now.limits scope input.now checked.text checked.findings) }
    ensures refused { IfErr result (RefusesCheckBytes crew.now.limits scope input.now) }
{
    let alloc = crew.alloc;
    let tables = parse_tables(alloc, input)?;
    let notes = notes(alloc, &tables.settings)?;
    let lines = lines_of(crew, tables, scope)?;
    let text = check_text(alloc, lines.as_slice(), notes.as_slice())?;
    Ok(Checked {
        text,
        findings: lines.len(),
    })
}

/// Reads files and tables, checks them, and writes the text of the check and nothing else; an envelope may stand with them, which isn't
/// looked at. All of the text is there before the first write. Answers how many findings it has.
///
/// The faults are those of `run`, without BadEnvelope; those of too many names, owners and pairs come of the scope of aliases alone. The
/// form of the options is not regarded.
pub fn run_check<F: Feed, S: Sink, G: Gate, R: Threads + Sync>(
    crew: &Crew<G, R>,
    reader: &mut F,
    writer: &mut S,
    scope: Scope,
) -> Result<usize, RunFault>
    requires reader { (F.has_failed reader.old ≡ false) × (F.has_ended reader.old ≡ false) }
    requires writer { S.has_failed writer.old ≡ false }
    ensures checks { IfOk result (λ findings. IfSome (F.remaining reader.old) (λ input. WritesCheck crew.now.limits scope input (S.contents writer.old) (S.contents writer.new) findings)) }
    ensures refuses { IfErr result (λ fault. IfSome (F.remaining reader.old) (λ input. RefusesCheck crew.now.limits scope input fault)) }
    // Read exactly where the reader failed, and Write exactly where the writer did.
    ensures read { (result ≡ Err RunFault.Read → F.has_failed reader.new ≡ true) × (result ≢ Err RunFault.Read → F.has_failed reader.new ≡ false) }
    ensures write { (result ≡ Err RunFault.Write → S.has_failed writer.new ≡ true) × (result ≢ Err RunFault.Write → S.has_failed writer.new ≡ false) }
    // Every refusal but Write writes nothing.
    ensures nothing { IfErr result (λ fault. fault ≢ RunFault.Write → Keeps (S.contents writer.old) (S.contents writer.new)) }
{
    let input = read_job(crew.alloc, reader, crew.limits.bytes)?;
    let Checked { text, findings } = check_input(crew, input.as_bytes(), scope)?;
    match write_text(writer, text.as_bytes()) {
        Ok(()) => Ok(findings),
        Err(_) => Err(RunFault::Write),
    }
}
