//! A run from the bytes of files and tables to what names and addresses expand to.
ghost use Rattle.std.specs.Prelude.{◌≡◌, ◌≢◌, ◌≤◌, false, true, length, Err, IfOk, IfErr, IfSome};
ghost use Rattle.std.specs.Io.KnownBytes.{Keeps};
ghost use Rattle.relay_wire.specs.PlanText.{lines_of};
ghost use Rattle.aliasplan_explain.specs.Expansions.{IsExpansionText, RefusesAsked, RefusesAskedBytes, WritesExpansion, WritesExpansionFront};

use crate::expanding::expand;
use aliasplan::{Crew, Feed, Gate, RunFault, Sink, parse_tables, read_job, write_text};
use relay_explain::Asked;
use relay_text::Text;
use relay_wire::put_lines;
use std::alloc::{AllocError, Global};
use std::thread::Threads;

/// The text of an expansion, and how many lines it has.
#[derive(Drop)]
struct Expansion {
    text: Text,
    lines: usize,
}

fn text_of(alloc: Global, lines: &[Text]) -> Result<Expansion, AllocError>
    ensures text { IfOk result (λ expansion. expansion.text ≡ lines_of lines.now) }
    ensures counted { IfOk result (λ expansion. expansion.lines ≡ length lines.now) }
{
    let mut text = Vec::new(alloc);
    put_lines(lines, &mut text)?;
    Ok(Expansion {
        text: Text::of(text),
        lines: lines.len(),
    })
}

/// What is written for the bytes of files and tables.
fn expand_input<G: Gate, R: Threads + Sync>(
    crew: &Crew<G, R>,
    input: &[u8],
    asked: &[Asked],
    with_senders: bool,
) -> Result<Expansion, RunFault>
    requires { length input.now ≤ crew.now.limits.bytes }
    ensures expanded { IfOk result (λ expansion. IsExpansionText crew.now.limits asked.now with_senders input.now expansion.text expansion.lines) }
    ensures refused { IfErr result (RefusesAskedBytes crew.now.limits asked.now input.now) }
{
    let tables = parse_tables(crew.alloc, input)?;
    let lines = expand(crew, &tables, asked, with_senders);
    drop(tables);
    let lines = lines?;
    Ok(text_of(crew.alloc, lines.as_slice())?)
}

/// Reads files and tables, and writes what names and addresses expand to, as `expand` says, each line with an LF behind it, and nothing
/// else; an envelope may stand with them, which isn't looked at. All of the text is there before the first write. Answers how many lines it
/// has.
///
/// The faults are those of `run` of aliasplan, without BadEnvelope. The form of the options is not regarded.
pub fn run_expand<F: Feed, S: Sink, G: Gate, R: Threads + Sync>(
    crew: &Crew<G, R>,
    reader: &mut F,
    writer: &mut S,
    asked: &[Asked],
    with_senders: bool,
) -> Result<usize, RunFault>
    requires reader { (F.has_failed reader.old ≡ false) × (F.has_ended reader.old ≡ false) }
    requires writer { S.has_failed writer.old ≡ false }
    // The bytes written are the lines of the addresses that the plan has.
    ensures expands { IfOk result (λ count. IfSome (F.remaining reader.old) (λ input. WritesExpansion crew.now.limits asked.now with_senders input (S.contents writer.old) (S.contents writer.new) count)) }
    ensures refuses { IfErr result (λ fault. IfSome (F.remaining reader.old) (λ input. RefusesAsked crew.now.limits asked.now input fault)) }
    // Read exactly where the reader failed, and Write exactly where the writer did.
    ensures read { (result ≡ Err RunFault.Read → F.has_failed reader.new ≡ true) × (result ≢ Err RunFault.Read → F.has_failed reader.new ≡ false) }
    ensures write { (result ≡ Err RunFault.Write → S.has_failed writer.new ≡ true) × (result ≢ Err RunFault.Write → S.has_failed writer.new ≡ false) }
    // A failed write leaves a front of the text; every other refusal writes nothing.
    ensures front { result ≡ Err RunFault.Write → IfSome (F.remaining reader.old) (λ input. WritesExpansionFront crew.now.limits asked.now with_senders input (S.contents writer.old) (S.contents writer.new)) }
    ensures nothing { IfErr result (λ fault. fault ≢ RunFault.Write → Keeps (S.contents writer.old) (S.contents writer.new)) }
    // But for Read, TooLong and Memory, the reader has ended.
    ensures ended { (result ≢ Err RunFault.Read) → (result ≢ Err RunFault.TooLong) → (result ≢ Err RunFault.Memory) → F.has_ended reader.new ≡ true }
{
    let input = read_job(crew.alloc, reader, crew.limits.bytes)?;
    let Expansion { text, lines } = expand_input(crew, input.as_bytes(), asked, with_senders)?;
    match write_text(writer, text.as_bytes()) {
        Ok(()) => Ok(lines),
        Err(_) => Err(RunFault::Write),
    }
}
