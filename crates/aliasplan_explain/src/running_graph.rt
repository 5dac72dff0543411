//! A run from the bytes of files and tables to the tree or the graph of what names and addresses lead to.
ghost use Rattle.std.specs.Prelude.{◌≡◌, ◌≢◌, ◌≤◌, false, true, length, Err, IfOk, IfErr, IfSome, OnOk};
ghost use Rattle.std.specs.Io.KnownBytes.{Keeps};
ghost use Rattle.aliasplan_explain.specs.Expansions.{RefusesAsked, RefusesAskedBytes};
ghost use Rattle.aliasplan_explain.specs.ExpandedGraphs.{IsGraphText, WritesGraph, WritesGraphFront};

use crate::graphing::expand_graph;
use aliasplan::{Crew, Feed, Gate, RunFault, Sink, parse_tables, read_job, write_text};
use relay_expansion::GraphForm;
use relay_explain::Asked;
use relay_text::Text;
use std::thread::Threads;

/// What is written for the bytes of files and tables.
fn graph_input<G: Gate, R: Threads + Sync>(
    crew: &Crew<G, R>,
    input: &[u8],
    asked: &[Asked],
    form: GraphForm,
) -> Result<Text, RunFault>
    requires { length input.now ≤ crew.now.limits.bytes }
    ensures text { IfOk result (IsGraphText crew.now.limits asked.now form input.now) }
    ensures refused { IfErr result (RefusesAskedBytes crew.now.limits asked.now input.now) }
{
    let tables = parse_tables(crew.alloc, input)?;
    let text = expand_graph(crew, &tables, asked, form);
    drop(tables);
    text
}

/// Reads files and tables, and writes the tree or the graph of what names and addresses lead to, as `expand_graph` says, and nothing else;
/// an envelope may stand with them, which isn't looked at. All of the text is there before the first write.
///
/// The faults are those of `run_expand`. The form of the options is not regarded.
pub fn run_expand_graph<F: Feed, S: Sink, G: Gate, R: Threads + Sync>(
    crew: &Crew<G, R>,
    reader: &mut F,
    writer: &mut S,
    asked: &[Asked],
    form: GraphForm,
) -> Result<(), RunFault>
    requires reader { (F.has_failed reader.old ≡ false) × (F.has_ended reader.old ≡ false) }
    requires writer { S.has_failed writer.old ≡ false }
    // The bytes written are those of such a text.
    ensures draws { OnOk result (IfSome (F.remaining reader.old) (λ input. WritesGraph crew.now.limits asked.now form input (S.contents writer.old) (S.contents writer.new))) }
    ensures refuses { IfErr result (λ fault. IfSome (F.remaining reader.old) (λ input. RefusesAsked crew.now.limits asked.now input fault)) }
    // Read exactly where the reader failed, and Write exactly where the writer did.
    ensures read { (result ≡ Err RunFault.Read → F.has_failed reader.new ≡ true) × (result ≢ Err RunFault.Read → F.has_failed reader.new ≡ false) }
    ensures write { (result ≡ Err RunFault.Write → S.has_failed writer.new ≡ true) × (result ≢ Err RunFault.Write → S.has_failed writer.new ≡ false) }
    // A failed write leaves a front of the text; every other refusal writes nothing.
    ensures front { result ≡ Err RunFault.Write → IfSome (F.remaining reader.old) (λ input. WritesGraphFront crew.now.limits asked.now form input (S.contents writer.old) (S.contents writer.new)) }
    ensures nothing { IfErr result (λ fault. fault ≢ RunFault.Write → Keeps (S.contents writer.old) (S.contents writer.new)) }
    // But for Read, TooLong and Memory, the reader has ended.
    ensures ended { (result ≢ Err RunFault.Read) → (result ≢ Err RunFault.TooLong) → (result ≢ Err RunFault.Memory) → F.has_ended reader.new ≡ true }
{
    let input = read_job(crew.alloc, reader, crew.limits.bytes)?;
    let text = graph_input(crew, input.as_bytes(), asked, form)?;
    match write_text(writer, text.as_bytes()) {
        Ok(()) => Ok(()),
        Err(_) => Err(RunFault::Write),
    }
}
