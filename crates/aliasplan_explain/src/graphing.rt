//! What names and addresses lead to, as a tree and as a graph to be drawn.
ghost use Rattle.std.specs.Prelude.{◌≡◌, IfOk, IfErr, OnOk};
ghost use Rattle.relay_job.specs.Tables.{AreTablesWithin};
ghost use Rattle.relay_job.specs.Envelopes.{with_envelope};
ghost use Rattle.relay_planning.specs.Delivery.{directory_of};
ghost use Rattle.relay_planning.specs.Limits.{IsRefused, IsWithin};
ghost use Rattle.aliasplan_explain.specs.Expansions.{to_asked};
ghost use Rattle.aliasplan_explain.specs.ExpandedGraphs.{IsGraphTextOf};

use crate::basis::graph_with_pairs;
use crate::expanding::envelope_to;
use aliasplan::{Crew, Envelope, Gate, Job, RunFault};
use relay_expansion::{GraphForm, graph_text};
use relay_explain::Asked;
use relay_job::parsed_tables;
use relay_planning::{JobView, Lookup, parsed_is_readable};
use relay_tables::Tables;
use relay_text::Text;
use relay_wire::FindingLines;
use std::thread::Threads;

/// The text of the graph of a job, whose names stand for what these tables say.
#[tactic(auto, using(crate::proofs::GraphTextFacts::graph_told))]
fn text_by_tables<G: Gate, R: Threads + Sync>(
    crew: &Crew<G, R>,
    job: &JobView<'_>,
    tables: &Tables,
    form: GraphForm,
) -> Result<Text, RunFault>
    requires { tables.now ≡ directory_of job.now }
    ensures text { IfOk result (IsGraphTextOf job.now form) }
    ensures within { OnOk result (IsWithin crew.now.limits job.now) }
    ensures refused { IfErr result (IsRefused crew.now.limits job.now) }
{
    let (graph, pairs) = graph_with_pairs(crew, job, tables)?;
    drop(pairs);
    let text = graph_text(crew.alloc, form, tables, &graph);
    drop(graph);
    Ok(text?)
}

/// The text of the graph of a message to an envelope's recipients.
fn text_for<G: Gate, R: Threads + Sync>(
    crew: &Crew<G, R>,
    tables: &Job,
    envelope: &Envelope,
    form: GraphForm,
) -> Result<Text, RunFault>
    requires { AreTablesWithin crew.now.limits.bytes tables.now }
    ensures text { IfOk result (IsGraphTextOf (with_envelope tables.now envelope.now) form) }
    ensures within { OnOk result (IsWithin crew.now.limits (with_envelope tables.now envelope.now)) }
    ensures refused { IfErr result (IsRefused crew.now.limits (with_envelope tables.now envelope.now)) }
{
    parsed_is_readable();
    let mut faults = FindingLines::new(crew.alloc);
    let read = Lookup::read_by(crew, tables, &mut faults);
    drop(faults);
    match read {
        Ok(lookup) => {
            let job = JobView::joined(tables, envelope);
            let text = text_by_tables(crew, &job, &lookup.tables, form);
            drop(lookup);
            text
        }
        Err(_) => Err(RunFault::Memory),
    }
}

/// What names and addresses lead to by files and tables, in the form that is asked for: the graph of a message to them from the null sender.
///
/// The errors are those of `expand`.
pub fn expand_graph<G: Gate, R: Threads + Sync>(
    crew: &Crew<G, R>,
    tables: &Job,
    asked: &[Asked],
    form: GraphForm,
) -> Result<Text, RunFault>
    requires { AreTablesWithin crew.now.limits.bytes tables.now }
    ensures text { IfOk result (IsGraphTextOf (to_asked tables.now asked.now) form) }
    ensures within { OnOk result (IsWithin crew.now.limits (to_asked tables.now asked.now)) }
    ensures refused { IfErr result (IsRefused crew.now.limits (to_asked tables.now asked.now)) }
{
    parsed_tables();
    let origin = tables.settings.origin.as_bytes();
    let envelope = envelope_to(crew.alloc, asked, origin)?;
    let text = text_for(crew, tables, &envelope, form);
    drop(envelope);
    text
}
