//! What can't be delivered at the nodes that are reached: lines by the numbers of nodes, each node looked at once.
ghost use Rattle.std.specs.Prelude.{◌≡◌, ◌<◌, [], All, length, slice_get, Some, IfOk, OnOk};
ghost use Rattle.relay_tables.specs.declared.node.Node as parts;
ghost use Rattle.relay_tables.specs.Graphs.{child_numbers};
ghost use Rattle.relay_destinations.specs.Ways.{Keeps};
ghost use Rattle.relay_planning.specs.Delivery.{directory_of, routing_of, IsJobPart};
ghost use Rattle.aliasplan.specs.ReturnLines.{AreFindings, AreUndelivered, AreLinesOf};

use relay_destinations::Destinations;
use relay_planning::{JobView, Lookup, recipient_of, report_node};
use relay_tables::{Graph, Tables};
use relay_text::{Seq, Text};
use relay_wire::FindingLines;
use std::alloc::{AllocError, Global};

/// The lines of what can't be delivered at a node: its targets, that it has none, or that it has no route.
fn lines_of_node<'a>(
    alloc: Global,
    job: &JobView<'_>,
    tables: &Tables,
    graph: &'a Graph,
    node: u32,
    destinations: &mut Destinations<'a>,
) -> Result<Seq<Text>, AllocError>
    requires tables { tables.now ≡ directory_of job.now }
    requires graph { IsJobPart job.now graph.now }
    requires node { node < length graph.now.nodes }
    requires routing { destinations.old.routing ≡ routing_of job.now }
    requires via { destinations.old.via ≡ job.now.settings.mailbox_transport }
    ensures lines { IfOk result (λ lines. (at : parts.Node) → slice_get graph.now.nodes node ≡ Some at → AreUndelivered job.now at lines) }
    ensures kept { OnOk result (Keeps destinations.old destinations.new) }
{
    // For what the call says alone: children are nodes of the graph.
    let _ = graph.nodes();
    let mut lines = FindingLines::new(alloc);
    report_node(alloc, tables, graph, node, &mut lines)?;
    let _ = recipient_of(alloc, job, graph.node(node), destinations, &mut lines)?;
    lines.into_seq(alloc)
}

/// No lines for each node.
fn no_lines(alloc: Global, graph: &Graph) -> Result<Vec<Seq<Text>>, AllocError>
    ensures long { IfOk result (λ lists. length lists.items ≡ length graph.now.nodes) }
    ensures empty { IfOk result (λ lists. All (λ lines. lines ≡ []) lists.items) }
{
    let mut lists = Vec::with_capacity(alloc, graph.nodes())?;
    for _ in 0..graph.nodes() {
        lists.push(Seq::of(Vec::new(alloc)))?;
    }
    Ok(lists)
}

/// The lines of these nodes, by their numbers. Routes that were found stay at hand.
fn lists_of<'a>(
    alloc: Global,
    job: &JobView<'_>,
    tables: &Tables,
    graph: &'a Graph,
    nodes: &[u32],
    destinations: &mut Destinations<'a>,
) -> Result<Vec<Seq<Text>>, AllocError>
    requires tables { tables.now ≡ directory_of job.now }
    requires graph { IsJobPart job.now graph.now }
    requires nodes { All (λ n. n < length graph.now.nodes) nodes.now }
    requires routing { destinations.old.routing ≡ routing_of job.now }
    requires via { destinations.old.via ≡ job.now.settings.mailbox_transport }
    ensures lines { IfOk result (λ lists. AreLinesOf graph.now job.now nodes.now lists.items) }
    ensures findings { IfOk result (λ lists. All AreFindings lists.items) }
{
    let mut lists = no_lines(alloc, graph)?;
    for node in nodes {
        let lines = lines_of_node(alloc, job, tables, graph, *node, destinations)?;
        lists[*node as usize] = lines;
    }
    Ok(lists)
}

/// The lines of these nodes, by their numbers.
pub(crate) fn undelivered_at<'a>(
    alloc: Global,
    job: &JobView<'a>,
    lookup: &'a Lookup,
    graph: &'a Graph,
    nodes: &[u32],
) -> Result<Vec<Seq<Text>>, AllocError>
    requires tables { lookup.now.tables ≡ directory_of job.now }
    requires router { lookup.now.router ≡ routing_of job.now }
    requires graph { IsJobPart job.now graph.now }
    requires nodes { All (λ n. n < length graph.now.nodes) nodes.now }
    ensures lines { IfOk result (λ lists. AreLinesOf graph.now job.now nodes.now lists.items) }
    ensures findings { IfOk result (λ lists. All AreFindings lists.items) }
{
    let via = &job.settings().mailbox_transport;
    let mut destinations = Destinations::new(alloc, &lookup.router, via, lookup.key)?;
    let lists = lists_of(alloc, job, &lookup.tables, graph, nodes, &mut destinations);
    drop(destinations);
    lists
}
