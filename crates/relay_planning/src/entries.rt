//! The lines of what entries and recipients lead to and shouldn't.
ghost use Rattle.std.specs.Prelude.{◌≡◌, ◌<◌, ℕ, List, None, false, length, All, IsTrue, OnOk};
ghost use Rattle.relay_tables.specs.Directory.{Directory};
ghost use Rattle.relay_tables.specs.Graphs.{child_numbers};
ghost use Rattle.relay_loops.specs.Loops.{AreLoopsOf};
ghost use Rattle.relay_planning.specs.Delivery.{directory_of, IsJobPart};
ghost use Rattle.relay_planning.specs.Reaching.{AreReachedNodes};
ghost use Rattle.relay_planning.specs.Report.{IsLineOf};
ghost use Rattle.relay_planning.specs.Report.{entries};
ghost use Rattle.relay_wire.specs.declared.finding.Place as places;
ghost use Rattle.relay_planning.specs.Listing.{place_at, place_of, target_finding};
ghost use Rattle.relay_planning.specs.Findings.{Reports};
ghost use Rattle.relay_planning.specs.Entries.{LeadsWithin, IsLineIn, HaveLine, IsTargetLine, IsListLine, IsNodeLine, IsLoopLine};

use crate::job_view::JobView;
use crate::listing::Listing;
use crate::reach::Reach;
use relay_tables::{Graph, Node, Tables};
use relay_wire::{Finding, FindingLines, KeptFindings};
use std::alloc::{AllocError, Global};

/// Adds the line of a finding, if there is one.
fn report_any<K: KeptFindings>(
    alloc: Global,
    finding: Option<Finding>,
    lines: &mut FindingLines<K>,
) -> Result<(), AllocError>
    ensures { OnOk result (Reports lines.old lines.new (IsLineIn finding)) }
{
    match finding {
        Some(finding) => lines.add(finding),
        None => Ok(()),
    }
}

/// Whether mail can go to a node or on from it, so that nothing is reported of it as a target.
fn is_reachable(node: &Node) -> bool
    ensures { IsTrue result → (place : places.Place) → target_finding place node.now ≡ None }
{
    match node {
        Node::Alias(_) | Node::Include(_) | Node::Mailbox(_) | Node::Remote(_) => true,
        Node::Missing(_) | Node::NoInclude(_) | Node::Command(_) | Node::File(_) => false,
    }
}

/// Whether there are targets, and mail can go to each or on from it: then nothing is reported of what lists them, and nobody has to look
/// for its name.
fn are_reachable(graph: &Graph, targets: &[u32]) -> bool
    requires { All (λ n. n < length graph.now.nodes) targets.now }
    ensures { IsTrue result → (place : places.Place) (q : List ℕ) → IsListLine graph.now place targets.now q → ⊥ }
{
    for target in targets {
        if !is_reachable(graph.node(*target)) {
            return false;
        }
    }
    !targets.is_empty()
}

/// Adds the line of a target of a listing to which no mail can go, nor on from it. It stands apart, since most targets are passed, and then
/// the room for a finding isn't made ready.
#[inline(never)]
fn report_lost<K: KeptFindings>(
    alloc: Global,
    listing: Listing,
    target: &Node,
    lines: &mut FindingLines<K>,
) -> Result<(), AllocError>
    ensures { OnOk result (Reports lines.old lines.new (IsLineIn (target_finding (place_at listing.entry) target.now))) }
{
    let finding = listing.target(alloc, target)?;
    report_any(alloc, finding, lines)
}

/// Adds the line of one target of a listing, if it is a missing name, a missing include file, a file or a command (aliases(5)). `Err` where
/// memory runs out.
pub fn report_target<K: KeptFindings>(
    alloc: Global,
    graph: &Graph,
    listing: Listing,
    target: u32,
    lines: &mut FindingLines<K>,
) -> Result<(), AllocError>
    requires { target < length graph.now.nodes }
    ensures { OnOk result (Reports lines.old lines.new (IsTargetLine graph.now (place_at listing.entry) target)) }
{
    let node = graph.node(target);
    if is_reachable(node) {
        return Ok(());
    }
    report_lost(alloc, listing, node, lines)
}

/// Adds the lines of the targets of a listing. A target that is the one before it once more adds none.
fn report_targets<K: KeptFindings>(
    alloc: Global,
    graph: &Graph,
    listing: Listing,
    targets: &[u32],
    lines: &mut FindingLines<K>,
) -> Result<(), AllocError>
    requires { All (λ n. n < length graph.now.nodes) targets.now }
    ensures { OnOk result (Reports lines.old lines.new (HaveLine (IsTargetLine graph.now (place_at listing.entry)) targets.now)) }
{
    for (index, target) in targets.iter().enumerate() {
        if index > 0 && targets[index - 1] == *target {
            continue;
        }
        report_target(alloc, graph, listing, *target, lines)?;
    }
    Ok(())
}

/// Adds the lines of an entry or include file with these targets.
fn report_list<K: KeptFindings>(
    alloc: Global,
    graph: &Graph,
    listing: Listing,
    targets: &[u32],
    lines: &mut FindingLines<K>,
) -> Result<(), AllocError>
    requires { All (λ n. n < length graph.now.nodes) targets.now }
    ensures { OnOk result (Reports lines.old lines.new (IsListLine graph.now (place_at listing.entry) targets.now)) }
{
    if targets.is_empty() {
        let finding = listing.empty(alloc)?;
        return report_any(alloc, finding, lines);
    }
    report_targets(alloc, graph, listing, targets, lines)
}

/// Whether a node is an entry or an include file, by which alone targets are listed.
fn is_listed_by(node: &Node) -> bool
    ensures { result ≡ false → (d : Directory) → place_of d node.now ≡ None }
{
    matches!(node, Node::Alias(_) | Node::Include(_))
}

/// Adds the lines of the targets that an entry or include file lists, or the line that says that it lists none. It stands apart, since most
/// nodes of a long list are no entries.
#[inline(never)]
fn report_listed<K: KeptFindings>(
    alloc: Global,
    tables: &Tables,
    graph: &Graph,
    node: u32,
    lines: &mut FindingLines<K>,
) -> Result<(), AllocError>
    requires node { node < length graph.now.nodes }
    requires children { All (λ c. c < length graph.now.nodes) (child_numbers graph.now node) }
    ensures { OnOk result (Reports lines.old lines.new (IsNodeLine graph.now tables.now node)) }
{
    let targets = graph.children(node);
    if are_reachable(graph, targets) {
        return Ok(());
    }
    match Listing::of(tables, graph.node(node)) {
        Some(listing) => report_list(alloc, graph, listing, targets, lines),
        None => Ok(()),
    }
}

/// Adds the lines of the targets of an entry or include file, or the line that says that it has none. `Err` where memory runs out.
pub fn report_node<K: KeptFindings>(
    alloc: Global,
    tables: &Tables,
    graph: &Graph,
    node: u32,
    lines: &mut FindingLines<K>,
) -> Result<(), AllocError>
    requires node { node < length graph.now.nodes }
    requires children { All (λ c. c < length graph.now.nodes) (child_numbers graph.now node) }
    ensures { OnOk result (Reports lines.old lines.new (IsNodeLine graph.now tables.now node)) }
{
    if !is_listed_by(graph.node(node)) {
        return Ok(());
    }
    report_listed(alloc, tables, graph, node, lines)
}

/// Adds the lines of the targets of nodes.
fn report_nodes<K: KeptFindings>(
    alloc: Global,
    tables: &Tables,
    graph: &Graph,
    nodes: &[u32],
    lines: &mut FindingLines<K>,
) -> Result<(), AllocError>
    requires graph { LeadsWithin graph.now }
    requires nodes { All (λ n. n < length graph.now.nodes) nodes.now }
    ensures { OnOk result (Reports lines.old lines.new (HaveLine (IsNodeLine graph.now tables.now) nodes.now)) }
{
    for node in nodes {
        report_node(alloc, tables, graph, *node, lines)?;
    }
    Ok(())
}

/// Adds the line of a node that is on a loop.
fn report_loop<K: KeptFindings>(
    alloc: Global,
    tables: &Tables,
    graph: &Graph,
    node: u32,
    lines: &mut FindingLines<K>,
) -> Result<(), AllocError>
    requires { node < length graph.now.nodes }
    ensures { OnOk result (Reports lines.old lines.new (IsLoopLine graph.now tables.now node)) }
{
    match Listing::of(tables, graph.node(node)) {
        Some(listing) => {
            let finding = listing.looped(alloc)?;
            report_any(alloc, finding, lines)
        }
        None => Ok(()),
    }
}

/// Adds the lines of the nodes that are on a loop.
fn report_loops<K: KeptFindings>(
    alloc: Global,
    tables: &Tables,
    graph: &Graph,
    loops: &[u32],
    lines: &mut FindingLines<K>,
) -> Result<(), AllocError>
    requires { All (λ n. n < length graph.now.nodes) loops.now }
    ensures { OnOk result (Reports lines.old lines.new (HaveLine (IsLoopLine graph.now tables.now) loops.now)) }
{
    for node in loops {
        report_loop(alloc, tables, graph, *node, lines)?;
    }
    Ok(())
}

/// Adds a line for each missing name, missing include file, file and command that a reached entry or a recipient leads to, for each
/// reached entry without items, and for each that is on a loop (aliases(5); RFC 5321 section 3.9).
pub(crate) fn report_entries<K: KeptFindings>(
    alloc: Global,
    job: &JobView<'_>,
    tables: &Tables,
    graph: &Graph,
    reach: &Reach<'_>,
    lines: &mut FindingLines<K>,
) -> Result<(), AllocError>
    requires tables { tables.now ≡ directory_of job.now }
    requires graph { IsJobPart job.now graph.now }
    requires nodes { AreReachedNodes job.now graph.now reach.now.nodes.now }
    requires loops { AreLoopsOf graph.now reach.now.nodes.now reach.now.loops.now }
    ensures { OnOk result (Reports lines.old lines.new (IsLineOf job.now entries)) }
{
    let _ = job;
    report_targets(alloc, graph, Listing::Envelope, graph.roots(), lines)?;
    report_nodes(alloc, tables, graph, reach.nodes, lines)?;
    report_loops(alloc, tables, graph, reach.loops, lines)
}
