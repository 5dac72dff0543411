//! The nodes that are reached.
ghost use Rattle.std.specs.Prelude.{◌≡◌, ◌<◌, ◌≤◌, ◌^◌, All, length, IfOk};
ghost use Rattle.relay_pairs.specs.Pairs.{ArePairs, AreNodesOf, IsClosedUnder};
ghost use Rattle.relay_pairs.specs.Marks.{AreMarks, AreMarked};

use crate::reached::Reached;
use relay_tables::Graph;
use std::alloc::{AllocError, Global};

/// The nodes of the reached pairs, ascending, each once. All children of each are among them. The time is linear in the pairs and in
/// the graph's nodes.
pub fn reached_nodes(
    alloc: Global,
    graph: &Graph,
    pairs: &[Reached],
) -> Result<Vec<u32>, AllocError>
    requires pairs { ArePairs graph.now pairs.now }
    ensures nodes { IfOk result (λ nodes. AreNodesOf pairs.now nodes.items) }
    ensures closed { IfOk result (λ nodes. IsClosedUnder graph.now nodes.items) }
{
    let marks = marks_of(alloc, pairs, graph.nodes())?;
    let reached = marked_nodes(alloc, &marks)?;
    Ok(reached)
}

// The nodes of pairs, of as many as there are, marked.
fn marks_of(alloc: Global, pairs: &[Reached], nodes: usize) -> Result<Vec<bool>, AllocError>
    requires { All (λ p. p.node < nodes) pairs.now }
    ensures marks { IfOk result (λ marks. AreMarks pairs.now marks.items) }
    ensures long { IfOk result (λ marks. length marks.items ≡ nodes) }
{
    let mut marks = vec![in alloc; false; nodes]?;
    for pair in pairs {
        marks[pair.node as usize] = true;
    }
    Ok(marks)
}

// The marked nodes, in order.
fn marked_nodes(alloc: Global, marks: &[bool]) -> Result<Vec<u32>, AllocError>
    requires { length marks.now ≤ 2 ^ 32 }
    ensures { IfOk result (λ nodes. AreMarked marks.now nodes.items) }
{
    let mut nodes = Vec::new(alloc);
    for (node, is_marked) in marks.iter().enumerate() {
        if *is_marked {
            nodes.push(node as u32)?;
        }
    }
    Ok(nodes)
}
