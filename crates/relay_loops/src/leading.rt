//! Nodes that lead on.
//!
//! A node on a loop has a child on it, and that has one too. So a node that has no child is on none, nor is one of whose children none is
//! left after such nodes are taken away. Lists seldom lie deeper in each other than two or three, and then as many passes leave none, each
//! over fewer nodes than the one before. A job without loops so takes no pivots, and no rows of parents.
ghost use Rattle.std.specs.Prelude.{◌≡◌, ◌<◌, ℕ, List, [], false, length, filter, All, IfOk};
ghost use Rattle.std.specs.List.{list_any};
ghost use Rattle.relay_tables.specs.Graphs.{child_numbers};
ghost use Rattle.relay_loops.specs.Leading.{is_marked, AreLoopsMarked, HasLoops};
ghost use Rattle.relay_loops.specs.Loops.{IsClosedPart};

use relay_tables::Graph;
use std::alloc::{AllocError, Global};

// Whether a node has children.
fn has_children(graph: &Graph, node: u32) -> bool
    requires { node < length graph.now.nodes }
    ensures { result ≡ false → child_numbers graph.now node ≡ [] }
{
    !graph.children(node).is_empty()
}

fn is_marked(marks: &[bool], node: u32) -> bool
    ensures { result ≡ is_marked marks.now node }
{
    match marks.get(node as usize) {
        Some(is_marked) => *is_marked,
        None => false,
    }
}

// Marks those of the nodes that have children.
fn parents_marked(alloc: Global, graph: &Graph, reached: &[u32]) -> Result<Vec<bool>, AllocError>
    requires { IsClosedPart graph.now reached.now }
    ensures { IfOk result (λ marks. AreLoopsMarked graph.now reached.now marks.items) }
{
    let mut marks = vec![in alloc; false; graph.nodes()]?;
    for node in reached {
        if has_children(graph, *node) {
            marks[*node as usize] = true;
        }
    }
    Ok(marks)
}

// Whether some child of a node is marked.
fn leads_to_marked(graph: &Graph, node: u32, marks: &[bool]) -> bool
    requires { node < length graph.now.nodes }
    ensures { result ≡ list_any (is_marked marks.now) (child_numbers graph.now node) }
{
    let children = graph.children(node);
    children.iter().any(|child| is_marked(marks, *child))
}

// Takes the marks of those of the nodes away that lead to no marked one.
fn clear_ends(graph: &Graph, nodes: &[u32], marks: &mut [bool])
    requires { All (λ n. n < length graph.now.nodes) nodes.now }
    ensures { (part : List ℕ) → IsClosedPart graph.now part → AreLoopsMarked graph.now part marks.old → AreLoopsMarked graph.now part marks.new }
{
    for node in nodes {
        if is_marked(marks, *node) && !leads_to_marked(graph, *node, marks) {
            marks[*node as usize] = false;
        }
    }
}

// Those of the nodes that are marked.
fn marked(alloc: Global, nodes: &[u32], marks: &[bool]) -> Result<Vec<u32>, AllocError>
    ensures { IfOk result (λ kept. kept.items ≡ filter (is_marked marks.now) nodes.now) }
{
    nodes
        .iter()
        .copied()
        .filter(|node| is_marked(marks, *node))
        .collect(alloc)
}

/// Those of the nodes that may be on a loop, among which all are that are on one. There are passes as long as each leaves at most half of
/// the nodes, so that all of them take time near linear in the edges.
pub(crate) fn leading_nodes(
    alloc: Global,
    graph: &Graph,
    reached: &[u32],
) -> Result<Vec<u32>, AllocError>
    requires { IsClosedPart graph.now reached.now }
    ensures { IfOk result (λ nodes. HasLoops graph.now reached.now nodes.items) }
{
    let mut marks = parents_marked(alloc, graph, reached)?;
    // Of chains each pass would take a node or two.
    if marks.iter().filter(|is_marked| **is_marked).count() > reached.len() / 2 {
        return Vec::from_slice(alloc, reached);
    }
    let mut before = reached.len();
    let mut nodes = marked(alloc, reached, &marks)?;
    while !nodes.is_empty() && nodes.len() <= before / 2 {
        before = nodes.len();
        clear_ends(graph, &nodes, &mut marks);
        nodes = marked(alloc, &nodes, &marks)?;
    }
    Ok(nodes)
}
