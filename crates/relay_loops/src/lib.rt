//! The nodes that are on a loop.
//!
//! Nodes that lead to none that leads on are left out first (`leading`): of a job without loops mostly all of them are. Of the others one
//! after another becomes a pivot, unless it has its answer. A search goes from the pivot to children, among the
//! nodes that are left: what it comes to is ahead. Where it doesn't come back to the pivot, the pivot is on no loop. Where
//! it does, another goes from the pivot to parents, among the nodes ahead: what it comes to is around, and that is all
//! that shares a loop with the pivot. A loop is answered as a whole, so one through a node that is left has such nodes only,
//! and the order of the pivots doesn't matter to the answer.
//!
//! # Time
//!
//! It matters to the time, and is one in which all searches take time linear in the nodes and edges, whatever the graph: that of
//! Kosaraju's strongly connected components. A walk in depth goes from nodes to their parents, and names each when it
//! leaves it; the last one named is the first pivot. Nodes that lead to one another are a component. Let an edge lead from
//! one component into another. Of the latter, the node that the walk comes to first is named behind each node of the former:
//! if the walk comes there before it comes to the former, it goes through all of the former before it leaves that node; if
//! it comes to the former before, it leaves all of that before it comes to the latter, which doesn't lead there. So the
//! latter has its answers when a node of the former becomes a pivot, and a search comes to nodes of the pivot's own component
//! alone. All of them are answered with it: no node is searched twice, and each edge is looked at a few times in all.
//!
//! A search begins in this thread. One that has gone on from some thousands of nodes goes on in rounds, by `reach`, and so
//! over the threads. For few nodes that takes longer, and most loops are short.
#![tactic(auto)]

mod direction;
mod dividing;
mod laws;
mod leading;
mod pivots;
mod place;
mod settling;
mod spreading;
mod steps;

ghost use Rattle.std.specs.Prelude.{◌≤◌, ◌<◌, ℕ, List, [], length, All, IfOk};
ghost use Rattle.relay_loops.specs.declared.place.Place.TheVariants.{Left};
ghost use Rattle.relay_loops.specs.Leading.{HasLoops};
ghost use Rattle.relay_loops.specs.Loops.{IsClosedPart, AreLoopsOf};
ghost use Rattle.relay_loops.specs.Places.{HasPlaces, IsChangedAt};

pub use laws::whole_graphs;
use leading::leading_nodes;
use pivots::pivot_order;
use place::Place;
use relay_rounds::{Crew, Gate};
use relay_tables::{Graph, TwoWayGraph};
use settling::{first_places, looped, settle};
use std::alloc::AllocError;
use std::thread::Threads;

/// The nodes of `reached` from which a chain of one or more children leads back to themselves, ascending.
///
/// `reached` is ascending and has all children of its nodes. A node that only leads into a loop, or lies between two, is
/// on none; one that names itself is on one. The only error is that memory is refused.
pub fn on_loops<G: Gate, R: Threads + Sync>(
    crew: &Crew<G, R>,
    graph: &Graph,
    reached: &[u32],
) -> Result<Vec<u32>, AllocError>
    requires reached { IsClosedPart graph.now reached.now }
    ensures { IfOk result (λ loops. AreLoopsOf graph.now reached.now loops.items) }
{
    let alloc = crew.alloc;
    let nodes = leading_nodes(alloc, graph, reached)?;
    if nodes.is_empty() {
        return Ok(nodes);
    }
    let graph = TwoWayGraph::of(alloc, graph)?;
    let mut places = first_places(alloc, &graph, &nodes)?;
    loops_among(crew, &graph, &nodes, &mut places)
}

// Those of the nodes that are on a loop, where each is left.
fn loops_among<G: Gate, R: Threads + Sync>(
    crew: &Crew<G, R>,
    graph: &TwoWayGraph<'_>,
    nodes: &[u32],
    places: &mut [Place],
) -> Result<Vec<u32>, AllocError>
    requires nodes { All (λ n. n < length graph.now.nodes) nodes.now }
    requires sized { HasPlaces graph.now places.old }
    requires left { IsChangedAt (λ _. Left) nodes.now [] places.old }
    ensures { IfOk result (λ loops. (part : List ℕ) → IsClosedPart graph.now part → HasLoops graph.now part nodes.now → AreLoopsOf graph.now part loops.items) }
{
    let order = pivot_order(crew.alloc, graph, nodes)?;
    settle(crew, graph, &order, places)?;
    looped(crew.alloc, nodes, places)
}
