//! A graph that is walked both ways.
use crate::adjacency::Adjacency;
use crate::graph::Graph;
use std::marker::Model;

/// A graph, and for each node the nodes with that child. Nobody but a search for loops goes that way, and few jobs need one, so a graph
/// itself has no such rows. They take 4 bytes for a node of one or none, and for another 12, and 4 for each number.
///
/// Contracts see it as the graph.
#[derive(Drop)]
pub struct TwoWayGraph<'g> {
    graph: &'g Graph,
    parents: Adjacency,
}

impl<'g> Model for TwoWayGraph<'g> {
    ghost use Rattle.std.specs.Prelude.{length};
    ghost use Rattle.relay_tables.specs.Building.{AreParents};
    ghost use Rattle.relay_tables.specs.GraphParts.{GraphParts};

    ghost Value = { GraphParts };

    ghost view = { λ a. a.graph.now };

    ghost invariant = { λ a. AreParents (length a.graph.now.nodes) a.graph.now.children a.parents };
}

ghost use Rattle.std.specs.Prelude.{◌≡◌, ◌<◌, length, IfOk};
ghost use Rattle.relay_tables.specs.Graphs.{IsClosedGraph, child_numbers, parent_numbers};

use crate::transpose::transposed;
use std::alloc::{AllocError, Global};

impl<'g> TwoWayGraph<'g> {
    /// The graph with the rows of its parents, in time that is linear in nodes and edges. `Err` where memory runs out.
    pub fn of(alloc: Global, graph: &'g Graph) -> Result<TwoWayGraph<'g>, AllocError>
        ensures { IfOk result (λ turned. turned ≡ graph.now) }
    {
        let count = graph.nodes();
        Ok(TwoWayGraph {
            graph,
            parents: transposed(alloc, &graph.children, count)?,
        })
    }

    /// How many nodes there are.
    pub fn nodes(&self) -> usize
        ensures value { result ≡ length self.now.nodes }
        ensures closed { IsClosedGraph self.now }
    {
        self.graph.nodes()
    }

    /// The targets of a node's items, in item order, with repeats; none of a node that is no alias or include file.
    pub fn children(&self, n: u32) -> &[u32]
        requires { n < length self.now.nodes }
        ensures { result.now ≡ child_numbers self.now n }
    {
        self.graph.children(n)
    }

    /// The nodes with this child, ascending, each once.
    pub fn parents(&self, n: u32) -> &[u32]
        requires { n < length self.now.nodes }
        ensures { result.now ≡ parent_numbers self.now n }
    {
        self.parents.row(n as usize)
    }
}
