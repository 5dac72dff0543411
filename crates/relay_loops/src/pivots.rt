//! The order in which pivots are taken.
ghost use Rattle.std.specs.Prelude.{◌≡◌, ◌<◌, ◌≤◌, ◌++◌, ◌∷◌, [], true, false, ℕ, length, All, Contains, IfOk, OnOk, MatchOption, ⊤, slice_index};
ghost use Rattle.relay_loops.specs.Naming.{is_fresh, work_left, GoesOn};

use relay_tables::TwoWayGraph;
use std::alloc::{AllocError, Global};

// A node on the path of the walk, and how many of its parents were looked at.
#[derive(Clone, Copy)]
pub(crate) struct Visit {
    pub(crate) node: u32,
    pub(crate) looked: usize,
}

// A walk in depth from nodes to their parents.
#[derive(Drop)]
pub(crate) struct Walk {
    // Whether a node is to be walked to, and was not yet.
    pub(crate) fresh: Vec<bool>,
    // The nodes that the walk came along to where it is.
    pub(crate) path: Vec<Visit>,
    // The nodes that it has left, in that order.
    pub(crate) order: Vec<u32>,
}

impl Walk {
    // A walk that has not begun, among these nodes.
    fn new(alloc: Global, graph: &TwoWayGraph<'_>, reached: &[u32]) -> Result<Walk, AllocError>
        requires { All (λ n. n < length graph.now.nodes) reached.now }
        ensures path { IfOk result (λ walk. walk.path.items ≡ []) }
        ensures sized { IfOk result (λ walk. length walk.fresh.items ≡ length graph.now.nodes) }
        ensures fresh { IfOk result (λ walk. All (λ n. is_fresh walk.fresh.items n ≡ true) reached.now) }
    {
        let mut fresh = vec![in alloc; false; graph.nodes()]?;
        for node in reached {
            fresh[*node as usize] = true;
        }
        Ok(Walk {
            fresh,
            path: Vec::new(alloc),
            order: Vec::with_capacity(alloc, reached.len())?,
        })
    }

    fn is_fresh(&self, node: u32) -> bool
        ensures { result ≡ is_fresh self.now.fresh.items node }
    {
        match self.fresh.get(node as usize) {
            Some(fresh) => *fresh,
            None => false,
        }
    }

    // The index of the first fresh one of the nodes, but for those before an index.
    fn next_fresh(&self, nodes: &[u32], from: usize) -> Option<usize>
        ensures below { MatchOption result ⊤ (λ at. at < length nodes.now) }
        ensures fresh { MatchOption result ⊤ (λ at. is_fresh self.now.fresh.items (slice_index nodes.now at) ≡ true) }
    {
        for at in from..nodes.len() {
            if self.is_fresh(nodes[at]) {
                return Some(at);
            }
        }
        None
    }

    // Comes to a fresh node.
    fn enter(&mut self, node: u32) -> Result<(), AllocError>
        requires { is_fresh self.old.fresh.items node ≡ true }
        ensures onward { OnOk result (GoesOn self.old.fresh.items self.old.path.items self.old.order.items self.new.fresh.items self.new.path.items self.new.order.items) }
        ensures left { OnOk result (is_fresh self.new.fresh.items node ≡ false) }
        ensures work { OnOk result (work_left self.new.fresh.items self.new.path.items < work_left self.old.fresh.items self.old.path.items) }
    {
        self.fresh[node as usize] = false;
        self.path.push(Visit { node, looked: 0 })?;
        Ok(())
    }

    // Goes on from the node that the walk came to last: to one of its parents, or back.
    fn go_on(&mut self, graph: &TwoWayGraph<'_>, last: Visit) -> Result<(), AllocError>
        requires last { last.node < length self.old.fresh.items }
        requires sized { length self.old.fresh.items ≡ length graph.now.nodes }
        ensures onward { OnOk result (GoesOn self.old.fresh.items (self.old.path.items ++ last ∷ []) self.old.order.items self.new.fresh.items self.new.path.items self.new.order.items) }
        ensures work { OnOk result (work_left self.new.fresh.items self.new.path.items ≤ work_left self.old.fresh.items self.old.path.items) }
    {
        let parents = graph.parents(last.node);
        match self.next_fresh(parents, last.looked) {
            Some(at) => {
                self.path.push(Visit {
                    node: last.node,
                    looked: at + 1,
                })?;
                self.enter(parents[at])?;
            }
            None => self.order.push(last.node)?,
        }
        Ok(())
    }

    // Comes to a fresh node and to all that lead to it, and leaves each.
    fn walk_from(&mut self, graph: &TwoWayGraph<'_>, root: u32) -> Result<(), AllocError>
        requires root { is_fresh self.old.fresh.items root ≡ true }
        requires path { self.old.path.items ≡ [] }
        requires sized { length self.old.fresh.items ≡ length graph.now.nodes }
        ensures onward { OnOk result (GoesOn self.old.fresh.items self.old.path.items self.old.order.items self.new.fresh.items self.new.path.items self.new.order.items) }
        ensures left { OnOk result (is_fresh self.new.fresh.items root ≡ false) }
        ensures path { OnOk result (self.new.path.items ≡ []) }
    {
        self.enter(root)?;
        while let Some(last) = self.path.pop() {
            self.go_on(graph, last)?;
        }
        Ok(())
    }
}

// The nodes in the order in which they become pivots: the last that the walk leaves comes first.
pub(crate) fn pivot_order(
    alloc: Global,
    graph: &TwoWayGraph<'_>,
    reached: &[u32],
) -> Result<Vec<u32>, AllocError>
    requires { All (λ n. n < length graph.now.nodes) reached.now }
    ensures { IfOk result (λ order. (n : ℕ) → Contains reached.now n → Contains order.items n) }
{
    let mut walk = Walk::new(alloc, graph, reached)?;
    for node in reached {
        if walk.is_fresh(*node) {
            walk.walk_from(graph, *node)?;
        }
    }
    let Walk {
        fresh: _,
        path: _,
        mut order,
    } = walk;
    order.reverse();
    Ok(order)
}
