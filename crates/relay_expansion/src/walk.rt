//! A walk in depth from what is asked for to all that it leads to.
ghost use Rattle.std.specs.Prelude.{◌≡◌, ◌<◌, ◌≤◌, ◌+◌, ◌++◌, ◌∷◌, [], ℕ, true, length, All, Some, IfOk, OnOk, MatchOption, ⊤, option_map, replicate, set, slice_index};
ghost use Rattle.relay_tables.specs.Graphs.{IsClosedGraph, child_numbers};
ghost use Rattle.relay_expansion.specs.declared.row.Standing.TheVariants.{First, Open, Told};
ghost use Rattle.relay_expansion.specs.Rows.{AreRowsOf, goes_to, is_entry, met_row, standing_of, visit, work_left, IsMember, IsRow, IsWalk, Walks};

use crate::row::{Row, Standing};
use relay_tables::{Graph, Node};
use std::alloc::{AllocError, Global};

/// An entry on the way, and how many of its members were met.
#[derive(Clone, Copy)]
pub(crate) struct Visit {
    pub(crate) node: u32,
    pub(crate) looked: usize,
}

/// A walk that comes to each entry once. It takes no stack: a chain may have as many entries as there are names.
#[derive(Drop)]
pub(crate) struct Walk {
    /// By the numbers of nodes.
    pub(crate) standings: Vec<Standing>,
    /// The entries that the walk came along to where it is.
    pub(crate) path: Vec<Visit>,
    pub(crate) rows: Vec<Row>,
}

/// Whether a node has members.
fn is_entry(node: &Node) -> bool
    ensures { result ≡ is_entry node.now }
{
    matches!(node, Node::Alias(_) | Node::Include(_))
}

impl Walk {
    /// A walk that has not begun.
    fn new(alloc: Global, nodes: usize) -> Result<Walk, AllocError>
        ensures standings { IfOk result (λ walk. walk.standings.items ≡ replicate nodes First) }
        ensures path { IfOk result (λ walk. walk.path.items ≡ []) }
        ensures rows { IfOk result (λ walk. walk.rows.items ≡ []) }
    {
        Ok(Walk {
            standings: vec![in alloc; Standing::First; nodes]?,
            path: Vec::new(alloc),
            rows: Vec::new(alloc),
        })
    }

    fn standing(&self, node: u32) -> Standing
        ensures { result ≡ standing_of self.now.standings.items node }
    {
        match self.standings.get(node as usize) {
            Some(standing) => *standing,
            None => Standing::Told,
        }
    }

    /// Meets a node, and says whether the walk is to come to it.
    fn meet(&mut self, graph: &Graph, parent: Option<u32>, node: u32) -> Result<bool, AllocError>
        requires node { node < length graph.now.nodes }
        requires member { IsMember graph.now parent node }
        requires told { All (IsRow graph.now) self.old.rows.items }
        ensures told { OnOk result (All (IsRow graph.now) self.new.rows.items) }
        ensures standings { self.new.standings ≡ self.old.standings }
        ensures path { self.new.path ≡ self.old.path }
        ensures row { OnOk result (self.new.rows.items ≡ self.old.rows.items ++ met_row self.old.standings.items (length self.old.path.items) parent node ∷ []) }
        ensures goes { IfOk result (λ goes. goes ≡ goes_to graph.now self.old.standings.items node) }
        ensures first { IfOk result (λ goes. goes ≡ true → standing_of self.old.standings.items node ≡ First) }
    {
        let standing = self.standing(node);
        let depth = match parent {
            Some(_) => self.path.len() + 1,
            None => 0,
        };
        self.rows.push(Row {
            parent,
            node,
            depth,
            standing,
        })?;
        match standing {
            Standing::First => Ok(is_entry(graph.node(node))),
            Standing::Open | Standing::Told => Ok(false),
        }
    }

    /// Meets the members of an entry that were not met yet, up to the first that the walk is to come to, and answers its index.
    fn next_entry(
        &mut self,
        graph: &Graph,
        last: Visit,
        members: &[u32],
    ) -> Result<Option<usize>, AllocError>
        requires members { members.now ≡ child_numbers graph.now last.node }
        requires closed { IsClosedGraph graph.now }
        requires last { last.node < length graph.now.nodes }
        requires told { All (IsRow graph.now) self.old.rows.items }
        ensures told { OnOk result (All (IsRow graph.now) self.new.rows.items) }
        ensures standings { OnOk result (self.new.standings ≡ self.old.standings) }
        ensures path { OnOk result (self.new.path ≡ self.old.path) }
        ensures below { IfOk result (λ found. MatchOption found ⊤ (λ at. at < length members.now)) }
        ensures first { IfOk result (λ found. MatchOption found ⊤ (λ at. standing_of self.old.standings.items (slice_index members.now at) ≡ First)) }
        ensures walks { IfOk result (λ found. (asked : ℕ) → Walks graph.now asked self.old.standings.items (self.old.path.items ++ last ∷ []) self.old.rows.items → MatchOption found (Walks graph.now asked (set self.old.standings.items last.node Told) self.old.path.items self.new.rows.items) (λ at. Walks graph.now asked (set self.old.standings.items (slice_index members.now at) Open) ((self.old.path.items ++ visit last.node (at + 1) ∷ []) ++ visit (slice_index members.now at) 0 ∷ []) self.new.rows.items)) }
    {
        for at in last.looked..members.len() {
            if self.meet(graph, Some(last.node), members[at])? {
                return Ok(Some(at));
            }
        }
        Ok(None)
    }

    /// Comes to an entry.
    fn enter(&mut self, node: u32) -> Result<(), AllocError>
        requires node { node < length self.old.standings.items }
        requires first { standing_of self.old.standings.items node ≡ First }
        ensures standings { OnOk result (self.new.standings.items ≡ set self.old.standings.items node Open) }
        ensures path { OnOk result (self.new.path.items ≡ self.old.path.items ++ visit node 0 ∷ []) }
        ensures within { OnOk result (All (λ visit. visit.node < length self.old.standings.items) self.old.path.items → All (λ visit. visit.node < length self.old.standings.items) self.new.path.items) }
        ensures rows { OnOk result (self.new.rows ≡ self.old.rows) }
        ensures work { OnOk result (work_left self.new.standings.items self.new.path.items < work_left self.old.standings.items self.old.path.items) }
    {
        self.standings[node as usize] = Standing::Open;
        self.path.push(Visit { node, looked: 0 })?;
        Ok(())
    }

    /// Goes on from the entry that the walk came to last: to one of its members, or back.
    #[tactic(auto, using(crate::proofs::WalkFacts::is_walk, crate::proofs::WalkFacts::left_work))]
    fn go_on(&mut self, graph: &Graph, last: Visit) -> Result<(), AllocError>
        requires closed { IsClosedGraph graph.now }
        requires last { last.node < length graph.now.nodes }
        requires walk { IsWalk graph.now self.old.standings.items self.old.path.items self.old.rows.items }
        ensures walk { OnOk result (IsWalk graph.now self.new.standings.items self.new.path.items self.new.rows.items) }
        ensures walks { OnOk result ((asked : ℕ) → Walks graph.now asked self.old.standings.items (self.old.path.items ++ last ∷ []) self.old.rows.items → Walks graph.now asked self.new.standings.items self.new.path.items self.new.rows.items) }
        ensures work { OnOk result (work_left self.new.standings.items self.new.path.items ≤ work_left self.old.standings.items self.old.path.items) }
    {
        let members = graph.children(last.node);
        match self.next_entry(graph, last, members)? {
            Some(at) => {
                self.path.push(Visit {
                    node: last.node,
                    looked: at + 1,
                })?;
                self.enter(members[at])?;
            }
            None => self.standings[last.node as usize] = Standing::Told,
        }
        Ok(())
    }

    /// Comes to an entry and to all that it leads to, and leaves each.
    #[tactic(auto, using(crate::proofs::WalkFacts::is_walk))]
    fn walk_from(&mut self, graph: &Graph, root: u32) -> Result<(), AllocError>
        requires closed { IsClosedGraph graph.now }
        requires root { root < length graph.now.nodes }
        requires first { standing_of self.old.standings.items root ≡ First }
        requires walk { IsWalk graph.now self.old.standings.items self.old.path.items self.old.rows.items }
        ensures walk { OnOk result (IsWalk graph.now self.new.standings.items self.new.path.items self.new.rows.items) }
        ensures path { OnOk result (self.new.path.items ≡ []) }
        ensures walks { OnOk result ((asked : ℕ) → Walks graph.now asked (set self.old.standings.items root Open) (self.old.path.items ++ visit root 0 ∷ []) self.old.rows.items → Walks graph.now asked self.new.standings.items [] self.new.rows.items) }
    {
        self.enter(root)?;
        while let Some(last) = self.path.pop() {
            self.go_on(graph, last)?;
        }
        Ok(())
    }
}

/// The nodes that a graph's recipients lead to: each recipient's, and behind an entry that the walk comes to its members, each with what
/// it leads to. The time and memory are linear in the items.
#[tactic(auto, using(crate::proofs::WalkFacts::is_walk))]
pub(crate) fn rows_of(alloc: Global, graph: &Graph) -> Result<Vec<Row>, AllocError>
    ensures told { IfOk result (λ rows. All (IsRow graph.now) rows.items) }
    ensures all { IfOk result (λ rows. AreRowsOf graph.now rows.items) }
{
    let nodes = graph.nodes();
    let mut walk = Walk::new(alloc, nodes)?;
    for root in graph.roots() {
        if walk.meet(graph, None, *root)? {
            walk.walk_from(graph, *root)?;
        }
    }
    let Walk {
        standings: _,
        path: _,
        rows,
    } = walk;
    Ok(rows)
}
