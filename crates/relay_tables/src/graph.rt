//! The numbered graph of what leads to what.
ghost use Rattle.std.specs.Prelude.{◌≡◌, ◌<◌, ◌≤◌, ◌^◌, ◌+◌, length, slice_get, Some, Err, IfOk, option_map, option_copied};
ghost use Rattle.relay_tables.specs.Graphs.{IsClosedGraph, IsGraphOf, IsGraphFrom, nodes_of, owner_count, refusal_of, Refuses, child_numbers, sender_number_after};

use crate::adjacency::Adjacency;
use crate::building::{Rows, number_all};
use crate::fault::TableFault;
use crate::node::Node;
use crate::reaching::{Reach, reach_all};
use crate::sending::{OwnedSenders, count_owners, number_senders};
use crate::tables::Tables;
use relay_text::Address;
use std::alloc::Global;
use std::marker::Model;

/// The aliases of the tables, the include files and the targets of items and recipients as numbered nodes, and which leads to which; and
/// the senders that owners give, numbered too. `build` takes all of them, and `reached` what the recipients lead to.
///
/// Children are rows of numbers: 4 bytes for an entry of one or none, and for another 12, and 4 for each number. Most entries have one,
/// which then takes one read of memory.
pub struct Graph {
    nodes: Vec<Node>,
    pub(crate) children: Adjacency,
    roots: Vec<u32>,
    senders: Vec<Option<Address>>,
    owners: Vec<Option<u32>>,
}

// Written out: what becomes of a derived drop's parts is followed in each proof that has such a value to its end.
impl Drop for Graph {
    fn drop(self) {
        let Graph {
            nodes: _,
            children: _,
            roots: _,
            senders: _,
            owners: _,
        } = self;
    }
}

impl Model for Graph {
    ghost use Rattle.relay_tables.specs.GraphParts.{GraphParts};
    ghost use Rattle.relay_tables.specs.Building.{IsGraph};

    ghost Value = { GraphParts };

    ghost view = { λ a. record { nodes = a.nodes.items; children = a.children; roots = a.roots.items; senders = a.senders.items; owners = a.owners.items } };

    ghost invariant = { λ a. IsGraph (record { nodes = a.nodes.items; children = a.children; roots = a.roots.items; senders = a.senders.items; owners = a.owners.items }) };
}

impl Graph {
    /// The graph of the tables, and of the envelope's sender, `None` for the null sender, and recipients.
    ///
    /// Aliases have the first numbers, then include files, then all other targets as they first stand in the items of aliases, of include
    /// files, and among the recipients.
    ///
    /// `TooManyNames` where there are more nodes than `names`, otherwise `TooManyOwners` where more aliases have an owner than
    /// `owners`, whatever they give as sender. The time is near linear in the items and recipients.
    pub fn build(
        alloc: Global,
        tables: &Tables,
        sender: Option<&Address>,
        recipients: &[Address],
        names: usize,
        owners: usize,
    ) -> Result<Graph, TableFault>
        requires names { names ≤ 2 ^ 24 }
        requires owners { owners ≤ 2 ^ 24 }
        ensures graph { IfOk result (IsGraphOf tables.now (option_map (λ a. a.now) sender.entry) recipients.now) }
        ensures nodes { IfOk result (λ graph. length graph.nodes ≤ names) }
        ensures senders { IfOk result (λ graph. length graph.senders ≤ owner_count tables.now + 1) }
        ensures refusal { Refuses result (refusal_of tables.now recipients.now names owners) }
    {
        let rows = number_all(alloc, tables, recipients, names)?;
        let owned = count_owners(tables);
        if owned > owners {
            return Err(TableFault::TooManyOwners);
        }
        let numbered = number_senders(alloc, tables, sender, owned)?;
        let Rows {
            nodes,
            children,
            roots,
        } = rows;
        let OwnedSenders {
            senders,
            owners: numbers,
        } = numbered;
        Ok(Graph {
            nodes,
            children,
            roots,
            senders: senders.into_vec(),
            owners: numbers,
        })
    }

    /// The graph of what an envelope reaches: the recipients' targets and all that they lead to, numbered as they are found, under the
    /// envelope's sender, `None` for the null sender. It takes the time and memory of that, and not of the tables.
    ///
    /// `TooManyNames` where more than `names` nodes are reached, and so only where `build` gives it too. Owners aren't limited: no more are
    /// reached than nodes.
    pub fn reached(
        alloc: Global,
        tables: &Tables,
        sender: Option<&Address>,
        recipients: &[Address],
        names: usize,
    ) -> Result<Graph, TableFault>
        requires names { names ≤ 2 ^ 24 }
        ensures graph { IfOk result (IsGraphFrom tables.now (option_map (λ a. a.now) sender.entry) recipients.now) }
        ensures nodes { IfOk result (λ graph. length graph.nodes ≤ names) }
        ensures senders { IfOk result (λ graph. length graph.senders ≤ length graph.nodes + 1) }
        ensures full { result ≡ Err TableFault.TooManyNames → names < length (nodes_of tables.now recipients.now) }
        ensures owners { result ≡ Err TableFault.TooManyOwners → ⊥ }
    {
        let found = reach_all(alloc, tables, sender, recipients, names)?;
        let Reach {
            names: numbering,
            roots,
            children,
            senders: list,
            owners,
            scratch: _,
        } = found;
        Ok(Graph {
            nodes: numbering.into_nodes(),
            children,
            roots,
            senders: list.into_vec(),
            owners,
        })
    }

    /// How many nodes there are.
    pub fn nodes(&self) -> usize
        ensures value { result ≡ length self.now.nodes }
        ensures closed { IsClosedGraph self.now }
    {
        self.nodes.len()
    }

    /// A node by its number.
    pub fn node(&self, n: u32) -> &Node
        requires { n < length self.now.nodes }
        ensures { slice_get self.now.nodes n ≡ Some result.now }
    {
        &self.nodes[n as usize]
    }

    /// The targets of a node's items, in item order, with repeats; none of a node that is no alias or include file.
    pub fn children(&self, n: u32) -> &[u32]
        requires { n < length self.now.nodes }
        ensures { result.now ≡ child_numbers self.now n }
    {
        self.children.row(n as usize)
    }

    /// The recipients' targets, in the recipients' order, with repeats.
    pub fn roots(&self) -> &[u32]
        ensures { result.now ≡ self.now.roots }
    {
        self.roots.as_slice()
    }

    /// How many senders there are: at least one, since the envelope's has number 0.
    pub fn senders(&self) -> usize
        ensures { result ≡ length self.now.senders }
    {
        self.senders.len()
    }

    /// A sender by its number, `None` for the null sender.
    pub fn sender(&self, s: u32) -> Option<&Address>
        requires { s < length self.now.senders }
        ensures { slice_get self.now.senders s ≡ Some (option_copied result) }
    {
        self.senders[s as usize].as_ref()
    }

    /// The number of the sender of what a node leads to, where the node is reached under the sender `s`: an alias with an owner sets
    /// its owner's, and any other node leaves it (local(8), "delivery status notifications").
    pub fn sender_after(&self, s: u32, n: u32) -> u32
        requires sender { s < length self.now.senders }
        requires node { n < length self.now.nodes }
        ensures { result ≡ sender_number_after self.now s n }
    {
        match self.owners.get(n as usize) {
            Some(Some(owner)) => *owner,
            _ => s,
        }
    }
}
