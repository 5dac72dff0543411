//! The steps of a graph, from pair to pair.
ghost use Rattle.std.specs.Prelude.{◌≡◌, ◌<◌, ◌+◌, ◌*◌, ◌%◌, ◌^◌, ◌++◌, [], length, map, nat_lt, if◌then◌else◌, All, OnOk};
ghost use Rattle.relay_tables.specs.Graphs.{child_numbers, sender_number_after, IsClosedGraph};

use crate::reached::Reached;
use relay_rounds::{Key, Steps};
use relay_tables::Graph;
use std::alloc::AllocError;

// From a pair to the children of its node, each under the sender after the node.
#[derive(Drop)]
pub(crate) struct PairSteps<'a> {
    pub(crate) graph: &'a Graph,
    ghost closed: { IsClosedGraph graph.now },
}

impl Steps for PairSteps<'_> {
    ghost use Rattle.relay_pairs.specs.Pairs.{key_count, keys_after};
    ghost use Rattle.relay_pairs.specs.Bounds.{keys_after-below};

    ghost key_bound = { λ s. key_count s.graph.now };

    ghost next_keys = { λ s key. keys_after s.graph.now key };

    ghost stays_below = { λ s key below. keys_after-below s.graph.now s.closed key below };

    fn bound(&self) -> Key {
        self.graph.senders() as u64 * (1 << 24)
    }

    fn count(&self, key: Key) -> usize {
        children_of(self.graph, Reached::of_key(key).node).len()
    }

    fn at(&self, key: Key, i: usize) -> Key {
        let from = Reached::of_key(key);
        let child = children_of(self.graph, from.node)[i];
        if from.node as usize >= self.graph.nodes() {
            unreachable!()
        }
        let sender = self.graph.sender_after(from.sender, from.node);
        Reached {
            sender,
            node: child,
        }
        .key()
    }

    // Looks up the node's row and the sender after it once.
    fn append(&self, key: Key, next: &mut Vec<Key>) -> Result<(), AllocError> {
        let from = Reached::of_key(key);
        if from.node as usize >= self.graph.nodes() {
            return Ok(());
        }
        let children = self.graph.children(from.node);
        if children.is_empty() {
            return Ok(());
        }
        push_keys(sender_after(self.graph, from), children, next)
    }
}

// The sender after a pair. Where there is one sender alone no owner is looked up.
fn sender_after(graph: &Graph, from: Reached) -> u32
    requires closed { IsClosedGraph graph.now }
    requires sender { from.sender < length graph.now.senders }
    requires node { from.node < length graph.now.nodes }
    ensures { result ≡ sender_number_after graph.now from.sender from.node }
{
    if graph.senders() == 1 {
        return 0;
    }
    graph.sender_after(from.sender, from.node)
}

// Puts the keys of nodes, under a sender, behind what is there.
fn push_keys(sender: u32, nodes: &[u32], keys: &mut Vec<Key>) -> Result<(), AllocError>
    requires { All (λ n. n < 2 ^ 24) nodes.now }
    ensures { OnOk result (keys.new.items ≡ keys.old.items ++ map (λ n. sender * 2 ^ 24 + n) nodes.now) }
{
    for node in nodes {
        keys.push(Reached {
            sender,
            node: *node,
        }
        .key())?;
    }
    Ok(())
}

// The children of a node, none where there is no such node.
fn children_of(graph: &Graph, node: u32) -> &[u32]
    ensures { result.now ≡ (if nat_lt node (length graph.now.nodes) then child_numbers graph.now node else []) }
{
    if (node as usize) < graph.nodes() {
        graph.children(node)
    } else {
        &[]
    }
}
