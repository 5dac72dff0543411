//! One ring of nodes per destination, in one vector.
//!
//! A node links to the one that was appended after it, and the newest node of a ring to the oldest. A new node goes in
//! between these two: it links to the oldest, and the node that was the newest links to it.
ghost use Rattle.std.specs.Prelude.{◌≡◌, ◌<◌, ◌≤◌, ◌-◌, ◌^◌, [], length, Ok, Err, IfOk, OnOk, OnErr, replicate};
ghost use Rattle.relay_rings.specs.RingLists.{held_count, list_at, appended};
ghost use Rattle.relay_rings.specs.Links.{linked};
ghost use Rattle.relay_rings.specs.Walks.{walk_rest};

use crate::walking::{Node, Walk};
use std::alloc::{AllocError, Global};
use std::marker::Model;

/// Why an item wasn't appended.
#[derive(Clone, Copy, Debug, PartialEq, Eq)]
pub enum RingFault {
    /// As many items are held as the limit allows, over all destinations.
    Full,
    /// A growth of the nodes was refused.
    Memory,
}

/// A destination's newest node, and how many nodes its ring has; the node's number says nothing where the ring is empty.
#[derive(Clone, Copy)]
struct Ring {
    newest: u32,
    count: u32,
}

/// A list of items per destination: destinations are the numbers from 0 up, and items any numbers.
///
/// It takes 8 bytes for each item, beside the room that the vector grows ahead, and 8 for each destination.
pub struct Rings {
    nodes: Vec<Node>,
    rings: Vec<Ring>,
    limit: usize,
}

// Written out: what becomes of a derived drop's parts is followed in each proof that has such a value to its end.
impl Drop for Rings {
    fn drop(self) {
        let Rings {
            nodes: _,
            rings: _,
            limit: _,
        } = self;
    }
}

impl Model for Rings {
    ghost use Rattle.std.specs.Prelude.{map};
    ghost use Rattle.relay_rings.specs.RingLists.{RingLists};
    ghost use Rattle.relay_rings.specs.Links.{ring_items, AreRings};

    ghost Value = { RingLists };

    ghost view = { λ a. record { lists = map (ring_items a.nodes.items) a.rings.items; limit = a.limit } };

    ghost invariant = { λ a. AreRings a.nodes.items a.rings.items a.limit };
}

impl Rings {
    /// Empty lists for the destinations below `dests`, which hold at most `limit` items in all.
    ///
    /// Memory is taken for the destinations alone, and not ahead for the items.
    pub fn new(alloc: Global, dests: usize, limit: usize) -> Result<Rings, AllocError>
        requires dests { dests ≤ 2 ^ 32 - 2 }
        requires limit { limit ≤ 2 ^ 32 - 2 }
        ensures { IfOk result (λ rings. rings ≡ record { lists = replicate dests []; limit = limit }) }
    {
        let empty = Ring {
            newest: 0,
            count: 0,
        };
        let rings = vec![in alloc; empty; dests]?;
        Ok(Rings {
            nodes: Vec::new(alloc),
            rings,
            limit,
        })
    }

    /// Appends an item at the end of its destination's list, in the same few steps whatever is held.
    ///
    /// `Full` comes first: no memory is asked for where the limit is reached. `Memory` comes only where the nodes had to
    /// grow and the growth was refused; the same call may succeed later.
    pub fn append(&mut self, dest: usize, item: u32) -> Result<(), RingFault>
        requires { dest < length self.old.lists }
        ensures ok { OnOk result (self.new ≡ appended self.old dest item) }
        ensures room { OnOk result (held_count self.old < self.old.limit) }
        ensures full { result ≡ Err RingFault.Full → held_count self.old ≡ self.old.limit }
        ensures memory { result ≡ Err RingFault.Memory → held_count self.old < self.old.limit }
        ensures err { OnErr result (self.new ≡ self.old) }
    {
        if self.nodes.len() == self.limit {
            return Err(RingFault::Full);
        }
        let ring = self.rings[dest];
        let number = self.nodes.len() as u32;
        if link_in(&mut self.nodes, ring, number, item).is_err() {
            return Err(RingFault::Memory);
        }
        self.rings[dest] = Ring {
            newest: number,
            count: ring.count + 1,
        };
        Ok(())
    }

    /// The items of a destination, the oldest first. It takes no memory, and one step for each item.
    pub fn walk(&self, dest: usize) -> Walk<'_>
        requires { dest < length self.now.lists }
        ensures rest { walk_rest result ≡ list_at self.now dest }
    {
        let ring = self.rings[dest];
        let nodes = self.nodes.as_slice();
        let oldest = if ring.count == 0 {
            0
        } else {
            nodes[ring.newest as usize].link
        };
        Walk::from_node(nodes, oldest, ring.count)
    }

    /// How many items a destination has, by a count that is kept: one step, and no memory.
    pub fn len(&self, dest: usize) -> usize
        requires { dest < length self.now.lists }
        ensures { result ≡ length (list_at self.now dest) }
    {
        self.rings[dest].count as usize
    }
}

/// Adds a node at the end of the vector, between the ring's newest node and its oldest.
fn link_in(nodes: &mut Vec<Node>, ring: Ring, number: u32, item: u32) -> Result<(), AllocError>
    requires number { number ≡ length nodes.old.items }
    requires newest { 0 < ring.count → ring.newest < length nodes.old.items }
    ensures ok { OnOk result (nodes.new.items ≡ linked nodes.old.items ring item) }
    ensures err { OnErr result (nodes.new.items ≡ nodes.old.items) }
{
    if ring.count == 0 {
        nodes.push(Node { item, link: number })?;
        return Ok(());
    }
    let newest = ring.newest as usize;
    let oldest = nodes[newest].link;
    nodes.push(Node { item, link: oldest })?;
    nodes[newest].link = number;
    Ok(())
}
