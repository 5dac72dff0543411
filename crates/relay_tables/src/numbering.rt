//! Nodes by their numbers.
ghost use Rattle.std.specs.Prelude.{◌≡◌, ◌<◌, ◌≤◌, ◌+◌, ◌-◌, ◌^◌, ◌∷◌, ◌++◌, [], length, slice_get, Some, None, IfOk, IfSome, OnOk, OnErr, Err};
ghost use Rattle.relay_tables.specs.declared.node.Node.TheVariants.{Alias, Include};
ghost use Rattle.relay_tables.specs.Numbering.{node_of, entries_of, Numbers, HasGoodAddress, IsBehind};

use crate::fault::TableFault;
use crate::finding::{find_node, lead_hash};
use crate::keys::make_node;
use crate::lead::Lead;
use crate::node::Node;
use relay_chains::{Links, TextKey};
use std::alloc::{AllocError, Global};
use std::marker::Model;

/// Nodes in the order of their numbers, each once: so many of the aliases first, then so many of the include files, and then all others
/// as they come.
///
/// An entry that stands in front has its number by its place. Any other node is found by its hash, and what tells it is read in the node.
#[derive(Drop)]
pub(crate) struct Numbering {
    alloc: Global,
    nodes: Vec<Node>,
    hashes: Links,
    key: TextKey,
    entries: Entries,
    limit: usize,
}

/// How many aliases and how many include files stand in front.
#[derive(Clone, Copy)]
pub(crate) struct Entries {
    pub(crate) aliases: usize,
    pub(crate) includes: usize,
}

impl Model for Numbering {
    ghost use Rattle.relay_tables.specs.Numbering.{Numbered, AreNumbered};

    ghost Value = { Numbered };

    ghost view = { λ a. record { nodes = a.nodes.items; aliases = a.entries.aliases; includes = a.entries.includes; limit = a.limit } };

    ghost invariant = { λ a. AreNumbered a.nodes.items a.entries.aliases a.entries.includes a.limit a.key a.hashes };
}

impl Numbering {
    /// So many aliases and so many include files in front, and at most `limit` nodes ever, found under a key. Take twice as many heads
    /// as other nodes are expected: there is room for these, so that none is copied and no head is made anew when they come.
    pub(crate) fn new(
        alloc: Global,
        key: TextKey,
        entries: Entries,
        heads: usize,
        limit: usize,
    ) -> Result<Numbering, TableFault>
        requires heads { 1 ≤ heads }
        requires limit { limit ≤ 2 ^ 24 }
        ensures made { IfOk result (λ s. s ≡ record { nodes = entries_of entries.aliases entries.includes; aliases = entries.aliases; includes = entries.includes; limit = limit }) }
        ensures full { result ≡ Err TableFault.TooManyNames → limit < entries.aliases + entries.includes }
        ensures owners { result ≡ Err TableFault.TooManyOwners → ⊥ }
    {
        let Entries { aliases, includes } = entries;
        if limit < aliases || limit - aliases < includes {
            return Err(TableFault::TooManyNames);
        }
        let hashes = Links::new(alloc, heads)?;
        let expected = (heads / 2).min(limit - aliases - includes);
        let nodes = nodes_in_front(alloc, aliases, includes, expected)?;
        Ok(Numbering {
            alloc,
            nodes,
            hashes,
            key,
            entries,
            limit,
        })
    }

    /// The number of a node. A new one gets the next number, where there is room for it.
    #[inline(always)]
    pub(crate) fn number(&mut self, lead: Lead<'_>) -> Result<u32, TableFault>
        requires { HasGoodAddress (node_of lead) }
        ensures number { IfOk result (λ number. slice_get self.new.nodes number ≡ Some (node_of lead.entry)) }
        ensures numbers { Numbers self.old (node_of lead.entry ∷ []) result self.new }
    {
        match self.number_in_front(lead) {
            Some(number) => Ok(number),
            None => self.number_behind(lead),
        }
    }

    // The number of an entry that stands in front.
    #[inline(always)]
    fn number_in_front(&self, lead: Lead<'_>) -> Option<u32>
        ensures found { IfSome result (λ number. slice_get self.now.nodes number ≡ Some (node_of lead.entry)) }
        ensures behind { result ≡ None → IsBehind self.now (node_of lead.entry) }
    {
        match lead {
            Lead::Alias(number) => {
                if (number as usize) < self.entries.aliases {
                    Some(number)
                } else {
                    None
                }
            }
            Lead::Include(number) => {
                if (number as usize) < self.entries.includes {
                    Some(self.entries.aliases as u32 + number)
                } else {
                    None
                }
            }
            _ => None,
        }
    }

    // The number of a node that is none of these, by its hash.
    fn number_behind(&mut self, lead: Lead<'_>) -> Result<u32, TableFault>
        requires good { HasGoodAddress (node_of lead) }
        requires behind { IsBehind self.old (node_of lead) }
        ensures number { IfOk result (λ number. slice_get self.new.nodes number ≡ Some (node_of lead.entry)) }
        ensures numbers { Numbers self.old (node_of lead.entry ∷ []) result self.new }
    {
        let hash = lead_hash(self.key, lead);
        let entries = self.entries.aliases + self.entries.includes;
        let behind = &self.nodes[entries..];
        if let Some(place) = find_node(behind, &self.hashes, self.key, hash, lead) {
            return Ok(entries as u32 + place);
        }
        let number = self.nodes.len();
        if number == self.limit {
            return Err(TableFault::TooManyNames);
        }
        push_node(self.alloc, lead, hash, &mut self.nodes, &mut self.hashes)?;
        Ok(number as u32)
    }

    /// How many nodes there are.
    pub(crate) fn len(&self) -> usize
        ensures value { result ≡ length self.now.nodes }
        ensures within { length self.now.nodes ≤ self.now.limit }
    {
        self.nodes.len()
    }

    /// A node by its number.
    pub(crate) fn node(&self, number: usize) -> &Node
        requires { number < length self.now.nodes }
        ensures { slice_get self.now.nodes number ≡ Some result.now }
    {
        &self.nodes[number]
    }

    /// The nodes in the order of their numbers, without taking memory.
    pub(crate) fn into_nodes(self) -> Vec<Node>
        ensures nodes { result.items ≡ self.nodes }
        ensures within { length self.nodes ≤ self.limit }
    {
        let Numbering {
            alloc: _,
            nodes,
            hashes: _,
            key: _,
            entries: _,
            limit: _,
        } = self;
        nodes
    }
}

// The nodes of so many aliases and so many include files, and room for so many others.
fn nodes_in_front(
    alloc: Global,
    aliases: usize,
    includes: usize,
    others: usize,
) -> Result<Vec<Node>, AllocError>
    requires { aliases + includes + others ≤ 2 ^ 24 }
    ensures { IfOk result (λ nodes. nodes.items ≡ entries_of aliases includes) }
{
    let mut nodes = Vec::with_capacity(alloc, aliases + includes + others)?;
    for number in 0..aliases + includes {
        nodes.push_reserved(node_in_front(aliases, number));
    }
    Ok(nodes)
}

// The node of a number in front: the aliases stand before the include files.
fn node_in_front(aliases: usize, number: usize) -> Node
    requires { number < 2 ^ 24 }
    ensures alias { number < aliases → result ≡ Alias number }
    ensures include { aliases ≤ number → result ≡ Include (number - aliases) }
{
    if number < aliases {
        Node::Alias(number as u32)
    } else {
        Node::Include((number - aliases) as u32)
    }
}

// Puts the node of a lead at the end, and its hash. `Err` where memory runs out: then nothing is put.
#[inline(always)]
fn push_node(
    alloc: Global,
    lead: Lead<'_>,
    hash: u32,
    nodes: &mut Vec<Node>,
    hashes: &mut Links,
) -> Result<(), AllocError>
    requires good { HasGoodAddress (node_of lead) }
    requires few { length hashes.old < 2 ^ 32 - 2 }
    ensures nodes { OnOk result (nodes.new.items ≡ nodes.old.items ++ node_of lead.entry ∷ []) }
    ensures hashes { OnOk result (hashes.new ≡ hashes.old ++ hash ∷ []) }
    ensures no_node { OnErr result (nodes.new.items ≡ nodes.old.items) }
    ensures no_hash { OnErr result (hashes.new ≡ hashes.old) }
{
    // What can fail comes first, and changes nothing that is seen.
    let node = make_node(alloc, lead)?;
    let Ok(()) = nodes.reserve(1) else {
        drop(node);
        return Err(AllocError);
    };
    let Ok(()) = hashes.push(hash) else {
        drop(node);
        return Err(AllocError);
    };
    nodes.push_reserved(node);
    Ok(())
}
