//! Distinct keys, in chains that are linked by number.
//!
//! A node is a key and a link. The nodes stand in one vector in the order of their numbers, and a bucket's head names its
//! newest node, whose link names the next older one, and so on. A head or a link is a word: a node's number + 1, or 0 for
//! none. So links lead down, and a walk along them ends.
ghost use Rattle.std.specs.Prelude.{◌≡◌, ◌≢◌, ◌==◌, ◌^◌, ◌-◌, ◌%◌, ◌≤◌, ◌<◌, [], nat_eq, length, slice_get, None, Err, IfOk, AllPairs};
ghost use Rattle.relay_chains.specs.Buckets.{AreLinked};
ghost use Rattle.relay_chains.specs.Chains.{keys_of, links_of};
ghost use Rattle.relay_chains.specs.Keys.{insertion, number_of, Inserts};

use crate::fault::ChainFault;
use std::alloc::{AllocError, Global};
use std::marker::Model;

/// What a `Chains` holds: any number of 64 bits.
pub type Key = u64;

// A key, and the word of the next older node of its bucket.
#[derive(Clone, Copy)]
struct Node {
    key: Key,
    link: u32,
}

/// A list of distinct keys, numbered from 0 up in the order in which they came.
///
/// The bucket of a key is `key mod heads`, and there is no rehash. A call walks the chain of one bucket: `len / heads` nodes
/// on average where the keys spread over the buckets, and all of them where every key falls in one. Take about as many
/// heads as keys are expected. Memory is 4 bytes for each head and 16 for each node, which grow by doubling.
#[derive(Drop)]
pub struct Chains {
    heads: Vec<u32>,
    nodes: Vec<Node>,
    limit: usize,
}

impl Model for Chains {
    ghost use Rattle.std.specs.Prelude.{ℕ};
    ghost use Rattle.relay_chains.specs.KeyLimits.{KeyLimits};
    ghost use Rattle.relay_chains.specs.Chains.{keys_of, AreChained};

    ghost Value = { KeyLimits ℕ };

    ghost view = { λ a. record { keys = keys_of a.nodes.items; limit = a.limit } };

    ghost invariant = { λ a. AreChained a.heads.items a.nodes.items a.limit };
}

impl Chains {
    /// No keys yet, and at most `limit` of them ever; `limit` may be 0. Only the heads take memory now.
    pub fn new(alloc: Global, heads: usize, limit: usize) -> Result<Chains, AllocError>
        requires heads { 1 ≤ heads }
        requires limit { limit ≤ 2 ^ 32 - 2 }
        ensures { IfOk result (λ set. set ≡ record { keys = []; limit = limit }) }
    {
        Ok(Chains {
            heads: vec![in alloc; 0; heads]?,
            nodes: Vec::new(alloc),
            limit,
        })
    }

    /// The number of a key, and whether it's new. A new key gets the next number.
    ///
    /// A key that is there answers even where the set is full, and takes no memory. `Full` is for a new key where there are
    /// `limit` keys, and `Memory` for a new key alone: the set is as it was then, and the key may be tried again.
    pub fn insert(&mut self, key: Key) -> Result<(u32, bool), ChainFault>
        ensures inserts { Inserts (insertion nat_eq self.old.keys self.old.limit key) self.old.keys result self.new.keys }
        ensures limit { self.new.limit ≡ self.old.limit }
        ensures memory_for_new { result ≡ Err ChainFault.Memory → number_of nat_eq self.old.keys key ≡ None }
        ensures memory_within { result ≡ Err ChainFault.Memory → length self.old.keys < self.old.limit }
    {
        let bucket = bucket_of(key, self.heads.len());
        if let Some(number) = search(&self.heads, &self.nodes, bucket, key) {
            return Ok((number, false));
        }
        let number = self.nodes.len();
        if number == self.limit {
            return Err(ChainFault::Full);
        }
        let link = self.heads[bucket];
        self.nodes.push(Node { key, link })?;
        self.heads[bucket] = number as u32 + 1;
        Ok((number as u32, true))
    }

    /// The number of a key, or `None` where it isn't there. Takes no memory.
    pub fn find(&self, key: Key) -> Option<u32>
        ensures { result ≡ number_of nat_eq self.now.keys key }
    {
        let bucket = bucket_of(key, self.heads.len());
        search(&self.heads, &self.nodes, bucket, key)
    }

    /// The key of a number, or `None` where no key has that number yet.
    pub fn get(&self, number: u32) -> Option<Key>
        ensures { result ≡ slice_get self.now.keys number }
    {
        self.nodes.get(number as usize).map(|node| node.key)
    }

    /// How many keys there are, which is also the number that the next new key gets.
    pub fn len(&self) -> usize
        ensures count { result ≡ length self.now.keys }
        ensures within { length self.now.keys ≤ self.now.limit }
        ensures distinct { AllPairs (λ a b. a ≢ b) self.now.keys }
    {
        self.nodes.len()
    }

    pub fn is_empty(&self) -> bool
        ensures { result ≡ (length self.now.keys == 0) }
    {
        self.nodes.is_empty()
    }
}

// The bucket of a key.
fn bucket_of(key: Key, heads: usize) -> usize
    requires { 0 < heads }
    ensures bucket { result ≡ key % heads }
    ensures below { result < heads }
{
    (key % heads as u64) as usize
}

// The number of the node with a key, by the chain of its bucket.
fn search(heads: &[u32], nodes: &[Node], bucket: usize, key: Key) -> Option<u32>
    requires linked { AreLinked heads.now (links_of nodes.now) (keys_of nodes.now) }
    requires distinct { AllPairs (λ a b. a ≢ b) (keys_of nodes.now) }
    requires bucket { bucket ≡ key % length heads.now }
    ensures { result ≡ number_of nat_eq (keys_of nodes.now) key }
{
    let mut word = heads[bucket];
    while word != 0 {
        let number = word - 1;
        let node = nodes[number as usize];
        if node.key == key {
            return Some(number);
        }
        word = node.link;
    }
    None
}
