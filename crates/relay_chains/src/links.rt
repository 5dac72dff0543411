//! Numbers that are found by the hashes of their texts, where the texts lie elsewhere.
//!
//! A node is a hash and a link, and the nodes stand in one vector in the order of their numbers. A bucket's head names its newest
//! node, whose link names the next older one, and so on: a head or a link is a word, a node's number + 1, or 0 for none. There are
//! about twice as many heads as nodes, so that a chain is short, and a text is read only where the hashes agree.
ghost use Rattle.std.specs.Prelude.{◌≡◌, ◌==◌, ◌^◌, ◌-◌, ◌≤◌, ◌<◌, [], ◌∷◌, ◌++◌, ℕ, true, false, length, slice_index, unwrap_or, replicate, IfOk, OnOk, OnErr, IfSome};
ghost use Rattle.relay_chains.specs.Buckets.{AreLinked, last_in};
ghost use Rattle.relay_chains.specs.Links.{hashes_of, links_of, bucket_under, buckets_of, last_under};

use std::alloc::{AllocError, Global};
use std::marker::Model;

// So many heads at most, since a bucket is found by the product of a hash and their number.
const MOST_HEADS: usize = 1 << 32;

// A hash, and the word of the next older node of its bucket.
#[derive(Clone, Copy)]
struct LinkNode {
    hash: u32,
    link: u32,
}

/// The hashes of texts that are numbered from 0 up in the order in which they came.
///
/// The heads are doubled where there are half as many hashes, up to 2^32 heads, so a call walks a node or two where the hashes spread.
/// Memory is 8 bytes for each hash and 8 to 16 for its heads.
pub struct Links {
    heads: Vec<u32>,
    nodes: Vec<LinkNode>,
}

// Written out: what becomes of a derived drop's parts is followed in each proof that has such a value to its end.
impl Drop for Links {
    fn drop(self) {
        let Links { heads: _, nodes: _ } = self;
    }
}

impl Model for Links {
    ghost use Rattle.std.specs.Prelude.{ℕ, List};
    ghost use Rattle.relay_chains.specs.Links.{hashes_of, AreHashed};

    ghost Value = { List ℕ };

    ghost view = { λ a. hashes_of a.nodes.items };

    ghost invariant = { λ a. AreHashed a.heads.items a.nodes.items };
}

impl Links {
    /// No hashes yet. Take twice as many heads as texts are expected: they take memory now.
    pub fn new(alloc: Global, heads: usize) -> Result<Links, AllocError>
        requires { 1 ≤ heads }
        ensures { IfOk result (λ links. links ≡ []) }
    {
        Ok(Links {
            heads: vec![in alloc; 0; heads.min(MOST_HEADS)]?,
            nodes: Vec::new(alloc),
        })
    }

    /// These hashes, each under the number of its place. All of them at once take less time than one after another: a bucket's head lies
    /// anywhere in memory, and where nothing else is done between two of them, they are waited for together.
    pub fn of(alloc: Global, hashes: &[u32]) -> Result<Links, AllocError>
        requires { length hashes.now < 2 ^ 32 - 2 }
        ensures { IfOk result (λ links. links ≡ hashes.now) }
    {
        let count = (2 * hashes.len() + 1).min(MOST_HEADS);
        let mut heads = vec![in alloc; 0; count]?;
        let mut nodes = unlinked(alloc, hashes)?;
        relink(&mut heads, &mut nodes);
        Ok(Links { heads, nodes })
    }

    /// The hash of the next number. `Err` where memory runs out: nothing is changed, and the hash may be tried again.
    pub fn push(&mut self, hash: u32) -> Result<(), AllocError>
        requires { length self.old < 2 ^ 32 - 2 }
        ensures ok { OnOk result (self.new ≡ self.old ++ hash ∷ []) }
        ensures err { OnErr result (self.new ≡ self.old) }
    {
        self.widen()?;
        let bucket = bucket_of(hash, self.heads.len());
        let link = self.heads[bucket];
        self.nodes.push(LinkNode { hash, link })?;
        self.heads[bucket] = self.nodes.len() as u32;
        Ok(())
    }

    /// How many hashes there are, which is also the number that the next one gets.
    pub fn len(&self) -> usize
        ensures { result ≡ length self.now }
    {
        self.nodes.len()
    }

    pub fn is_empty(&self) -> bool
        ensures { result ≡ (length self.now == 0) }
    {
        self.nodes.is_empty()
    }

    /// The first number under a hash for which the test holds, which is asked of numbers under the hash alone.
    pub fn find<F: Fn(u32) -> bool>(&self, hash: u32, is_sought: F) -> Option<u32>
        requires { (k : ℕ) → k < length self.now → F.pre is_sought k }
        ensures found { IfSome result (λ k. (k < length self.now) × (slice_index self.now k ≡ hash) × F.post is_sought k true) }
        ensures before { (k : ℕ) → k < unwrap_or result (length self.now) → slice_index self.now k ≡ hash → F.post is_sought k false }
    {
        self.find_from(self.newest(hash), hash, is_sought)
    }

    /// The same among the numbers below a word that names a number under the hash, or is 0.
    pub fn find_from<F: Fn(u32) -> bool>(&self, word: u32, hash: u32, is_sought: F) -> Option<u32>
        requires callable { (k : ℕ) → k < word → F.pre is_sought k }
        requires within { word ≤ length self.now }
        requires under { last_under self.now hash word ≡ word }
        ensures found { IfSome result (λ k. (k < word) × (slice_index self.now k ≡ hash) × F.post is_sought k true) }
        ensures before { (k : ℕ) → k < unwrap_or result word → slice_index self.now k ≡ hash → F.post is_sought k false }
    {
        let mut found = None;
        let mut next = word;
        while next != 0 {
            let number = next - 1;
            if is_sought(number) {
                found = Some(number);
            }
            next = self.older(next, hash);
        }
        found
    }

    /// The last number under a hash for which the test holds, which is asked of numbers under the hash alone, the newest first.
    ///
    /// The search ends there: where no two texts are alike, take this and not `find`, which goes on to the oldest.
    pub fn find_last<F: Fn(u32) -> bool>(&self, hash: u32, is_sought: F) -> Option<u32>
        requires { (k : ℕ) → k < length self.now → F.pre is_sought k }
        ensures found { IfSome result (λ k. (k < length self.now) × (slice_index self.now k ≡ hash) × F.post is_sought k true) }
        ensures after { (k : ℕ) → IfSome result (λ n. n < k) → k < length self.now → slice_index self.now k ≡ hash → F.post is_sought k false }
    {
        let mut word = self.newest(hash);
        while word != 0 {
            let number = word - 1;
            if is_sought(number) {
                return Some(number);
            }
            word = self.older(word, hash);
        }
        None
    }

    /// The word of the last number under a hash.
    pub fn newest(&self, hash: u32) -> u32
        ensures { result ≡ last_under self.now hash (length self.now) }
    {
        let head = self.heads[bucket_of(hash, self.heads.len())];
        walk(&self.heads, &self.nodes, head, hash)
    }

    /// The word of the last number before the one of a word, under that one's hash.
    pub fn before(&self, word: u32) -> u32
        requires some { 0 < word }
        requires within { word ≤ length self.now }
        ensures { result ≡ last_under self.now (slice_index self.now (word - 1)) (word - 1) }
    {
        self.older(word, self.nodes[(word - 1) as usize].hash)
    }

    // The word of the last number under a hash before the one of a word.
    fn older(&self, word: u32, hash: u32) -> u32
        requires some { 0 < word }
        requires within { word ≤ length self.now }
        requires under { slice_index self.now (word - 1) ≡ hash }
        ensures { result ≡ last_under self.now hash (word - 1) }
    {
        let link = self.nodes[(word - 1) as usize].link;
        walk(&self.heads, &self.nodes, link, hash)
    }

    // Twice as many heads, where they aren't twice as many as the nodes, and the same hashes.
    fn widen(&mut self) -> Result<(), AllocError>
        requires { length self.old < 2 ^ 32 - 2 }
        ensures { self.new ≡ self.old }
    {
        let count = self.heads.len();
        if self.nodes.len() < count / 2 || count > MOST_HEADS / 2 {
            return Ok(());
        }
        let alloc = *self.heads.allocator();
        let mut heads = vec![in alloc; 0; 2 * count]?;
        relink(&mut heads, &mut self.nodes);
        self.heads = heads;
        Ok(())
    }
}

// The bucket of a hash among so many.
fn bucket_of(hash: u32, heads: usize) -> usize
    requires some { 0 < heads }
    requires few { heads ≤ 2 ^ 32 }
    ensures bucket { result ≡ bucket_under heads hash }
    ensures below { result < heads }
{
    ((u64::from(hash) * heads as u64) >> 32) as usize
}

// The word of the last node under a hash before a word of its bucket's chain.
fn walk(heads: &[u32], nodes: &[LinkNode], start: u32, hash: u32) -> u32
    requires linked { AreLinked heads.now (links_of nodes.now) (buckets_of (length heads.now) (hashes_of nodes.now)) }
    requires few { length heads.now ≤ 2 ^ 32 }
    requires within { start ≤ length nodes.now }
    requires on_chain { last_in (length heads.now) (buckets_of (length heads.now) (hashes_of nodes.now)) (bucket_under (length heads.now) hash) start ≡ start }
    ensures { result ≡ last_under (hashes_of nodes.now) hash start }
{
    let mut word = start;
    while word != 0 {
        let node = nodes[(word - 1) as usize];
        if node.hash == hash {
            break;
        }
        word = node.link;
    }
    word
}

// Nodes of these hashes, which no head or link names yet.
fn unlinked(alloc: Global, hashes: &[u32]) -> Result<Vec<LinkNode>, AllocError>
    ensures { IfOk result (λ nodes. hashes_of nodes.items ≡ hashes.now) }
{
    let mut nodes = Vec::with_capacity(alloc, hashes.len())?;
    for hash in hashes {
        nodes.push_reserved(LinkNode {
            hash: *hash,
            link: 0,
        });
    }
    Ok(nodes)
}

// Links all nodes anew under heads that name none.
fn relink(heads: &mut [u32], nodes: &mut [LinkNode])
    requires some { 0 < length heads.old }
    requires few { length heads.old ≤ 2 ^ 32 }
    requires empty { heads.old ≡ replicate (length heads.old) 0 }
    requires numbers { length nodes.old < 2 ^ 32 - 1 }
    ensures hashes { hashes_of nodes.new ≡ hashes_of nodes.old }
    ensures linked { AreLinked heads.new (links_of nodes.new) (buckets_of (length heads.new) (hashes_of nodes.new)) }
{
    for number in 0..nodes.len() {
        let bucket = bucket_of(nodes[number].hash, heads.len());
        nodes[number].link = heads[bucket];
        heads[bucket] = number as u32 + 1;
    }
}
