//! Distinct texts, which are found by their hashes.
//!
//! All texts stand one after another in one vector of bytes, and where each ends in another. A text is found by its hash, with its
//! number, and is read only where the 32 bits of its hash agree with the sought one's.
ghost use Rattle.std.specs.Prelude.{◌≡◌, ◌≢◌, ◌==◌, ◌^◌, ◌-◌, ◌≤◌, ◌<◌, [], ◌∷◌, length, map, slice_get, slice_index, slice_index_or, option_copied, IfOk, Some, None, Err, AllPairs};
ghost use Rattle.std.specs.Str.{bytes_eq};
ghost use Rattle.relay_chains.specs.Interner.{texts_from, AreCut};
ghost use Rattle.relay_chains.specs.Keys.{insertion, number_of, Inserts};
ghost use Rattle.relay_chains.specs.TextHash.{text_hash};

use crate::fault::ChainFault;
use crate::links::Links;
use crate::text_hash::{TextKey, hash_text};
use relay_text::same_bytes;
use std::alloc::{AllocError, Global};
use std::marker::Model;

/// A list of distinct texts, of any bytes, numbered from 0 up in the order in which they came.
///
/// A call hashes its text once, under the key, and walks the chain of one bucket from its newest node to the text's own, if there is one:
/// two or three nodes where the hashes spread. Who chooses the texts and knows the key can put them all in one bucket, and then a call
/// may walk all of them: where texts come from strangers, take a key that is drawn at random. Memory is 4 bytes for
/// each head, which are doubled when there are half as many texts, 16 for each text and the texts' own bytes, which grow by doubling.
pub struct Interner {
    links: Links,
    ends: Vec<usize>,
    bytes: Vec<u8>,
    key: TextKey,
    limit: usize,
}

// Written out: what becomes of a derived drop's parts is followed in each proof that has such a value to its end.
impl Drop for Interner {
    fn drop(self) {
        let Interner {
            links: _,
            ends: _,
            bytes: _,
            key: _,
            limit: _,
        } = self;
    }
}

impl Model for Interner {
    ghost use Rattle.std.specs.Prelude.{ℕ, List};
    ghost use Rattle.relay_chains.specs.KeyLimits.{KeyLimits};
    ghost use Rattle.relay_chains.specs.Interner.{texts_from, AreInterned};

    ghost Value = { KeyLimits (List ℕ) };

    ghost view = { λ a. record { keys = texts_from a.bytes.items 0 a.ends.items; limit = a.limit } };

    ghost invariant = { λ a. AreInterned a.links a.bytes.items a.ends.items a.key a.limit };
}

impl Interner {
    /// No texts yet, and at most `limit` of them ever; `limit` may be 0. They are hashed under the key. Only the heads take memory now.
    pub fn new(
        alloc: Global,
        key: TextKey,
        heads: usize,
        limit: usize,
    ) -> Result<Interner, AllocError>
        requires heads { 1 ≤ heads }
        requires limit { limit ≤ 2 ^ 32 - 2 }
        ensures { IfOk result (λ set. set ≡ record { keys = []; limit = limit }) }
    {
        Ok(Interner {
            links: Links::new(alloc, heads)?,
            ends: Vec::new(alloc),
            bytes: Vec::new(alloc),
            key,
            limit,
        })
    }

    /// The number of a text, and whether it's new. A new text is copied, and gets the next number.
    ///
    /// A text that is there answers even where the set is full, and takes no memory. `Full` is for a new text where there
    /// are `limit` texts, and `Memory` for a new text alone: the set is as it was then, and the text may be tried again.
    pub fn intern(&mut self, text: &[u8]) -> Result<(u32, bool), ChainFault>
        ensures inserts { Inserts (insertion bytes_eq self.old.keys self.old.limit text.now) self.old.keys result self.new.keys }
        ensures limit { self.new.limit ≡ self.old.limit }
        ensures memory_for_new { result ≡ Err ChainFault.Memory → number_of bytes_eq self.old.keys text.now ≡ None }
        ensures memory_within { result ≡ Err ChainFault.Memory → length self.old.keys < self.old.limit }
    {
        let hash = hash_text(self.key, text);
        if let Some(number) = search(&self.links, &self.ends, &self.bytes, self.key, hash, text) {
            return Ok((number, false));
        }
        let number = self.ends.len();
        if number == self.limit {
            return Err(ChainFault::Full);
        }
        self.ends.reserve(1)?;
        let start = self.bytes.len();
        self.bytes.extend_from_slice(text)?;
        let Ok(()) = self.links.push(hash) else {
            self.bytes.truncate(start);
            return Err(ChainFault::Memory);
        };
        let end = self.bytes.len();
        self.ends.push_reserved(end);
        Ok((number as u32, true))
    }

    /// The number of a text, or `None` where it isn't there. Takes no memory.
    pub fn find(&self, text: &[u8]) -> Option<u32>
        ensures { result ≡ number_of bytes_eq self.now.keys text.now }
    {
        let hash = hash_text(self.key, text);
        search(&self.links, &self.ends, &self.bytes, self.key, hash, text)
    }

    /// The text of a number, or `None` where no text has that number yet.
    pub fn text(&self, number: u32) -> Option<&[u8]>
        ensures { option_copied result ≡ slice_get self.now.keys number }
    {
        if (number as usize) < self.ends.len() {
            Some(text_at(&self.ends, &self.bytes, number))
        } else {
            None
        }
    }

    /// How many texts there are, which is also the number that the next new text gets.
    pub fn len(&self) -> usize
        ensures count { result ≡ length self.now.keys }
        ensures within { length self.now.keys ≤ self.now.limit }
        ensures distinct { AllPairs (λ a b. a ≢ b) self.now.keys }
    {
        self.ends.len()
    }

    pub fn is_empty(&self) -> bool
        ensures { result ≡ (length self.now.keys == 0) }
    {
        self.ends.is_empty()
    }
}

// Where a text begins.
fn start_of(ends: &[usize], number: usize) -> usize
    requires { number < length ends.now }
    ensures { result ≡ slice_index (0 ∷ ends.now) number }
{
    if number == 0 { 0 } else { ends[number - 1] }
}

// The text of a number.
fn text_at<'a>(ends: &[usize], bytes: &'a [u8], number: u32) -> &'a [u8]
    requires cut { AreCut bytes.now ends.now }
    requires below { number < length ends.now }
    ensures { slice_get (texts_from bytes.now 0 ends.now) number ≡ Some result.now }
{
    let number = number as usize;
    &bytes[start_of(ends, number)..ends[number]]
}

// Is this the text of a number?
fn is_text_at(ends: &[usize], bytes: &[u8], number: u32, text: &[u8]) -> bool
    requires cut { AreCut bytes.now ends.now }
    requires below { number < length ends.now }
    ensures { result ≡ bytes_eq text.now (slice_index_or (texts_from bytes.now 0 ends.now) number []) }
{
    same_bytes(text, text_at(ends, bytes, number))
}

// The number of a text with this hash.
fn search(
    links: &Links,
    ends: &[usize],
    bytes: &[u8],
    key: TextKey,
    hash: u32,
    text: &[u8],
) -> Option<u32>
    requires cut { AreCut bytes.now ends.now }
    requires hashed { links.now ≡ map (text_hash key) (texts_from bytes.now 0 ends.now) }
    requires hash { hash ≡ text_hash key text.now }
    requires distinct { AllPairs (λ a b. a ≢ b) (texts_from bytes.now 0 ends.now) }
    ensures { result ≡ number_of bytes_eq (texts_from bytes.now 0 ends.now) text.now }
{
    links.find_last(
        hash,
        |number: u32| -> bool
            requires cut { AreCut bytes.now ends.now }
            requires below { number < length ends.now }
            ensures { result ≡ bytes_eq text.entry.now (slice_index_or (texts_from bytes.entry.now 0 ends.entry.now) number []) }
        { is_text_at(ends, bytes, number, text) },
    )
}
