//! A growing set of keys.
ghost use Rattle.std.specs.Prelude.{◌≡◌, ◌≤◌, ◌-◌, ◌^◌, ◌++◌, [], IfOk, OnOk, OnErr};
ghost use Rattle.relay_rounds.specs.Blocks.{keys_of};
ghost use Rattle.relay_rounds.specs.Shards.{is_there, Grows};

use crate::bits::{has_bit, with_bit};
use crate::block::{BLOCK, Block};
use crate::spread::heads_from;
use relay_chains::{Chains, Key};
use std::alloc::{AllocError, Global};
use std::marker::Model;

// As many blocks as can be numbered.
const LIMIT: usize = 4294967294;

// Odd, so that blocks that are multiples of a power of two spread.
const FIRST_HEADS: usize = 15;

/// Distinct keys, as bits: a block of 64 keys has a number in the chains, and its word stands at that number. It takes 28
/// bytes for each block that has a key. Contracts see the blocks in the order in which they came.
#[derive(Drop)]
pub(crate) struct Shard {
    chains: Chains,
    heads: usize,
    salt: u64,
    words: Vec<u64>,
}

impl Model for Shard {
    ghost use Rattle.std.specs.Prelude.{List};
    ghost use Rattle.relay_rounds.specs.declared.block.Block.{Block};
    ghost use Rattle.relay_rounds.specs.Blocks.{blocks_of, IsShard};

    ghost Value = { List Block };

    ghost view = { λ s. blocks_of s.chains.keys s.words.items };

    ghost invariant = { λ s. IsShard s.heads s.chains.limit s.chains.keys s.words.items };
}

// The same blocks under so many heads.
fn rebuilt(alloc: Global, chains: &Chains, heads: usize) -> Result<Chains, AllocError>
    requires heads { 1 ≤ heads }
    requires wide { chains.now.limit ≡ 2 ^ 32 - 2 }
    ensures keys { IfOk result (λ grown. grown.keys ≡ chains.now.keys) }
    ensures wide { IfOk result (λ grown. grown.limit ≡ 2 ^ 32 - 2) }
{
    let mut grown = Chains::new(alloc, heads, LIMIT)?;
    for number in 0..chains.len() {
        let Some(key) = chains.get(number as u32) else {
            return Err(AllocError);
        };
        let answer = grown.insert(key);
        if answer.is_err() {
            return Err(AllocError);
        }
    }
    Ok(grown)
}

impl Shard {
    pub(crate) fn new(alloc: Global, salt: u64) -> Result<Shard, AllocError>
        ensures { IfOk result (λ shard. shard ≡ []) }
    {
        let chains = Chains::new(alloc, FIRST_HEADS, LIMIT)?;
        Ok(Shard {
            chains,
            heads: FIRST_HEADS,
            salt,
            words: Vec::new(alloc),
        })
    }

    pub(crate) fn contains(&self, key: Key) -> bool
        ensures { result ≡ is_there (keys_of self.now) key }
    {
        match self.chains.find(key / BLOCK) {
            Some(number) => has_bit(self.words[number as usize], key % BLOCK),
            None => false,
        }
    }

    // Makes more heads, at least half as many again, where there are as many blocks as heads.
    fn make_room(&mut self, alloc: Global) -> Result<(), AllocError>
        ensures { self.new ≡ self.old }
    {
        if self.chains.len() < self.heads {
            return Ok(());
        }
        let heads = heads_from(self.heads + self.heads / 2, self.salt);
        self.chains = rebuilt(alloc, &self.chains, heads)?;
        self.heads = heads;
        Ok(())
    }

    /// Adds a key, and says whether it is new.
    pub(crate) fn insert(&mut self, alloc: Global, key: Key) -> Result<bool, AllocError>
        ensures ok { IfOk result (λ new. Grows self.old key new self.new) }
        ensures err { OnErr result (self.new ≡ self.old) }
    {
        self.make_room(alloc)?;
        self.words.reserve(1)?;
        let Ok((number, new)) = self.chains.insert(key / BLOCK) else {
            return Err(AllocError);
        };
        if new {
            self.words.push_reserved(with_bit(0, key % BLOCK));
            return Ok(true);
        }
        let word = self.words[number as usize];
        if has_bit(word, key % BLOCK) {
            return Ok(false);
        }
        self.words[number as usize] = with_bit(word, key % BLOCK);
        Ok(true)
    }

    /// Puts its blocks behind what is there.
    pub(crate) fn push_blocks(&self, blocks: &mut Vec<Block>) -> Result<(), AllocError>
        ensures { OnOk result (blocks.new.items ≡ blocks.old.items ++ self.now) }
    {
        for at in 0..self.chains.len() {
            let Some(number) = self.chains.get(at as u32) else {
                unreachable!()
            };
            let word = self.words[at];
            blocks.push(Block { number, word })?;
        }
        Ok(())
    }
}
