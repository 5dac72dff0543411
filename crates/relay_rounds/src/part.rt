//! One worker's part of the settled keys.
ghost use Rattle.std.specs.Prelude.{◌≡◌, ◌<◌, Bool, [], false, IfOk};
ghost use Rattle.relay_rounds.specs.Blocks.{AreBlocks};
ghost use Rattle.relay_rounds.specs.Shards.{home_of, AreAtHome, Grows, HasTaken};

use crate::block::BLOCK;
use crate::shard::Shard;
use relay_chains::Key;
use std::alloc::{AllocError, Global};

/// The keys of a shard.
#[derive(Drop)]
pub(crate) struct Part {
    pub(crate) alloc: Global,
    pub(crate) shard: Shard,
    /// Whether there was no memory for a key.
    pub(crate) refused: bool,
}

/// The place of a key's part among so many.
pub(crate) fn home_of(key: Key, parts: usize) -> usize
    requires { 0 < parts }
    ensures value { result ≡ home_of parts key }
    ensures below { result < parts }
{
    let block = key / BLOCK;
    if parts == 1 {
        return 0;
    }
    // This is asked for each offered key. A remainder by a constant takes a cycle or two, and one by a variable some twenty.
    if parts == 4 {
        return (block % 4) as usize;
    }
    (block % parts as u64) as usize
}

impl Part {
    pub(crate) fn new(alloc: Global, salt: u64) -> Result<Part, AllocError>
        ensures { IfOk result (λ part. (part.shard ≡ []) × (part.refused ≡ false)) }
    {
        Ok(Part {
            alloc,
            shard: Shard::new(alloc, salt)?,
            refused: false,
        })
    }

    // Adds a key.
    fn add(&mut self, key: Key)
        ensures { self.new.refused ≡ false → (self.old.refused ≡ false) × ((new : Bool) × Grows self.old.shard key new self.new.shard) }
    {
        if self.shard.insert(self.alloc, key).is_err() {
            self.refused = true;
        }
    }

    /// Adds those of the keys that belong here.
    pub(crate) fn add_own(&mut self, keys: &[Key], place: usize, parts: usize)
        requires parts { 0 < parts }
        requires lawful { AreBlocks self.old.shard }
        requires home { AreAtHome parts place self.old.shard }
        ensures { HasTaken keys.now parts place self.old self.new }
    {
        for key in keys {
            if home_of(*key, parts) == place {
                self.add(*key);
            }
        }
    }
}
