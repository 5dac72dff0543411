//! Graphs to search.
ghost use Rattle.std.specs.Prelude.{◌+◌, ◌*◌, ◌%◌, ◌∷◌, [], cond, nat_lt};
ghost use Rattle.std.proofs.Common.{rules};
ghost use Rattle.std.proofs.lemmas.Grind.{common_steps};

use relay_rounds::{Key, Steps};

/// A key leads to the next one, up to the last; they stand so far apart.
#[derive(Drop)]
pub struct Path {
    pub keys: u32,
    pub apart: u32,
}

impl Steps for Path {
    ghost key_bound = { λ s. s.keys * s.apart };

    ghost next_keys = { λ s k. cond (nat_lt (k + s.apart) (s.keys * s.apart)) ((k + s.apart) ∷ []) [] };

    ghost stays_below = { Prim.search (rules, common_steps) };

    fn bound(&self) -> u64 {
        self.keys as u64 * self.apart as u64
    }

    fn count(&self, key: Key) -> usize {
        let bound = self.keys as u64 * self.apart as u64;
        if key + (self.apart as u64) < bound {
            1
        } else {
            0
        }
    }

    fn at(&self, key: Key, _i: usize) -> Key {
        let _keys = self.keys;
        key + self.apart as u64
    }
}

/// A key leads to four others, all over the graph.
#[derive(Drop)]
pub struct Wide {
    pub keys: u32,
}

impl Steps for Wide {
    ghost key_bound = { λ s. s.keys };

    ghost next_keys = { λ s k. (2 * k + 1) % s.keys ∷ ((2 * k + 2) % s.keys ∷ ((2654435 * k + 7) % s.keys ∷ (1597334 * k % s.keys ∷ []))) };

    ghost stays_below = { Prim.search (rules, common_steps) };

    fn bound(&self) -> u64 {
        self.keys as u64
    }

    fn count(&self, _key: Key) -> usize {
        4
    }

    fn at(&self, key: Key, i: usize) -> Key {
        let keys = self.keys as u64;
        match i {
            0 => (2 * key + 1) % keys,
            1 => (2 * key + 2) % keys,
            2 => (2654435 * key + 7) % keys,
            _ => 1597334 * key % keys,
        }
    }
}
