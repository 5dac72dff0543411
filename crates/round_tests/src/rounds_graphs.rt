//! Graphs to search.
ghost use Rattle.std.specs.Prelude.{◌+◌, ◌*◌, ◌/◌, ◌%◌, ◌^◌, ◌∷◌, [], cond, nat_eq, min, length, slice_index};
ghost use Rattle.std.proofs.Common.{rules};
ghost use Rattle.std.proofs.lemmas.Grind.{common_steps};

use relay_rounds::{Key, Steps};

/// A key below ten leads to its double and to the third key after it, modulo ten.
pub(crate) struct Tenths;

impl Steps for Tenths {
    ghost key_bound = { λ _. 10 };

    ghost next_keys = { λ _ k. 2 * k % 10 ∷ ((k + 3) % 10 ∷ []) };

    ghost stays_below = { Prim.search (rules, common_steps) };

    fn bound(&self) -> u64 {
        10
    }

    fn count(&self, _key: Key) -> usize {
        2
    }

    fn at(&self, key: Key, i: usize) -> Key {
        if i == 0 { 2 * key % 10 } else { (key + 3) % 10 }
    }
}

/// 0 leads to 1 three times, and 1 nowhere.
pub(crate) struct Thrice;

impl Steps for Thrice {
    ghost key_bound = { λ _. 2 };

    ghost next_keys = { λ _ k. cond (nat_eq k 0) (1 ∷ 1 ∷ 1 ∷ []) [] };

    ghost stays_below = { Prim.search (rules, common_steps) };

    fn bound(&self) -> u64 {
        2
    }

    fn count(&self, key: Key) -> usize {
        if key == 0 { 3 } else { 0 }
    }

    fn at(&self, _key: Key, _i: usize) -> Key {
        1
    }
}

/// A key above 0 leads to its half.
pub(crate) struct Halves;

impl Steps for Halves {
    ghost key_bound = { λ _. 2 ^ 40 };

    ghost next_keys = { λ _ k. cond (nat_eq k 0) [] (k / 2 ∷ []) };

    ghost stays_below = { Prim.search (rules, common_steps) };

    fn bound(&self) -> u64 {
        1 << 40
    }

    fn count(&self, key: Key) -> usize {
        if key == 0 { 0 } else { 1 }
    }

    fn at(&self, key: Key, _i: usize) -> Key {
        key / 2
    }
}

/// A key leads to the next one, up to the last.
#[derive(Drop)]
pub(crate) struct Path {
    pub(crate) keys: u32,
}

impl Steps for Path {
    ghost key_bound = { λ s. s.keys };

    ghost next_keys = { λ s k. cond (nat_eq (k + 1) s.keys) [] ((k + 1) ∷ []) };

    ghost stays_below = { Prim.search (rules, common_steps) };

    fn bound(&self) -> u64 {
        self.keys as u64
    }

    fn count(&self, key: Key) -> usize {
        let keys = self.keys as u64;
        if key + 1 == keys { 0 } else { 1 }
    }

    fn at(&self, key: Key, _i: usize) -> Key {
        let _keys = self.keys;
        key + 1
    }
}

/// A key leads to three others, of which many are alike.
#[derive(Drop)]
pub(crate) struct Wide {
    pub(crate) keys: u32,
}

impl Steps for Wide {
    ghost key_bound = { λ s. s.keys };

    ghost next_keys = { λ s k. (2 * k + 1) % s.keys ∷ ((2 * k + 2) % s.keys ∷ (3 * k % s.keys ∷ [])) };

    ghost stays_below = { Prim.search (rules, common_steps) };

    fn bound(&self) -> u64 {
        self.keys as u64
    }

    fn count(&self, _key: Key) -> usize {
        3
    }

    fn at(&self, key: Key, i: usize) -> Key {
        let keys = self.keys as u64;
        if i == 0 {
            (2 * key + 1) % keys
        } else if i == 1 {
            (2 * key + 2) % keys
        } else {
            3 * key % keys
        }
    }
}

/// The key k leads to `first[k]` and to `second[k]`, each modulo the number of keys.
#[derive(Drop)]
pub(crate) struct Arrows<'a> {
    pub(crate) first: &'a [Key],
    pub(crate) second: &'a [Key],
}

impl<'a> Steps for Arrows<'a> {
    ghost key_bound = { λ s. min (length s.first.now) (length s.second.now) };

    ghost next_keys = { λ s k. slice_index s.first.now k % min (length s.first.now) (length s.second.now)
        ∷ (slice_index s.second.now k % min (length s.first.now) (length s.second.now) ∷ []) };

    ghost stays_below = { Prim.search (rules, common_steps) };

    fn bound(&self) -> u64 {
        self.first.len().min(self.second.len()) as u64
    }

    fn count(&self, _key: Key) -> usize {
        2
    }

    fn at(&self, key: Key, i: usize) -> Key {
        let keys = self.first.len().min(self.second.len()) as u64;
        if i == 0 {
            self.first[key as usize] % keys
        } else {
            self.second[key as usize] % keys
        }
    }
}
