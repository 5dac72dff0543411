//! Steps from key to key.
ghost use Rattle.std.specs.Prelude.{◌≡◌, ℕ, ◌<◌, ◌++◌, List, length, All, slice_get, Some, OnOk};

use relay_chains::Key;
use std::alloc::AllocError;

/// Names for each key below a bound the list of its next keys.
///
/// The calls answer alike for as long as a `reach` over them runs, from whatever thread. A list may name a key more than once, and its own key.
pub trait Steps: Sync {
    ghost key_bound: { Self → ℕ };

    ghost next_keys: { Self → ℕ → List ℕ };

    /// All keys lie below it.
    fn bound(&self) -> u64
        ensures { result ≡ key_bound self.now };

    /// How many next keys a key has.
    fn count(&self, key: Key) -> usize
        requires { key < key_bound self.now }
        ensures { result ≡ length (next_keys self.now key) };

    /// The next key at a place in the list.
    fn at(&self, key: Key, i: usize) -> Key
        requires key { key < key_bound self.now }
        requires index { i < length (next_keys self.now key) }
        ensures { slice_get (next_keys self.now key) i ≡ Some result };

    /// Puts the next keys of a key behind those that are there.
    ///
    /// An implementation that has them at hand as a row may write its own, so that the row is looked up once.
    fn append(&self, key: Key, next: &mut Vec<Key>) -> Result<(), AllocError>
        requires { key < key_bound self.now }
        ensures { OnOk result (next.new.items ≡ next.old.items ++ next_keys self.now key) }
    {
        for i in 0..self.count(key) {
            next.push(self.at(key, i))?;
        }
        Ok(())
    }

    // No step leads out of the bound.
    ghost stays_below: { (steps : Self) → (key : ℕ) → key < key_bound steps → All (λ next. next < key_bound steps) (next_keys steps key) };
}
