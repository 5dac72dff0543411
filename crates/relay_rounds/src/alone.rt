//! A round that one thread works on: nothing is claimed, since nobody else could win a key.

/// What is looked for, and how much is done at once.
#[derive(Drop)]
pub(crate) struct Alone<'a, S, G> {
    pub(crate) steps: &'a S,
    pub(crate) gate: &'a G,
    /// How many keys a piece has.
    pub(crate) cut: usize,
    /// How many keys may be settled.
    pub(crate) limit: usize,
}

ghost use Rattle.std.specs.Prelude.{◌≡◌, ◌<◌, ◌≤◌, ◌-◌, ◌^◌, ℕ, [], ◌⊎◌, length, All, Contains, OnOk, Err};
ghost use Rattle.relay_rounds.specs.Searches.{IsMet, IsTooFar, Settles};

use crate::fault::ReachFault;
use crate::gate::Gate;
use crate::settled::Settled;
use crate::steps::Steps;
use relay_chains::Key;

/// Settles a key, and puts its next keys behind those that are offered, where it is new.
fn settle_one<S: Steps>(
    steps: &S,
    key: Key,
    limit: usize,
    settled: &mut Settled,
    offered: &mut Vec<Key>,
) -> Result<(), ReachFault>
    requires within { length settled.old ≤ limit }
    requires limit { limit ≤ 2 ^ 32 - 2 }
    requires key { key < S.key_bound steps.now }
    ensures met { OnOk result (IsMet (S.next_keys steps.now) limit key settled.old settled.new offered.old.items offered.new.items) }
    ensures refused { result ≡ Err ReachFault.TooManyPairs → (Contains settled.old key → ⊥) × (length settled.old ≡ limit) }
{
    if settled.len() == limit {
        if settled.contains(key) {
            return Ok(());
        }
        return Err(ReachFault::TooManyPairs);
    }
    if settled.insert(key)? {
        steps.append(key, offered)?;
    }
    Ok(())
}

impl<S: Steps, G: Gate> Alone<'_, S, G> {
    /// Settles the keys of a round, piece after piece, and offers their next keys to the next round.
    pub(crate) fn round(
        &self,
        keys: &[Key],
        settled: &mut Settled,
        offered: &mut Vec<Key>,
    ) -> Result<(), ReachFault>
        requires cut { 1 ≤ self.now.cut }
        requires below { All (λ key. key < S.key_bound self.now.steps.now) keys.now }
        requires within { length settled.old ≤ self.now.limit }
        requires limit { self.now.limit ≤ 2 ^ 32 - 2 }
        requires none { offered.old.items ≡ [] }
        ensures settles { OnOk result (Settles (S.next_keys self.now.steps.now) (S.key_bound self.now.steps.now) self.now.limit settled.old keys.now settled.new offered.new.items) }
        ensures refused { result ≡ Err ReachFault.TooManyPairs → IsTooFar (S.next_keys self.now.steps.now) settled.old keys.now self.now.limit }
    {
        let mut left = 0;
        for (place, key) in keys.iter().enumerate() {
            if left == 0 {
                self.gate.enter(place / self.cut);
                left = self.cut;
            }
            left -= 1;
            settle_one(self.steps, *key, self.limit, settled, offered)?;
        }
        Ok(())
    }
}
