//! The keys of a round: they are settled, and their next keys are offered to the next round.
ghost use Rattle.std.specs.Prelude.{◌≡◌, ◌≢◌, ◌<◌, ◌≤◌, ◌+◌, ◌-◌, ◌^◌, ℕ, List, [], ◌∷◌, ◌++◌, length, flat_map, All, AllPairs, Contains, OnOk, IfOk, Err};
ghost use Rattle.relay_rounds.specs.Searches.{GoesOn, Advances, Settles, IsTooFar};
ghost use Rattle.relay_rounds.specs.Shards.{AreBothOf};

use crate::crew::Crew;
use crate::expanding::next_keys;
use crate::fault::ReachFault;
use crate::settled::Settled;
use crate::steps::Steps;
use relay_chains::Key;
use std::thread::Threads;

/// Settles the new keys of a round.
pub(crate) fn settle<S: Steps, G, R: Threads + Sync>(
    crew: &Crew<G, R>,
    steps: &S,
    new: &[Key],
    limit: usize,
    settled: Settled,
    offered: &mut Vec<Key>,
) -> Result<Settled, ReachFault>
    requires below { All (λ key. key < S.key_bound steps.now) new.now }
    requires distinct { AllPairs (λ a b. a ≢ b) new.now }
    requires fresh { (key : ℕ) → Contains new.now key → Contains settled key → ⊥ }
    requires within { length settled ≤ limit }
    requires limit { limit ≤ 2 ^ 32 - 2 }
    requires none { offered.old.items ≡ [] }
    ensures settles { IfOk result (λ now. Settles (S.next_keys steps.now) (S.key_bound steps.now) limit settled new.now now offered.new.items) }
    ensures refused { result ≡ Err ReachFault.TooManyPairs → IsTooFar (S.next_keys steps.now) settled new.now limit }
{
    if new.len() > limit - settled.len() {
        return Err(ReachFault::TooManyPairs);
    }
    let now = settled.with(crew.rt, new)?;
    next_keys(crew, steps, new, offered)?;
    Ok(now)
}
