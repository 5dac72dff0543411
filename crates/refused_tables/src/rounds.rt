//! The keys that can be reached.
ghost use Rattle.std.specs.Prelude.{◌+◌, ◌*◌, ◌%◌, ◌≤◌, ◌^◌, ◌-◌, ◌∷◌, []};
ghost use Rattle.std.proofs.Common.{rules};
ghost use Rattle.std.proofs.lemmas.Grind.{common_steps};

use growth_answers::{Answer, Teller, case, twice};
use relay_rounds::{Crew, Key, NoGate, ReachFault, Steps, reach};
use std::alloc::Global;
use std::thread::Threads;

/// A key below ten leads to its double and to the third key after it, modulo ten.
struct Tenths;

impl Steps for Tenths {
    ghost key_bound = { λ _. 10 };

    ghost next_keys = { λ _ k. 2 * k % 10 ∷ ((k + 3) % 10 ∷ []) };

    ghost stays_below = { Prim.search (rules, common_steps) };

    fn bound(&self) -> u64 {
        10
    }

    fn count(&self, _key: Key) -> usize {
        2
    }

    fn at(&self, key: Key, i: usize) -> Key {
        if i == 0 { 2 * key % 10 } else { (key + 3) % 10 }
    }
}

/// What a search from 1 by two workers answers, where so many keys may be reached.
fn reached<R: Threads + Sync>(rt: &R, alloc: Global, limit: usize) -> Result<Vec<Key>, ReachFault>
    requires { limit ≤ 2 ^ 32 - 2 }
{
    let crew = Crew {
        rt,
        alloc,
        workers: 2,
        cut: 1,
        salt: 0,
        gate: &NoGate,
    };
    reach(&crew, &Tenths, &[1, 1], limit)
}

fn reaches_all<R: Threads + Sync>(rt: &R, alloc: Global) -> Answer {
    match reached(rt, alloc, 10) {
        Ok(keys) => Answer::given(keys.as_slice() == [0, 1, 2, 3, 4, 5, 6, 7, 8, 9].as_slice()),
        Err(ReachFault::Memory) => Answer::Refused,
        Err(ReachFault::TooManyPairs) => Answer::Wrong,
    }
}

fn reaches_too_many<R: Threads + Sync>(rt: &R, alloc: Global) -> Answer {
    match reached(rt, alloc, 9) {
        Ok(_) => Answer::Wrong,
        Err(ReachFault::Memory) => Answer::Refused,
        Err(ReachFault::TooManyPairs) => Answer::Right,
    }
}

pub(crate) fn tell<R: Print + AllocGlobal + Threads + Sync>(teller: &mut Teller<'_, R>) {
    let rt = teller.rt;
    let alloc = rt.alloc();
    case!(teller, "reach", Ok(twice!(reaches_all(rt, alloc))));
    case!(
        teller,
        "reach, too many keys",
        Ok(twice!(reaches_too_many(rt, alloc)))
    );
}
