//! One round of claims.
ghost use Rattle.std.specs.Prelude.{◌≡◌, ◌≤◌, ◌^◌, not, filter, IfOk, OnOk};
ghost use Rattle.relay_rounds.specs.Searches.{AreDistinctOf, AreNewOf};
ghost use Rattle.relay_rounds.specs.Shards.{is_there};

use crate::crew::Crew;
use crate::gate::Gate;
use crate::kept::Kept;
use crate::settled::Settled;
use crate::shares::share_len;
use crate::spread::heads_from;
use crate::worker::Worker;
use crate::workers::work_all;
use rayon::prelude::*;
use relay_chains::Key;
use relay_claims::Round;
use std::alloc::AllocError;
use std::mem;
use std::thread::Threads;

// How many heads a round of so many keys takes: between three quarters as many and as many.
fn heads_for(keys: usize, salt: u64) -> usize
    ensures some { 1 ≤ result }
    ensures few { result ≤ 2 ^ 32 }
{
    heads_from((keys / 2).min(2147483647), salt)
}

// Wins each offered key once, by as many threads as the crew has, but no more than there are pieces.
fn claim_all<G: Gate, R: Threads + Sync>(
    crew: &Crew<G, R>,
    keys: &[Key],
    kept: &mut Kept,
) -> Result<(), AllocError>
    ensures { OnOk result (AreDistinctOf keys.now kept.new.won.items) }
{
    let heads = heads_for(keys.len(), crew.salt);
    let count = 1 + heads + keys.len();
    kept.zeros.grow(count)?;
    let zeros = kept.zeros.first(count);
    let (round, seat) = Round::open_of(kept.alloc, keys, heads, crew.cut, zeros)?;
    let workers = crew.workers.min(round.pieces());
    kept.won.clear();
    let alone = Worker {
        alloc: kept.alloc,
        seat,
        won: mem::replace(&mut kept.won, Vec::new(kept.alloc)),
        refused: false,
    };
    let worker = work_all(crew, &round, alone, keys, workers);
    let Worker {
        alloc: _,
        seat,
        won,
        refused,
    } = worker;
    round.end(seat);
    kept.won = won;
    if refused {
        return Err(AllocError);
    }
    Ok(())
}

// Those of the keys that aren't settled, in their order: each thread of the crew looks a share of them up.
fn unsettled<G, R: Threads + Sync>(
    crew: &Crew<G, R>,
    settled: &Settled,
    keys: &[Key],
) -> Result<Vec<Key>, AllocError>
    ensures { IfOk result (λ new. new.items ≡ filter (λ key. not (is_there settled.now key)) keys.now) }
{
    keys.par_iter()
        .with_min_len(share_len(keys.len(), crew.workers))
        .copied()
        .filter(
            |key: &Key| -> bool
                ensures { result ≡ not (is_there settled.entry.now key.now) }
            { !settled.contains(*key) },
        )
        .collect(crew.rt, crew.alloc)
}

/// Each offered key that isn't settled, once: of those that are won, for the settled keys are only read.
pub(crate) fn winners<G: Gate, R: Threads + Sync>(
    crew: &Crew<G, R>,
    settled: &Settled,
    keys: &[Key],
    kept: &mut Kept,
) -> Result<Vec<Key>, AllocError>
    ensures { IfOk result (λ new. AreNewOf settled.now keys.now new.items) }
{
    claim_all(crew, keys, kept)?;
    unsettled(crew, settled, kept.won.as_slice())
}
