//! The rounds.
ghost use Rattle.std.specs.Prelude.{◌≡◌, ◌<◌, ◌≤◌, ◌-◌, ◌^◌, length, All, IfOk, Err};
ghost use Rattle.relay_rounds.specs.Closures.{IsClosureOf, HasMoreReached};

use crate::alone::Alone;
use crate::crew::Crew;
use crate::fault::ReachFault;
use crate::gate::Gate;
use crate::kept::Kept;
use crate::settled::Settled;
use crate::settling::settle;
use crate::steps::Steps;
use crate::winning::winners;
use relay_chains::Key;
use std::mem;
use std::thread::Threads;

// Whether one thread alone would work on so many keys.
fn is_for_one(workers: usize, keys: usize, cut: usize) -> bool {
    workers == 1 || keys <= cut
}

/// All keys that some chain of steps from a root ends in, ascending, each once. A root is reached by a chain of no steps.
///
/// The threads of the crew share a round, but no more than it has pieces; a piece is so many offered keys as one of them takes at once. Many
/// keys of an answer are sorted by as many threads as there are processors.
/// `roots` may name a key more than once.
/// Time of a round grows with the keys that it offers, and not with the bound of the steps. 64 keys one after another take
/// about 40 bytes once one of them is settled, and no more where all are. A round of one piece, or of one worker, takes no table
/// and no thread.
///
/// `TooManyPairs` comes exactly where more than `limit` keys are reached, however often each is offered. `Memory` comes
/// only where a growth was refused, once all threads have ended.
pub fn reach<S: Steps, G: Gate, R: Threads + Sync>(
    crew: &Crew<G, R>,
    steps: &S,
    roots: &[Key],
    limit: usize,
) -> Result<Vec<Key>, ReachFault>
    requires roots { All (λ key. key < S.key_bound steps.now) roots.now }
    requires limit { limit ≤ 2 ^ 32 - 2 }
    ensures closure { IfOk result (λ keys. IsClosureOf (S.next_keys steps.now) roots.now keys.items) }
    ensures within { IfOk result (λ keys. length keys.items ≤ limit) }
    ensures refused { result ≡ Err ReachFault.TooManyPairs → HasMoreReached (S.next_keys steps.now) roots.now limit }
{
    let Crew {
        rt,
        alloc,
        workers,
        cut,
        salt,
        gate,
    } = *crew;
    let mut settled = Settled::new(alloc, workers, salt)?;
    let mut offered = Vec::from_slice(alloc, roots)?;
    let mut kept = Kept::new(alloc);
    let mut next = Vec::new(alloc);
    let alone = Alone {
        steps,
        gate,
        cut,
        limit,
    };
    'rounds: while !offered.is_empty() {
        if is_for_one(workers, offered.len(), cut) {
            next.clear();
            alone.round(offered.as_slice(), &mut settled, &mut next)?;
            mem::swap(&mut offered, &mut next);
            continue;
        }
        let new = winners(crew, &settled, &offered, &mut kept)?;
        offered.clear();
        settled = settle(crew, steps, &new, limit, settled, &mut offered)?;
    }
    let keys = settled.ascending(rt)?;
    Ok(keys)
}
