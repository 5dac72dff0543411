//! Threads that draw and claim until nothing is left.
ghost use Rattle.std.specs.Prelude.{◌≡◌, ◌≤◌, IfSome, IsSome};
ghost use Rattle.std.specs.Thread.{IsSync};
ghost use Rattle.relay_claims.specs.Seat.{IsSeatOf};
ghost use Rattle.relay_rounds.specs.Winners.{HasKept, HasClaimedAll, ClaimsAll};

use crate::crew::Crew;
use crate::gate::Gate;
use crate::shares::share_of;
use crate::worker::Worker;
use relay_chains::Key;
use relay_claims::Round;
use std::thread::{Threads, join_mut};

/// So many threads, this one among them, draw and claim, each as a worker of its own. These come back as one.
///
/// Where a thread can't be started, its work is done in this one.
pub(crate) fn work_all<G: Gate, R: Threads + Sync>(
    crew: &Crew<G, R>,
    round: &Round,
    mut worker: Worker,
    keys: &[Key],
    workers: usize,
) -> Worker
    requires own { IsSeatOf round.now worker.seat }
    requires keys { round.now.keys ≡ keys.now }
    requires claimed { HasClaimedAll worker.seat }
    requires kept { HasKept keys.now worker.seat worker.refused worker.won.items }
    ensures rest { ClaimsAll worker.seat result.seat }
    ensures kept { HasKept keys.now result.seat result.refused result.won.items }
{
    if workers <= 1 {
        worker.work(round, keys, crew.cut, crew.gate);
        return worker;
    }
    let share = share_of(workers);
    let rest = workers - share;
    let (first, second) = worker.split(round);
    let mut one = Some(first);
    let mut two = Some(second);
    join_mut(
        crew.rt,
        &mut ||
            requires { IsSync R.row × IsSync G.row × (round.now.keys ≡ keys.now) × IfSome one (λ w. IsSeatOf round.now w.seat × HasClaimedAll w.seat × HasKept keys.now w.seat w.refused w.won.items) × IsSome one }
            ensures { IfSome one.exit (λ w. IfSome one.entry (λ v. ClaimsAll v.seat w.seat) × HasKept keys.entry.now w.seat w.refused w.won.items) × IsSome one.exit }
        {
            let worker = one.take().unwrap();
            one = Some(work_all(crew, round, worker, keys, share));
        },
        &mut ||
            requires { IsSync R.row × IsSync G.row × (round.now.keys ≡ keys.now) × IfSome two (λ w. IsSeatOf round.now w.seat × HasClaimedAll w.seat × HasKept keys.now w.seat w.refused w.won.items) × IsSome two }
            ensures { IfSome two.exit (λ w. IfSome two.entry (λ v. ClaimsAll v.seat w.seat) × HasKept keys.entry.now w.seat w.refused w.won.items) × IsSome two.exit }
        {
            let worker = two.take().unwrap();
            two = Some(work_all(crew, round, worker, keys, rest));
        },
    );
    Worker::join(round, one.unwrap(), two.unwrap())
}
