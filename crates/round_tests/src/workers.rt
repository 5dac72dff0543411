//! Threads that draw and claim all there is, as a user of the crate would write them.
ghost use Rattle.std.specs.Prelude.{◌≡◌, ◌+◌, ◌-◌, ℕ, ◌≤◌, IfSome, IsSome};
ghost use Rattle.std.specs.Thread.{IsSync};
ghost use Rattle.relay_claims.specs.Counting.{times, span};
ghost use Rattle.relay_claims.specs.Settled.{places_of};
ghost use Rattle.relay_claims.specs.Seat.{IsSeatOf};
ghost use Rattle.relay_claims.specs.Work.{HasClaimedAll, ClaimsTheRest};

use relay_claims::{Round, Seat};
use std::thread::{Threads, join_mut};

// Claims the places from start up to end, which alone of the drawn ones are not claimed.
fn claim_piece(round: &Round, seat: &mut Seat, start: usize, end: usize)
    requires own { IsSeatOf round.now seat.old }
    requires once { (x : ℕ) → start ≤ x → times x seat.old.drawn ≤ 1 }
    requires left { (x : ℕ) → times x (places_of seat.old.settled) + times x (span start (end - start)) ≡ times x seat.old.drawn }
    ensures claimed { HasClaimedAll seat.new }
    ensures same { (seat.new.round ≡ seat.old.round) × (seat.new.position ≡ seat.old.position) × (seat.new.seen ≡ seat.old.seen) }
{
    for j in start..end {
        round.claim(seat, j);
    }
}

// Draws and claims until no piece is left.
fn work(round: &Round, seat: &mut Seat)
    requires own { IsSeatOf round.now seat.old }
    requires claimed { HasClaimedAll seat.old }
    ensures { ClaimsTheRest seat.old seat.new }
{
    while let Some(piece) = round.draw(seat) {
        claim_piece(round, seat, piece.start, piece.end);
    }
}

fn done(round: &Round, mut seat: Seat) -> Seat
    requires own { IsSeatOf round.now seat }
    requires claimed { HasClaimedAll seat }
    ensures { ClaimsTheRest seat result }
{
    work(round, &mut seat);
    seat
}

// So many threads draw and claim, each with a seat of its own. The seats come back as one.
pub fn work_all<R: Threads + Sync>(rt: &R, round: &Round, seat: Seat, workers: usize) -> Seat
    requires sync { IsSync R.row }
    requires own { IsSeatOf round.now seat }
    requires claimed { HasClaimedAll seat }
    ensures { ClaimsTheRest seat result }
{
    if workers <= 1 {
        return done(round, seat);
    }
    let half = workers / 2;
    let rest = workers - half;
    let (first, second) = round.split(seat);
    let mut one = Some(first);
    let mut two = Some(second);
    join_mut(
        rt,
        &mut ||
            requires { IsSync R.row × IfSome one (λ s. IsSeatOf round.now s × HasClaimedAll s) × IsSome one }
            ensures { IfSome one.exit (λ s. IfSome one.entry (λ t. ClaimsTheRest t s)) × IsSome one.exit }
        {
            let seat = one.take().unwrap();
            one = Some(work_all(rt, round, seat, half));
        },
        &mut ||
            requires { IsSync R.row × IfSome two (λ s. IsSeatOf round.now s × HasClaimedAll s) × IsSome two }
            ensures { IfSome two.exit (λ s. IfSome two.entry (λ t. ClaimsTheRest t s)) × IsSome two.exit }
        {
            let seat = two.take().unwrap();
            two = Some(work_all(rt, round, seat, rest));
        },
    );
    round.join(one.unwrap(), two.unwrap())
}
