ghost use Rattle.std.specs.Prelude.{◌≡◌, ◌-◌, ◌∷◌, [], ◌++◌};
ghost use Rattle.std.specs.Thread.{IsSync};
ghost use Rattle.relay_claims.specs.Counting.{times, span, IsIn};
ghost use Rattle.relay_claims.specs.Settled.{places_of};
ghost use Rattle.relay_claims.specs.Seat.{IsSeatOf};

use crate::workers::work_all;
use relay_claims::{Claim, CloseFault, Key, Round, Seat};
use std::alloc::{AllocError, Global};
use std::process::Abort;
use std::test::Fail;
use std::thread::{Threads, join, join_mut};

// Closes a round. Where there is no memory the first time, it closes what came back.
fn closed(alloc: Global, round: Round, seat: Seat) -> Result<Vec<usize>, AllocError>
    requires { IsSeatOf round seat }
{
    let CloseFault { round, seat } = match round.close(alloc, seat) {
        Ok(places) => return Ok(places),
        Err(fault) => fault,
    };
    round.close(alloc, seat).map_err(|_| AllocError)
}

// Closes a round, which has to give these places.
fn expect_closed(
    rt: &(impl Abort + AllocGlobal),
    round: Round,
    seat: Seat,
    wanted: &[usize],
) -> Result<(), AllocError>
    requires { IsSeatOf round seat }
{
    let places = closed(rt.alloc(), round, seat)?;
    assert_eq!(rt; places.as_slice(), wanted);
    Ok(())
}

// The next draw has to give the places from start up to end.
fn expect_piece(rt: &impl Abort, round: &Round, seat: &mut Seat, start: usize, end: usize)
    requires { IsSeatOf round.now seat.old }
    ensures own { IsSeatOf round.now seat.new }
    ensures position { seat.new.position ≡ seat.old.position }
    ensures settled { seat.new.settled ≡ seat.old.settled }
    ensures drawn { seat.new.drawn ≡ seat.old.drawn ++ span start (end - start) }
{
    let piece = round.draw(seat);
    assert_eq!(rt; piece, Some(start..end));
}

// No piece is left to draw.
fn expect_none(rt: &impl Abort, round: &Round, seat: &mut Seat)
    requires { IsSeatOf round.now seat.old }
    ensures own { IsSeatOf round.now seat.new }
    ensures settled { seat.new.settled ≡ seat.old.settled }
    ensures drawn { seat.new.drawn ≡ seat.old.drawn }
{
    let piece = round.draw(seat);
    assert_eq!(rt; piece, None);
}

// Draws four places, one at a time.
fn draw_four(rt: &impl Abort, round: &Round, seat: &mut Seat)
    requires { IsSeatOf round.now seat.old }
    ensures own { IsSeatOf round.now seat.new }
    ensures settled { seat.new.settled ≡ seat.old.settled }
    ensures drawn { seat.new.drawn ≡ seat.old.drawn ++ (0 ∷ 1 ∷ 2 ∷ 3 ∷ []) }
{
    expect_piece(rt, round, seat, 0, 1);
    expect_piece(rt, round, seat, 1, 2);
    expect_piece(rt, round, seat, 2, 3);
    expect_piece(rt, round, seat, 3, 4);
    expect_none(rt, round, seat);
}

// Claims four drawn places, of which two have one key.
fn claim_four(rt: &impl Abort, round: &Round, seat: &mut Seat)
    requires own { IsSeatOf round.now seat.old }
    requires drawn { seat.old.drawn ≡ (0 ∷ 1 ∷ 2 ∷ 3 ∷ []) }
    requires settled { seat.old.settled ≡ [] }
    ensures { IsSeatOf round.now seat.new }
{
    let claims = [
        round.claim(seat, 0),
        round.claim(seat, 1),
        round.claim(seat, 2),
        round.claim(seat, 3),
    ];
    assert_eq!(rt;
        claims,
        [Claim::Won, Claim::Won, Claim::Held(0), Claim::Won]
    );
}

#[test]
fn one_seat_claims_in_order(rt: HostRuntime) -> Result<(), Fail> {
    let keys = [5, 9, 5, 7];
    let (round, mut seat) = Round::open(rt.alloc(), &keys, 2, 1)?;
    draw_four(&rt, &round, &mut seat);
    claim_four(&rt, &round, &mut seat);
    expect_closed(&rt, round, seat, &[0, 1, 3])?;
    Ok(())
}

// The first seat draws the place 0, the second the places 1 and 2.
fn draw_both(rt: &impl Abort, round: &Round, one: &mut Seat, two: &mut Seat)
    requires own { IsSeatOf round.now one.old × IsSeatOf round.now two.old }
    requires idle { (one.old.drawn ≡ []) × (two.old.drawn ≡ []) }
    ensures own { IsSeatOf round.now one.new × IsSeatOf round.now two.new }
    ensures position { (one.new.position ≡ one.old.position) × (two.new.position ≡ two.old.position) }
    ensures settled { (one.new.settled ≡ one.old.settled) × (two.new.settled ≡ two.old.settled) }
    ensures drawn { (one.new.drawn ≡ (0 ∷ [])) × (two.new.drawn ≡ (1 ∷ 2 ∷ [])) }
{
    expect_piece(rt, round, one, 0, 1);
    expect_piece(rt, round, two, 1, 2);
    expect_piece(rt, round, two, 2, 3);
}

// The place that was won, of the places 0 and 2: it holds the key of both.
fn winner(rt: &impl Abort, a: Claim, b: Claim) -> usize {
    assert!(rt;
        (a == Claim::Won && b == Claim::Held(0)) || (a == Claim::Held(2) && b == Claim::Won)
    );
    if a == Claim::Won { 0 } else { 2 }
}

#[test]
fn two_seats_cross(rt: HostRuntime) -> Result<(), Fail> {
    let keys = [5, 9, 5, 7];
    let (round, seat) = Round::open(rt.alloc(), &keys, 2, 1)?;
    let (mut one, mut two) = round.split(seat);
    draw_both(&rt, &round, &mut one, &mut two);
    let (a, b) = join_mut(
        &rt,
        &mut || round.claim(&mut one, 0),
        &mut || round.claim(&mut two, 2),
    );
    let won = winner(&rt, a, b);
    let seat = round.join(one, two);
    expect_closed(&rt, round, seat, &[won])?;
    Ok(())
}

// Draws seven places in pieces of three.
fn draw_three(rt: &impl Abort, round: &Round, seat: &mut Seat)
    requires { IsSeatOf round.now seat.old }
{
    assert_eq!(rt; round.pieces(), 3);
    expect_piece(rt, round, seat, 0, 3);
    expect_piece(rt, round, seat, 3, 6);
    expect_piece(rt, round, seat, 6, 7);
    expect_none(rt, round, seat);
    expect_none(rt, round, seat);
}

#[test]
fn one_seat_draws_all(rt: HostRuntime) -> Result<(), Fail> {
    let keys = [1, 2, 3, 4, 5, 6, 7];
    let (round, mut seat) = Round::open(rt.alloc(), &keys, 2, 3)?;
    draw_three(&rt, &round, &mut seat);
    Ok(())
}

// The pieces that the seat draws in four draws, and (0, 0) for each None.
fn draws(round: &Round, seat: &mut Seat) -> [(usize, usize); 4]
    requires { IsSeatOf round.now seat.old }
{
    let mut pieces = [(0, 0); 4];
    for i in 0..4 {
        if let Some(piece) = round.draw(seat) {
            pieces[i] = (piece.start, piece.end);
        }
    }
    pieces
}

// Two seats' draws have to give three pieces in all, and none at last.
fn expect_all_drawn(rt: &impl Abort, a: [(usize, usize); 4], b: [(usize, usize); 4]) {
    let mut drawn = [a[0], a[1], a[2], b[0], b[1], b[2]];
    drawn.as_mut_slice().sort_unstable();
    assert_eq!(rt; drawn, [(0, 0), (0, 0), (0, 0), (0, 3), (3, 6), (6, 7)]);
    assert_eq!(rt; [a[3], b[3]], [(0, 0); 2]);
}

#[test]
fn two_seats_draw_all(rt: HostRuntime) -> Result<(), Fail> {
    let keys = [1, 2, 3, 4, 5, 6, 7];
    let (round, seat) = Round::open(rt.alloc(), &keys, 2, 3)?;
    let (mut one, mut two) = round.split(seat);
    let (a, b) = join(
        &rt,
        || -> [(usize, usize); 4]
            requires { IsSeatOf round one }
        { draws(&round, &mut one) },
        || -> [(usize, usize); 4]
            requires { IsSeatOf round two }
        { draws(&round, &mut two) },
    );
    expect_all_drawn(&rt, a, b);
    Ok(())
}

#[test]
fn no_key(rt: HostRuntime) -> Result<(), Fail> {
    let (round, mut seat) = Round::open(rt.alloc(), &[], 2, 3)?;
    expect_none(&rt, &round, &mut seat);
    expect_closed(&rt, round, seat, &[])?;
    Ok(())
}

// Claims the place 0 with the first round's seat, and the place 1 with the second's.
fn claim_in_both(first: &Round, one: &mut Seat, second: &Round, two: &mut Seat) -> (Claim, Claim)
    requires first { IsSeatOf first.now one.old × IsIn 0 one.old.drawn × (times 0 (places_of one.old.settled) ≡ 0) }
    requires second { IsSeatOf second.now two.old × IsIn 1 two.old.drawn × (times 1 (places_of two.old.settled) ≡ 0) }
    ensures first { IsSeatOf first.now one.new }
    ensures second { IsSeatOf second.now two.new }
{
    (first.claim(one, 0), second.claim(two, 1))
}

// Both rounds have one key at two places, of which each seat draws both and wins one.
fn win_in_both(rt: &impl Abort, first: &Round, one: &mut Seat, second: &Round, two: &mut Seat)
    requires first { IsSeatOf first.now one.old × (one.old.drawn ≡ []) × (one.old.settled ≡ []) }
    requires second { IsSeatOf second.now two.old × (two.old.drawn ≡ []) × (two.old.settled ≡ []) }
    ensures first { IsSeatOf first.now one.new }
    ensures second { IsSeatOf second.now two.new }
{
    expect_piece(rt, first, one, 0, 2);
    expect_piece(rt, second, two, 0, 2);
    let claims = claim_in_both(first, one, second, two);
    assert_eq!(rt; claims, (Claim::Won, Claim::Won));
}

#[test]
fn two_rounds_at_once(rt: HostRuntime) -> Result<(), Fail> {
    let keys = [5, 5];
    let (first, mut one) = Round::open(rt.alloc(), &keys, 1, 2)?;
    let (second, mut two) = Round::open(rt.alloc(), &keys, 1, 2)?;
    win_in_both(&rt, &first, &mut one, &second, &mut two);
    // The first one's error waits, so that no round is held where the test may end.
    let left = expect_closed(&rt, first, one, &[0]);
    expect_closed(&rt, second, two, &[1])?;
    left?;
    Ok(())
}

// A million keys, of which some 300,000 are distinct.
fn million(alloc: Global) -> Result<Vec<Key>, AllocError> {
    let mut keys = Vec::with_capacity(alloc, 1_000_000)?;
    for i in 0..1_000_000u64 {
        keys.push(i.wrapping_mul(0x9e37_79b9_7f4a_7c15) % 300_007)?;
    }
    Ok(keys)
}

// The keys that so many threads win, in rising order.
fn won_by<R: Threads + Sync>(
    rt: &R,
    alloc: Global,
    keys: &[Key],
    workers: usize,
) -> Result<Vec<Key>, AllocError>
    requires { IsSync R.row }
{
    let (round, seat) = Round::open(alloc, keys, 1 << 18, 1000)?;
    let seat = work_all(rt, &round, seat, workers);
    let mut won = Vec::new(alloc);
    for place in closed(alloc, round, seat)?.iter() {
        won.push(*keys.get(*place).unwrap_or(&0))?;
    }
    won.sort_unstable();
    Ok(won)
}

// Whether so many threads win each of a million keys once, as a sort says.
fn wins_each_once<R: Threads + Sync>(
    rt: &R,
    alloc: Global,
    workers: usize,
) -> Result<bool, AllocError>
    requires { IsSync R.row }
{
    let mut keys = million(alloc)?;
    let won = won_by(rt, alloc, keys.as_slice(), workers)?;
    keys.sort_unstable();
    keys.dedup();
    Ok(won.as_slice() == keys.as_slice())
}

#[test]
fn one_thread_claims_a_million_keys(rt: HostRuntime) -> Result<(), Fail> {
    assert!(rt; wins_each_once(&rt, rt.alloc(), 1)?);
    Ok(())
}

#[test]
fn two_threads_claim_a_million_keys(rt: HostRuntime) -> Result<(), Fail> {
    assert!(rt; wins_each_once(&rt, rt.alloc(), 2)?);
    Ok(())
}

#[test]
fn four_threads_claim_a_million_keys(rt: HostRuntime) -> Result<(), Fail> {
    assert!(rt; wins_each_once(&rt, rt.alloc(), 4)?);
    Ok(())
}

#[test]
fn eight_threads_claim_a_million_keys(rt: HostRuntime) -> Result<(), Fail> {
    assert!(rt; wins_each_once(&rt, rt.alloc(), 8)?);
    Ok(())
}
