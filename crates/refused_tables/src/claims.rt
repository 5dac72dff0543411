//! Rounds of claims. Their keys are 5, 9, 5 and 7.
ghost use Rattle.std.specs.Prelude.{◌≡◌, []};
ghost use Rattle.relay_claims.specs.Seat.{IsSeatOf};

use growth_answers::{Answer, Seen, Teller, Unready, case, twice};
use relay_claims::{Claim, CloseFault, Key, Round, Seat};
use std::alloc::Global;
use std::ops::Range;

const KEYS: [Key; 4] = [5, 9, 5, 7];

fn opens(alloc: Global) -> Answer {
    match Round::open(alloc, &KEYS, 2, 1) {
        Ok((round, _seat)) => Answer::given(round.pieces() == 4),
        Err(_) => Answer::Refused,
    }
}

/// Whether a seat draws this piece next.
fn draws_piece(round: &Round, seat: &mut Seat, piece: Option<Range<usize>>) -> bool
    requires { IsSeatOf round.now seat.old }
    ensures own { IsSeatOf round.now seat.new }
    ensures position { seat.new.position ≡ seat.old.position }
{
    round.draw(seat) == piece
}

fn draws(alloc: Global) -> Result<Seen, Unready> {
    let (round, mut seat) = Round::open(alloc, &KEYS, 2, 3)?;
    let are_right = draws_piece(&round, &mut seat, Some(0..3))
        && draws_piece(&round, &mut seat, Some(3..4))
        && draws_piece(&round, &mut seat, None);
    Ok(Seen::at_once(Answer::given(are_right)))
}

/// Whether a seat that has drawn nothing draws all places, and finds at each what it ought.
fn claims_all(round: &Round, seat: &mut Seat) -> bool
    requires own { IsSeatOf round.now seat.old }
    requires drawn { seat.old.drawn ≡ [] }
    requires settled { seat.old.settled ≡ [] }
    ensures { IsSeatOf round.now seat.new }
{
    round.draw(seat) == Some(0..4)
        && round.claim(seat, 0) == Claim::Won
        && round.claim(seat, 1) == Claim::Won
        && round.claim(seat, 2) == Claim::Held(0)
        && round.claim(seat, 3) == Claim::Won
}

fn claims(alloc: Global) -> Result<Seen, Unready> {
    let (round, mut seat) = Round::open(alloc, &KEYS, 2, 4)?;
    Ok(Seen::at_once(Answer::given(claims_all(&round, &mut seat))))
}

/// Each half draws a piece, and what they become draws the rest.
fn splits_and_joins(alloc: Global) -> Result<Seen, Unready> {
    let (round, seat) = Round::open(alloc, &KEYS, 2, 2)?;
    let (mut one, mut two) = round.split(seat);
    let are_drawn = draws_piece(&round, &mut one, Some(0..2))
        & draws_piece(&round, &mut two, Some(2..4));
    let mut whole = round.join(one, two);
    let is_all = draws_piece(&round, &mut whole, None);
    Ok(Seen::at_once(Answer::given(are_drawn && is_all)))
}

fn are_places(places: &[usize]) -> Answer {
    Answer::given(places == [0, 1, 3].as_slice())
}

/// A refused call hands round and seat back, which are closed then.
fn closes(alloc: Global) -> Result<Seen, Unready> {
    let (round, mut seat) = Round::open(alloc, &KEYS, 2, 4)?;
    if !claims_all(&round, &mut seat) {
        return Err(Unready::Wrong);
    }
    let CloseFault { round, seat } = match round.close(alloc, seat) {
        Ok(places) => return Ok(Seen::at_once(are_places(&places))),
        Err(fault) => fault,
    };
    match round.close(alloc, seat) {
        Ok(places) => Ok(Seen::at_last(are_places(&places))),
        Err(_) => Ok(Seen::RefusedTwice),
    }
}

pub(crate) fn tell<R: Print + AllocGlobal>(teller: &mut Teller<'_, R>) {
    let alloc = teller.rt.alloc();
    case!(teller, "Round::open", Ok(twice!(opens(alloc))));
    case!(teller, "Round::draw", draws(alloc));
    case!(teller, "Round::claim", claims(alloc));
    case!(teller, "Round::split and join", splits_and_joins(alloc));
    case!(teller, "Round::close", closes(alloc));
}
