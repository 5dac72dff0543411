//! One thread's part in a round.
ghost use Rattle.std.specs.Prelude.{◌≡◌, ◌+◌, ◌-◌, ◌++◌, ◌<◌, ◌≤◌, ℕ, Bool, List, [], ◌∷◌, false, length, vec_len, vec_capacity};
ghost use Rattle.relay_claims.specs.Counting.{times, IsIn};
ghost use Rattle.relay_claims.specs.Settled.{places_of};
ghost use Rattle.relay_claims.specs.Seat.{IsSeatOf, AreHalves, first_half, second_half, joined};
ghost use Rattle.relay_rounds.specs.Winners.{HasKept, HasClaimedAll, IsClaiming, ClaimsAll};

use crate::gate::Gate;
use relay_chains::Key;
use relay_claims::{Claim, Round, Seat};
use std::alloc::Global;

/// A seat, and the keys that were won with it.
#[derive(Drop)]
pub(crate) struct Worker {
    pub(crate) alloc: Global,
    pub(crate) seat: Seat,
    pub(crate) won: Vec<Key>,
    /// Whether there was no memory for keys that were won. They are claimed all the same, and then lost.
    pub(crate) refused: bool,
}

impl Worker {
    // Makes room for so many keys.
    fn reserve(&mut self, keys: usize)
        ensures seat { self.new.seat ≡ self.old.seat }
        ensures won { self.new.won.items ≡ self.old.won.items }
        ensures room { self.new.refused ≡ false → (self.old.refused ≡ false) × (vec_len self.new.won + keys ≤ vec_capacity self.new.won) }
    {
        if self.won.reserve(keys).is_err() {
            self.refused = true;
        }
    }

    // Keeps a key.
    fn keep(&mut self, key: Key)
        requires { self.old.refused ≡ false → vec_len self.old.won < vec_capacity self.old.won }
        ensures seat { self.new.seat ≡ self.old.seat }
        ensures refused { self.new.refused ≡ self.old.refused }
        ensures won { self.new.refused ≡ false → self.new.won.items ≡ self.old.won.items ++ key ∷ [] }
        ensures room { self.new.refused ≡ false → vec_capacity self.new.won ≡ vec_capacity self.old.won }
    {
        if !self.refused {
            self.won.push_reserved(key);
        }
    }

    // Claims a place, and keeps its key where it is won.
    fn claim(&mut self, round: &Round, keys: &[Key], j: usize)
        requires own { IsSeatOf round.now self.old.seat }
        requires drawn { IsIn j self.old.seat.drawn }
        requires fresh { times j (places_of self.old.seat.settled) ≡ 0 }
        requires within { j < length keys.now }
        requires kept { HasKept keys.now self.old.seat self.old.refused self.old.won.items }
        requires room { self.old.refused ≡ false → vec_len self.old.won < vec_capacity self.old.won }
        ensures others { self.new.seat ≡ record self.old.seat { settled = self.new.seat.settled; claim_tries = self.new.seat.claim_tries } }
        ensures places { (x : ℕ) → times x (places_of self.new.seat.settled) ≡ times x (places_of self.old.seat.settled) + times x (j ∷ []) }
        ensures refused { self.new.refused ≡ self.old.refused }
        ensures kept { HasKept keys.now self.new.seat self.new.refused self.new.won.items }
        ensures room { self.new.refused ≡ false → (vec_len self.new.won ≤ vec_len self.old.won + 1) × (vec_capacity self.new.won ≡ vec_capacity self.old.won) }
    {
        match round.claim(&mut self.seat, j) {
            Claim::Won => self.keep(keys[j]),
            Claim::Held(_) => {}
        }
    }

    // Claims the places from start up to end.
    fn claim_piece(&mut self, round: &Round, keys: &[Key], start: usize, end: usize)
        requires own { IsSeatOf round.now self.old.seat }
        requires within { end ≤ length keys.now }
        requires left { IsClaiming start end self.old.seat }
        requires kept { HasKept keys.now self.old.seat self.old.refused self.old.won.items }
        requires room { self.old.refused ≡ false → vec_len self.old.won + (end - start) ≤ vec_capacity self.old.won }
        ensures claimed { HasClaimedAll self.new.seat }
        ensures same { (self.new.seat.round ≡ self.old.seat.round) × (self.new.seat.position ≡ self.old.seat.position) × (self.new.seat.seen ≡ self.old.seat.seen) }
        ensures kept { HasKept keys.now self.new.seat self.new.refused self.new.won.items }
    {
        for j in start..end {
            self.claim(round, keys, j);
        }
    }

    /// Draws and claims until no piece is left, and enters the gate before each piece. A piece is so many keys.
    pub(crate) fn work<G: Gate>(&mut self, round: &Round, keys: &[Key], cut: usize, gate: &G)
        requires own { IsSeatOf round.now self.old.seat }
        requires keys { round.now.keys ≡ keys.now }
        requires cut { 1 ≤ cut }
        requires claimed { HasClaimedAll self.old.seat }
        requires kept { HasKept keys.now self.old.seat self.old.refused self.old.won.items }
        ensures rest { ClaimsAll self.old.seat self.new.seat }
        ensures kept { HasKept keys.now self.new.seat self.new.refused self.new.won.items }
    {
        while let Some(piece) = round.draw(&mut self.seat) {
            gate.enter(piece.start / cut);
            self.reserve(piece.end - piece.start);
            self.claim_piece(round, keys, piece.start, piece.end);
        }
    }

    /// Two in place of one. What was won stays with the first.
    pub(crate) fn split(self, round: &Round) -> (Worker, Worker)
        requires { IsSeatOf round.now self.seat }
        ensures first { (result.0.seat ≡ first_half self.seat) × (result.0.refused ≡ self.refused) × (result.0.won.items ≡ self.won.items) }
        ensures second { (result.1.seat ≡ second_half self.seat) × (result.1.refused ≡ false) × (result.1.won.items ≡ []) }
    {
        let Worker {
            alloc,
            seat,
            won,
            refused,
        } = self;
        let (first, second) = round.split(seat);
        let other = Worker {
            alloc,
            seat: second,
            won: Vec::new(alloc),
            refused: false,
        };
        let worker = Worker {
            alloc,
            seat: first,
            won,
            refused,
        };
        (worker, other)
    }

    /// One in place of the two halves of a split, in that order.
    pub(crate) fn join(round: &Round, first: Worker, second: Worker) -> Worker
        requires own { IsSeatOf round.now first.seat × IsSeatOf round.now second.seat }
        requires halves { (p : List Bool) × AreHalves p first.seat second.seat }
        ensures seat { result.seat ≡ joined first.seat second.seat }
        ensures won { result.refused ≡ false → (first.refused ≡ false) × (second.refused ≡ false) × (result.won.items ≡ first.won.items ++ second.won.items) }
    {
        let Worker {
            alloc,
            seat,
            mut won,
            refused,
        } = first;
        let Worker {
            alloc: _,
            seat: other,
            won: more,
            refused: too,
        } = second;
        let full = won.extend_from_slice(more.as_slice()).is_err();
        Worker {
            alloc,
            seat: round.join(seat, other),
            won,
            refused: refused || too || full,
        }
    }
}
