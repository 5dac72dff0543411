//! Making, splitting and joining seats.
ghost use Rattle.std.specs.Prelude.{◌≡◌, ◌+◌, ◌<◌, ◌≤◌, ◌^◌, Bool, List, [], length, replicate, IfOk};
ghost use Rattle.relay_claims.specs.Seat.{IsSeatOf, AreHalves, newcomer, first_half, second_half, joined};

use super::Round;
use crate::Key;
use crate::seat::Seat;
use crate::steps::Halves;
use crate::view::Offer;
use atomic_table::Table;
use std::alloc::{AllocError, Global};

impl<'k> Round<'k> {
    /// A round in which nothing is drawn, and its one seat.
    ///
    /// `heads` is the number of lists that the keys are spread over, by their remainder, and `cut` that of the places in a piece.
    /// It takes 8 bytes for each head and each key, and as much again until it returns.
    pub fn open(
        alloc: Global,
        keys: &'k [Key],
        heads: usize,
        cut: usize,
    ) -> Result<(Round<'k>, Seat), AllocError>
        requires heads { (1 ≤ heads) × (heads ≤ 2 ^ 32) }
        requires cut { 1 ≤ cut }
        ensures round { IfOk result (λ r. (r.0.keys ≡ keys.now) × (r.0.heads ≡ heads) × (r.0.cut ≡ cut)) }
        ensures seat { IfOk result (λ r. r.1 ≡ newcomer r.0 [] 0) }
    {
        let zeros = vec![in alloc; 0; 1 + heads + keys.len()]?;
        Round::open_of(alloc, keys, heads, cut, zeros.as_slice())
    }

    /// The same, where the caller has zeros at hand: one, and one for each head and each key. A caller who opens round after round
    /// keeps them.
    pub fn open_of(
        alloc: Global,
        keys: &'k [Key],
        heads: usize,
        cut: usize,
        zeros: &[u64],
    ) -> Result<(Round<'k>, Seat), AllocError>
        requires heads { (1 ≤ heads) × (heads ≤ 2 ^ 32) }
        requires cut { 1 ≤ cut }
        requires zeros { zeros.now ≡ replicate (1 + heads + length keys.now) 0 }
        ensures round { IfOk result (λ r. (r.0.keys ≡ keys.now) × (r.0.heads ≡ heads) × (r.0.cut ≡ cut)) }
        ensures seat { IfOk result (λ r. r.1 ≡ newcomer r.0 [] 0) }
    {
        let about = Offer { keys, heads, cut };
        let (table, token) = Table::of_words(alloc, zeros, &about)?;
        Ok((
            Round {
                keys,
                heads,
                cut,
                table,
            },
            Seat { token },
        ))
    }

    /// Two seats in place of one. What was drawn and claimed stays with the first.
    pub fn split(&self, seat: Seat) -> (Seat, Seat)
        requires { IsSeatOf self.now seat }
        ensures first { result.0 ≡ first_half seat }
        ensures second { result.1 ≡ second_half seat }
    {
        let Seat { mut token } = seat;
        let other = self.table.shared.split_seat::<Halves>(&mut token);
        (Seat { token }, Seat { token: other })
    }

    /// One seat in place of the two halves of a split, in that order. It has what both have drawn and claimed.
    pub fn join(&self, first: Seat, second: Seat) -> Seat
        requires own { IsSeatOf self.now first × IsSeatOf self.now second }
        requires halves { (p : List Bool) × AreHalves p first second }
        ensures { result ≡ joined first second }
    {
        let Seat { mut token } = first;
        let Seat { token: other } = second;
        self.table.shared.join_seat::<Halves>(&mut token, other);
        Seat { token }
    }
}
