//! Closing a round.
ghost use Rattle.std.specs.Prelude.{◌≡◌, length, IfOk, IfErr, vec_capacity};
ghost use Rattle.std.specs.Slots.{slots_items, IsFull};
ghost use Rattle.relay_claims.specs.Seat.{IsSeatOf};
ghost use Rattle.relay_claims.specs.Closing.{IsChainWithRoom, AddsChain, Closes, HasClosing};

use super::{CloseFault, Round};
use crate::seat::Seat;
use atomic_table::Closed;
use std::alloc::Global;

// Adds the places of the list that the word `first` leads through.
fn push_chain(closed: &Closed<(), Global>, heads: usize, first: u64, places: &mut Vec<usize>)
    requires full { IsFull closed.now.words }
    requires chain { IsChainWithRoom heads (slots_items closed.now.words) first (length places.old.items) (vec_capacity places.old) }
    ensures chain { AddsChain heads (slots_items closed.now.words) first places.old.items places.new.items }
    ensures room { vec_capacity places.new ≡ vec_capacity places.old }
{
    let mut next = first;
    while next != 0 {
        let i = (next - 1) as usize;
        places.push_reserved(i);
        next = closed.word(1 + heads + i);
    }
}

impl<'k> Round<'k> {
    /// Ends the round, and gives the places that hold keys, in rising order.
    ///
    /// Where the seat is the one of `open`, with all others joined into it, and each drawn place was claimed, these places have each offered key once.
    /// It needs memory for one `usize` for each offered key, and is refused only where there is none. It sorts the places.
    pub fn close(self, alloc: Global, seat: Seat) -> Result<Vec<usize>, CloseFault<'k>>
        requires { IsSeatOf self seat }
        ensures ok { IfOk result (λ v. Closes seat v.items) }
        ensures fault { IfErr result (λ f. (f.round ≡ self.entry) × (f.seat ≡ seat)) }
    {
        let Ok(mut places) = Vec::with_capacity(alloc, self.keys.len()) else {
            return Err(CloseFault { round: self, seat });
        };
        let Round {
            keys: _,
            heads,
            cut: _,
            table,
        } = self;
        let Seat { token } = seat;
        let closed = table.close_with(token);
        for bucket in 0..heads {
            push_chain(&closed, heads, closed.word(1 + bucket), &mut places);
        }
        closed.free();
        places.sort_unstable();
        Ok(places)
    }

    /// Ends the round without a walk over its places, and without memory: for callers who kept the places that they won.
    ///
    /// Where the seat is the one of `open`, with all others joined into it, those are the places that `close` would give.
    pub fn end(self, seat: Seat)
        requires { IsSeatOf self seat }
        ensures { HasClosing seat }
    {
        let Round {
            keys: _,
            heads: _,
            cut: _,
            table,
        } = self;
        let Seat { token } = seat;
        let ended = table.close_with(token);
        ended.free();
    }
}
