//! Drawing pieces.
ghost use Rattle.std.specs.Prelude.{◌≡◌, ℕ, ◌+◌, ◌-◌, ◌*◌, ◌<◌, ◌≤◌, min, ◌++◌, length, IfSome, IfNone};
ghost use Rattle.relay_claims.specs.Counting.{times, span};
ghost use Rattle.relay_claims.specs.Round.{piece_count};
ghost use Rattle.relay_claims.specs.Seat.{IsSeatOf};

use super::Round;
use crate::seat::Seat;
use crate::steps::{SeeTicket, TryTicket};
use std::ops::Range;

impl<'k> Round<'k> {
    /// The number of pieces that `draw` gives in all.
    pub fn pieces(&self) -> usize
        ensures { result ≡ piece_count self.now }
    {
        let whole = self.keys.len() / self.cut;
        if self.keys.len() % self.cut == 0 {
            whole
        } else {
            whole + 1
        }
    }

    /// The next piece of places, or `None` where all were drawn.
    ///
    /// Each piece has `cut` places, the last one perhaps fewer, and goes to one seat alone. It takes no memory and no lock, and tries at most one exchange for each piece.
    pub fn draw(&self, seat: &mut Seat) -> Option<Range<usize>>
        requires { IsSeatOf self.now seat.old }
        ensures own { IsSeatOf self.now seat.new }
        ensures others { seat.new ≡ record seat.old { drawn = seat.new.drawn; seen = seat.new.seen; draw_tries = seat.new.draw_tries } }
        ensures later { seat.old.seen ≤ seat.new.seen }
        ensures tries { seat.new.draw_tries ≤ piece_count self.now }
        ensures none { IfNone result ((seat.new.drawn ≡ seat.old.drawn) × (seat.new.seen ≡ piece_count self.now)) }

        // It is the piece of some ticket t, no lower than all that the seat saw.
        ensures piece { IfSome result (λ r. (t : ℕ) × (seat.old.seen ≤ t) × (t < piece_count self.now) × (seat.new.seen ≡ t + 1)
            × (r.start ≡ t * self.now.cut) × (r.end ≡ r.start + min self.now.cut (length self.now.keys - r.start))
            × (r.start < length self.now.keys)) }
        ensures drawn { IfSome result (λ r. seat.new.drawn ≡ seat.old.drawn ++ span r.start (r.end - r.start)) }
        ensures fresh { IfSome result (λ r. (x : ℕ) → r.start ≤ x → times x seat.old.drawn ≡ 0) }
    {
        let pieces = self.pieces() as u64;
        let shared = &self.table.shared;
        let mut ticket = shared.load::<SeeTicket>(&mut seat.token, 0);
        while ticket < pieces {
            let found = shared.compare_exchange::<TryTicket>(
                &mut seat.token,
                0,
                ticket,
                ticket + 1,
            );
            if found == ticket {
                let start = ticket as usize * self.cut;
                let len = self.cut.min(self.keys.len() - start);
                return Some(start..start + len);
            }
            ticket = found;
        }
        None
    }
}
