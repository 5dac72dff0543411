//! Claiming a place.
ghost use Rattle.std.specs.Prelude.{◌≡◌, ◌≢◌, ℕ, ◌+◌, ◌<◌, ◌≤◌, ◌∷◌, [], false, true, ◌++◌, length, slice_index, IfSome, IfNone};
ghost use Rattle.relay_claims.specs.Counting.{times, IsIn};
ghost use Rattle.relay_claims.specs.Settled.{settled, places_of};
ghost use Rattle.relay_claims.specs.Seat.{IsSeatOf, IsTokenOf};
ghost use Rattle.relay_claims.specs.Claim.{holder_of, IsHeldElsewhere};
ghost use Rattle.relay_claims.specs.View.{claimed, settle, flight_at, no_flight};

use super::{Claim, Round};
use crate::seat::{Seat, Token};
use crate::steps::{Aim, SeeHead, SeeLink, StoreLink, TryHead};
use std::marker::Brand;

impl<'k> Round<'k> {
    // Goes down the list that the word `head` leads through. Gives the place that has the key of the place j, if there is one.
    fn scan(&self, token: &mut Token, j: usize, head: u64) -> Option<usize>
        requires own { IsTokenOf self.now token.old.table_id token.old.me.0 }
        requires begun { (token.old.me.0.spent ≡ false) × (token.old.me.0.flight ≡ flight_at j head head []) }
        requires low { (j < length self.now.keys) × (head ≤ length self.now.keys) }
        ensures own { (token.new.table_id ≡ token.old.table_id) × (token.new.id ≡ token.old.id) }
        ensures found { IfSome result (λ i. (token.new.me ≡ (settle j i token.old.me.0, token.old.me.1)) × (i < length self.now.keys)
            × (i ≢ j) × (slice_index self.now.keys i ≡ slice_index self.now.keys j)
            × (token.old.me.0.claim_tries ≤ length self.now.keys)) }
        ensures none { IfNone result (token.new.me ≡ (record token.old.me.0 { flight = flight_at j head 0 token.new.me.0.flight.scanned }, token.old.me.1)) }
    {
        let mut next = head;
        while next != 0 {
            let i = (next - 1) as usize;
            let link = self.table.shared.load::<SeeLink>(token, 1 + self.heads + i);
            if self.keys[i] == self.keys[j] {
                return Some(i);
            }
            next = link;
        }
        None
    }

    // Claims the place j, which the steps' types know as J.place. A try that finds another head begins again with that one.
    fn settle<J: Aim>(&self, token: &mut Token, j: usize) -> Claim
        requires own { IsTokenOf self.now token.old.table_id token.old.me.0 }
        requires idle { (token.old.me.0.spent ≡ false) × (token.old.me.0.flight ≡ no_flight) }
        requires mine { (j < length self.now.keys) × IsIn j token.old.me.0.drawn × (times j (claimed token.old.me.0) ≡ 0) }
        requires aim { j ≡ J.place }
        ensures own { (token.new.table_id ≡ token.old.table_id) × (token.new.id ≡ token.old.id) }
        ensures settled { token.new.me ≡ (settle j (holder_of j result) (record token.old.me.0 { claim_tries = token.new.me.0.claim_tries }), token.old.me.1) }
        ensures held { IsHeldElsewhere self.now.keys j result }
        ensures tries { token.new.me.0.claim_tries ≤ length self.now.keys }
    {
        let keys = self.keys;
        let bucket = 1 + (keys[j] % self.heads as u64) as usize;
        let shared = &self.table.shared;
        let mut head = shared.load::<SeeHead<J>>(token, bucket);
        'tries: loop {
            if let Some(i) = self.scan(token, j, head) {
                return Claim::Held(i);
            }
            shared.store::<StoreLink>(token, 1 + self.heads + j, head);
            let found = shared.compare_exchange::<TryHead>(token, bucket, head, j as u64 + 1);
            if found == head {
                return Claim::Won;
            }
            head = found;
        }
    }

    /// Claims the place `j`: its key is won here, or is held by a place that came first.
    ///
    /// It takes no memory and no lock, and tries at most one exchange for each offered key. A try fails only where another claim was won meanwhile.
    /// Its time grows with the number of keys that share a head: take about as many heads as there are keys to be won.
    pub fn claim(&self, seat: &mut Seat, j: usize) -> Claim
        requires own { IsSeatOf self.now seat.old }
        requires drawn { IsIn j seat.old.drawn }
        requires fresh { times j (places_of seat.old.settled) ≡ 0 }
        ensures own { IsSeatOf self.now seat.new }
        ensures others { seat.new ≡ record seat.old { settled = seat.new.settled; claim_tries = seat.new.claim_tries } }
        ensures settled { seat.new.settled ≡ seat.old.settled ++ settled j (holder_of j result) ∷ [] }
        ensures held { IsHeldElsewhere self.now.keys j result }
        ensures tries { seat.new.claim_tries ≤ length self.now.keys }
    {
        self.settle::<Brand>(&mut seat.token, j)
    }
}
