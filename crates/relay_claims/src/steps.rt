//! The rule of a round's table, and what each atomic step tells its seat. These types are for the proofs alone.
use crate::view::{Offer, View};
use atomic_table::{Join, Play, Split, TableRule};
use std::marker::{Brand, PhantomData};

// The words are lawful, whatever the seats do.
pub struct Claims;

impl<'k> TableRule<(), View, Offer<'k>> for Claims {
    ghost use Rattle.std.specs.Prelude.{[]};
    ghost use Rattle.relay_claims.specs.Lawful.{Lawful};
    ghost use Rattle.relay_claims.specs.View.{new_view};

    ghost holds = { λ o. Lawful o.keys.now o.heads o.cut };

    ghost first = { λ o. new_view o.keys.now o.heads o.cut [] 0 };
}

// Which place a claim is for: a step sees a word's number, and the head of a bucket does not tell the place.
pub trait Aim {
    ghost use Rattle.std.specs.Prelude.{ℕ};

    ghost place: { ℕ };
}

impl Aim for Brand {
    ghost place = { 0 };
}

// A claim begins: a head is loaded.
pub(crate) struct SeeHead<J> {
    aim: PhantomData<J>,
}

impl<J: Aim> Play<(), View> for SeeHead<J> {
    ghost use Rattle.relay_claims.specs.Steps.{saw_head};

    ghost then = { saw_head J.place };
}

// A place's link is loaded, and its key compared.
pub(crate) struct SeeLink;

impl Play<(), View> for SeeLink {
    ghost use Rattle.relay_claims.specs.Steps.{saw_link};

    ghost then = { saw_link };
}

// The head that was found is stored in the link of the seat's own place.
pub(crate) struct StoreLink;

impl Play<(), View> for StoreLink {
    ghost use Rattle.relay_claims.specs.Steps.{stored_link};

    ghost then = { stored_link };
}

// The head is exchanged for the seat's own place, where it is still the one that was found.
pub(crate) struct TryHead;

impl Play<(), View> for TryHead {
    ghost use Rattle.relay_claims.specs.Steps.{tried_head};

    ghost then = { tried_head };
}

// A draw begins: the ticket is loaded.
pub(crate) struct SeeTicket;

impl Play<(), View> for SeeTicket {
    ghost use Rattle.relay_claims.specs.Steps.{found_ticket};

    ghost then = { found_ticket };
}

// The ticket is exchanged for the next one, where it is still the one that was found.
pub(crate) struct TryTicket;

impl Play<(), View> for TryTicket {
    ghost use Rattle.relay_claims.specs.Steps.{tried_ticket};

    ghost then = { tried_ticket };
}

// A seat is split in two, and two are joined.
pub(crate) struct Halves;

impl Split<View> for Halves {
    ghost use Rattle.relay_claims.specs.View.{left_view, right_view};

    ghost left = { left_view };

    ghost right = { right_view };
}

impl Join<View> for Halves {
    ghost use Rattle.relay_claims.specs.View.{both_views, spent_view};

    ghost both = { both_views };

    ghost spent = { spent_view };
}
