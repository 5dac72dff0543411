//! A round of claims.
mod claiming;
mod closing;
mod drawing;
mod seating;

use crate::Key;
use crate::seat::Seat;
use crate::steps::Claims;
use crate::view::{Offer, View};
use atomic_table::Table;
use std::alloc::Global;
use std::marker::Model;

/// What a claim found.
#[derive(Clone, Copy, Debug, PartialEq, Eq)]
pub enum Claim {
    /// No other place had the key. From now on this one holds it.
    Won,
    /// This other place holds the key.
    Held(usize),
}

/// Offered keys, each of which is to be held by one place.
///
/// Contracts see it as its name, which no other round has, the offered keys, the number of heads and that of places in a piece.
#[derive(Drop)]
pub struct Round<'k> {
    keys: &'k [Key],
    heads: usize,
    cut: usize,
    table: Table<(), View, Offer<'k>, Claims, Global>,
}

impl<'k> Model for Round<'k> {
    ghost use Rattle.relay_claims.specs.Round.{Terms, IsTableFor};

    ghost Value = { Terms };

    ghost view = { λ r. record { name = r.table.shared.table_id; keys = r.keys.now; heads = r.heads; cut = r.cut } };

    ghost invariant = { λ r. IsTableFor r.keys.now r.heads r.cut r.table.shared.table_id r.table.shared.key };
}

/// There was no memory for the places. The round and the seat are as they were, and may be closed again.
#[derive(Drop)]
pub struct CloseFault<'k> {
    pub round: Round<'k>,
    pub seat: Seat,
}
