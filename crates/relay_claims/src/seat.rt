//! A seat, with which one thread at a time takes part in a round.
use crate::view::View;
use std::marker::Model;

// A token of a round's table, whose view is what its owner has done there.
pub(crate) type Token = atomic_table::Seat<(), View>;

/// One thread's part in a round.
///
/// It takes no memory, and may go to another thread between two calls.
/// Contracts see it as the round that it is of, its place in the tree of splits, the places that it has drawn, the claims that it has settled, and the number of pieces that it has seen drawn by anyone.
/// What a seat has drawn and not claimed is lost to the round when the seat is dropped: no other seat gets it.
#[derive(Drop)]
pub struct Seat {
    pub(crate) token: Token,
}

impl Model for Seat {
    ghost use Rattle.relay_claims.specs.Seat.{Progress, shown, IsIdle};

    ghost Value = { Progress };

    ghost view = { λ s. shown s.token.table_id s.token.me.0 };

    ghost invariant = { λ s. IsIdle s.token.me };
}
