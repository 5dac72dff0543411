//! Where a worker waits before it works.

/// Is entered by a worker just before the first claim of a piece, in each round anew.
///
/// The pieces of a round are numbered from 0. A test sees by it which pieces are worked on at once; `enter` may wait, and has to return.
pub trait Gate: Sync {
    fn enter(&self, piece: usize);
}

/// A gate that does nothing.
pub struct NoGate;

impl Gate for NoGate {
    fn enter(&self, piece: usize) {
        let _ = piece;
    }
}
