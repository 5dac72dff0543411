//! What a seat knows, as the proofs carry it along. No value of these types is made but an `Offer`.
use crate::Key;
use std::collections::LinkedList;

/// A claimed place, and the place that holds its key: the same one where the claim was won.
pub struct Settled {
    pub place: u64,
    pub holder: u64,
}

/// The claim that a seat is making.
///
/// A word of a head or a link is 0, or one more than the place that it names.
pub struct Flight {
    pub busy: bool,
    pub place: u64,
    /// The word that was found in the head last.
    pub expected: u64,
    /// The word of the place to look at next.
    pub next: u64,
    /// The places that were looked at since the head was found.
    pub scanned: LinkedList<u64>,
    /// Whether the place's own link was stored since the head was found.
    pub stored: bool,
}

/// What a seat knows.
pub struct View {
    /// Whether the seat was joined into another.
    pub spent: bool,
    pub keys: LinkedList<u64>,
    pub heads: u64,
    pub cut: u64,
    /// The place in the tree of splits, from the last split to the first.
    pub position: LinkedList<bool>,
    pub drawn: LinkedList<u64>,
    pub settled: LinkedList<Settled>,
    /// The greatest ticket seen.
    pub seen: u64,
    /// The exchanges that the last claim tried.
    pub claim_tries: u64,
    /// The exchanges that the last draw tried.
    pub draw_tries: u64,
    pub flight: Flight,
}

/// What a round is about.
#[derive(Drop)]
pub struct Offer<'k> {
    pub keys: &'k [Key],
    pub heads: usize,
    pub cut: usize,
}
