//! What is kept from round to round.
use crate::zeros::Zeros;
use relay_chains::Key;
use std::alloc::Global;

/// What a round needs beside its offers, so that it takes little memory anew.
#[derive(Drop)]
pub(crate) struct Kept {
    pub(crate) alloc: Global,
    pub(crate) zeros: Zeros,
    /// The keys that were won in the last round.
    pub(crate) won: Vec<Key>,
}

impl Kept {
    pub(crate) fn new(alloc: Global) -> Kept {
        Kept {
            alloc,
            zeros: Zeros::new(alloc),
            won: Vec::new(alloc),
        }
    }
}
