//! One step of the search.
use relay_pairs::Reached;

// What a trail goes through last: a recipient, or after the trail of an earlier step one more item.
#[derive(Clone, Copy)]
pub(crate) enum Link {
    Recipient(usize),
    Item(usize, usize),
}

// A pair and its place among those that are reached, and what its best trail goes through last. The search reads the pair here, where it
// has just been put, and waits for no read of its place.
#[derive(Clone, Copy)]
pub(crate) struct Step {
    pub(crate) place: usize,
    pub(crate) pair: Reached,
    pub(crate) link: Link,
}
