//! Lists per destination, and the fewest transactions that bring a list of items to their keys.
//!
//! [`Rings`] keeps one list of items per destination, as circular lists in one vector of nodes: a node holds its item
//! and the number of the node after it, and a destination holds the number of its newest node alone. The newest node
//! links back to the oldest, so each list is closed through its tail: that one number reaches both ends, the end where
//! an item is appended and the start of a walk. No list has memory of its own, and an append takes the same few steps
//! whatever is held.
//!
//! [`batches`] cuts the items of each key into transactions of at most that key's limit, as a client does with a list
//! of recipients that is longer than a transaction takes (RFC 5321 section 4.5.3.1.8, and
//! `default_destination_recipient_limit` in postconf(5)). It keeps the items in rings, one for each distinct key, so
//! large and far apart keys take no memory of their own, and it walks each ring once.
#![tactic(auto)]

mod batching;
mod linking;
mod walking;

pub use batching::{Items, Placed, Transaction, batches};
pub use linking::{RingFault, Rings};
pub use walking::Walk;
