//! Why an address is reached.
//!
//! A trail starts with a recipient, under the envelope's sender, and goes from a node to the target of one of its items, under the
//! sender after the node (local(8), "delivery status notifications"). [`best_trails`] gives, for each sender under which a node is
//! reached, the least of the shortest trails to it.
//!
//! The way through the modules: `search` takes the recipients and then the items of each pair that it comes to, finds the `places` of
//! their pairs among those that are reached, and marks them. It leaves a `step` for each pair, and `answering` numbers these by place and
//! reads from them what is `found` of a node. `laws` says what the numbers in the answers say of the directory.
#![tactic(auto)]

mod answering;
mod found;
mod laws;
mod places;
mod search;
mod step;

pub use answering::best_trails;
pub use found::Found;
pub use laws::trails_by_numbers;
