//! Which senders and nodes a message reaches.
//!
//! A chain starts at the envelope's sender with a recipient's target, and goes from a node to the targets of its items, under
//! the sender after the node (local(8), "delivery status notifications"). [`reached_pairs`] gives all pairs of sender and node that some
//! chain ends in, by their numbers in the graph; [`reached_nodes`] gives the nodes among them, and a [`Search`] the pairs that chains
//! from one recipient end in.
#![tactic(auto)]

mod laws;
mod nodes;
mod reached;
mod reaching;
mod searching;
mod steps;

pub use laws::{pairs_are_counted, pairs_by_numbers, pairs_by_root};
pub use nodes::reached_nodes;
pub use reached::Reached;
pub use reaching::reached_pairs;
pub use searching::Search;
