//! Sets of keys and of texts, numbered in the order in which they came.
//!
//! `Chains` holds numbers and `Interner` texts. Both find what they hold by buckets whose nodes are chained by number, in
//! one vector of nodes: no node is allocated on its own, and a look-up allocates nothing. To a caller each is a list of
//! distinct keys and the most that it may hold. `Links` has the chains alone, under the hashes of texts that its caller keeps.
#![tactic(auto)]

pub mod chains;
pub mod fault;
pub mod interner;
pub mod links;
pub mod text_hash;

pub use chains::{Chains, Key};
pub use fault::ChainFault;
pub use interner::Interner;
pub use links::Links;
pub use text_hash::{FIXED_KEY, TextKey, hash_text};
