//! One winner for each key, from many threads and without a lock.
//!
//! Many threads offer keys, of which some are equal, and each wants to know whether the key is its own to work on.
//! A [`Round`] has the offered keys in a slice, and names each by its place there. A thread has a [`Seat`], draws a piece of places with it, and claims each of them: the claim is won, or it names a place with the same key.
//! Under it lie lists that only grow, one for each bucket of keys: a claim looks through its list, and puts its place in front where the key is not there.
#![tactic(auto)]

mod round;
mod seat;
mod steps;
mod view;

pub use relay_chains::Key;
pub use round::{Claim, CloseFault, Round};
pub use seat::Seat;
pub use view::Settled;
