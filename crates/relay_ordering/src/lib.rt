//! Values in the order of their senders' written paths, which is the order of a plan's transactions.
//!
//! [`in_order`] sorts whatever [`HasSender`].
#![tactic(auto)]

pub mod has_sender;
mod keyed;
pub mod ordering;

pub use has_sender::HasSender;
pub use ordering::in_order;
