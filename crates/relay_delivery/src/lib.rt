//! Which transactions bring each address its message, in the fewest.
//!
//! Callers number senders, routes and addresses, and say by numbers which address goes out under which sender. [`placing`] brings the
//! three into the order of a plan, where an address under a sender is two numbers; [`cutting`] gives each group of a sender and a route
//! a key, lets relay_rings cut what has one key within the limit of its transport, and writes the cuts as transactions. That none is too
//! many follows from what relay_rings says of its batches. Where there are many recipients, a crew writes their paths, sorts and picks them,
//! and copies their addresses; its answer is that of one thread.
#![tactic(auto)]

mod by;
mod counting;
mod cutting;
mod delivering;
mod delivery;
mod delivery_order;
mod group_numbers;
mod key_groups;
mod keyed;
mod limits;
mod marks;
mod numbering;
mod picks;
mod placing;
mod planned;
mod ranks;
mod recipient_order;
mod rooms;
mod route_order;
mod routed;
mod sender_order;
mod shared;
mod sort_key;
mod written_path;

pub use delivering::transactions;
pub use delivery::Delivery;
pub use limits::BatchLimits;
pub use routed::Routed;
