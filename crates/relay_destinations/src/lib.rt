//! The routes of the addresses of a job, each looked up once.
//!
//! A job has many addresses for few destinations. [`Destinations`] asks a router for the destination of an address where its domain
//! doesn't tell it, and for the route of a destination where that is asked for the first time. What it finds is numbered: an address
//! gets the number of its route, or of the reason why it has none.
#![tactic(auto)]

mod destinations;
mod known_ways;
mod numbered_routes;
mod way;

pub use destinations::Destinations;
pub use way::Way;
