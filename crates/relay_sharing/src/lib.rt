//! Work that several threads share, whose answer is that of one.
//!
//! A [`Crew`] says who takes part; [`sort_by`] sorts.
#![tactic(auto)]

mod crew;
mod sorting;

pub use crew::Crew;
pub use sorting::sort_by;
