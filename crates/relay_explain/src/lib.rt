//! Why an address is in a plan or isn't: the answer as values, and its text.
//!
//! An explanation has an answer for each sender under which what was asked for is reached: a chain of steps from a recipient, where the
//! sender comes from, and what becomes of it. What decided the route and its hosts is the same under each sender. Lines are counted from 1
//! in their sections. A [`Telling`] is an explanation with the lines of its steps in place of the steps: its text is made in pieces.
#![tactic(auto)]

pub mod asked;
pub mod decision;
pub mod entry;
pub mod given_by;
pub mod listed;
pub mod outcome;
mod pieced_text;
pub mod record;
pub mod rule;
pub mod step;
pub mod target;
pub mod telling;
mod text;
pub mod told;

pub use asked::Asked;
pub use decision::Decision;
pub use entry::Entry;
pub use given_by::GivenBy;
pub use listed::Listed;
pub use outcome::Outcome;
pub use record::{Fate, Record};
pub use rule::Rule;
pub use step::{Mention, Step, put_alias_step};
pub use target::Target;
pub use telling::{Telling, telling_text};
pub use told::Told;
