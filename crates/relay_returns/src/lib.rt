//! What is returned to which sender: blocks of lines between a plan's transactions and its findings.
//!
//! [`return_line`] makes a finding's line one for a recipient, and [`returned_plan_text`], [`returned_wire_text`] and
//! [`returned_json_text`] write blocks, in the
//! order of their senders' paths, into a plan's text.
#![tactic(auto)]

pub mod block;
mod json;
mod lengths;
pub mod lines;
pub mod texts;
mod words;

pub use block::Return;
pub use json::{put_returned_json_members, returned_json_text};
pub use lines::return_line;
pub use texts::{returned_plan_text, returned_wire_text};
