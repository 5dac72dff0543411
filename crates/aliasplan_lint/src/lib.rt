//! What is wrong with files and tables, told as compilers do: each finding of a check at the file and the line where it stands, how bad it
//! is, and why.
//!
//! `run_lint` is for the text of a job, alone or with the origins of its lines (`gathered_origins` of relay_gather).
#![tactic(auto)]

mod file_lints;
mod item_lints;
pub mod kind;
pub mod lint;
mod linting;
mod lints;
mod lists;
mod names;
pub mod options;
mod places;
mod rules;
mod running;
pub mod section;
pub mod severity;
mod told;
mod whole;

pub use kind::Kind;
pub use options::{LintCounts, LintOptions};
pub use running::run_lint;
pub use severity::Severity;
