//! The text of a job, gathered from files that lie apart.
#![tactic(auto)]

mod fetching;
pub mod file_lines;
mod files;
mod gathered;
pub mod gathering;
mod includes;
mod laws;
mod named;
pub mod origins;
pub mod paths;
mod queue;
pub mod source;
pub mod source_fault;

pub use file_lines::FileLines;
pub use gathering::gathered_text;
pub use laws::{files_apart, lines_of_files};
pub use origins::{Origins, gathered_origins, origin_of};
pub use paths::Paths;
pub use relay_job::RunFault;
pub use source::Source;
pub use source_fault::SourceFault;
