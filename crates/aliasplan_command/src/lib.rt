//! What the program does with its command line: `plan` reads a job and writes its plan on standard output, `explain` why an address is in
//! it or isn't, `expand` what names and addresses expand to, `check` what is wrong with its files and tables, `domains` the names that it
//! asks for, and `gather` writes a job of files that lie apart.
//!
//! `read_words` of aliasplan_words reads the command line into a `Request`, `answer` carries it out and tells the `Status` that the process
//! ends with.
#![tactic(auto)]

pub mod answering;
mod bad_lists;
pub mod check_run;
mod each_run;
mod explaining;
mod explaining_items;
mod file_source;
mod headed;
mod job_texts;
mod standard_input;
mod standard_output;
pub mod status;

pub use aliasplan_words::{Detail, Expansion, Output, Request, Scope, read_words};
pub use answering::answer;
pub use status::Status;
