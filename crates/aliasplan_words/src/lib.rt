//! What the words of the command line ask for.
//!
//! [`read_words`] makes a [`Request`] of them. Help and the version are printed on the way, and so is what is wrong with words that ask for
//! nothing that there is. No file that they name is read here.
//!
//! The way through the modules: `commands` has the commands and what each takes, of the `arguments` and the texts in `help`. `subcommand`,
//! `group` and `argument` make of them what clap reads, the last by an argument's `position` and `kind`. `reading` matches the words against them.
//! `asking` makes a request of the words after a command, by what `values` reads of each, and the names and addresses that are
//! `asked`; `refusing` has the words that no command takes.
#![tactic(auto)]

mod argument;
mod arguments;
mod asked;
mod asking;
mod commands;
mod detail;
mod envelope;
mod expansion;
mod group;
mod help;
mod kind;
mod named_job;
mod output;
mod position;
mod reading;
mod refusing;
mod request;
mod scope;
mod subcommand;
mod values;
mod work;

pub use detail::Detail;
pub use expansion::Expansion;
pub use named_job::{JobSource, NamedJob};
pub use output::Output;
pub use reading::read_words;
pub use request::Request;
pub use scope::Scope;
pub use work::Work;
