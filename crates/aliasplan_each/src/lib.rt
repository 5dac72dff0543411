//! The plans of many envelopes by tables that are read once.
//!
//! [`run_each`] reads a text of settings, files, tables and envelopes whole, and writes a block for each envelope. [`run_beside`] is given the
//! tables, and answers each envelope that a reader gives as soon as it has ended. The tables may be read anew between two envelopes.
//!
//! The way through the modules: `texts` has the text of one envelope's plan, by a planner that holds the tables, in a `wording`; `answers`
//! its block. `running` goes over the sections of a text that is there. `feeding` gives the sections of a reader one after another, of lines
//! that `pending` reads, each a `read_section`, which `laws` speaks of; `beside` answers them, and `changing` reads the tables anew, from a
//! `tables_source`. `forms` writes lines in the form that is asked for, and `change_json` those that answer `%tables` in JSON.
//!
//! Where a function ends, a value of many parts is given back by a call of `drop`: the proof of that call is made once for its type, and
//! the end of a scope would be followed part by part in each function and for each way out.
#![tactic(auto)]

mod answers;
mod beside;
mod change_json;
mod changing;
mod feeding;
mod forms;
pub mod laws;
mod pending;
mod read_section;
mod running;
pub mod summary;
pub mod tables_source;
mod texts;
pub mod wording;

pub use beside::run_beside;
pub use laws::sections_beside_are_plain;
pub use running::run_each;
pub use summary::EachSummary;
pub use tables_source::TablesSource;
pub use wording::Wording;
