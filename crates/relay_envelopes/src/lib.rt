//! A text of many envelopes, and the text that answers it.
//!
//! Settings, files and tables stand first, as in a job. Behind them each envelope has a section, whose heading has an ID in place of
//! nothing behind `%envelope`, and which `%end` may end. `heading` reads the ID of a heading, `parts` finds where the tables end and the section of each envelope
//! stands; `kind` says what a line is where envelopes come one after another. `writing` has the lines that stand round the plans of
//! envelopes, and `json_lines` the objects that stand in their place. `joining` has the law that makes a job of the tables and a section,
//! and `replacing` gives a job another envelope.
#![tactic(auto)]

pub mod counts;
pub mod heading;
pub mod joining;
pub mod json_lines;
pub mod kind;
pub mod parts;
pub mod refusal;
pub mod replacing;
pub mod section;
pub mod writing;

pub use counts::EnvelopeCounts;
pub use heading::envelope_id;
pub use joining::sections_are_joined;
pub use json_lines::{
    put_done_json, put_json_end, put_json_line_end, put_json_pair, put_planned_json,
    put_refused_json, put_tables_json,
};
pub use kind::{LineKind, line_kind};
pub use parts::{envelopes_place, find_envelopes};
pub use refusal::Refusal;
pub use replacing::replace_envelope;
pub use section::EnvelopeSection;
pub use writing::{put_done, put_envelope, put_refusal, put_tables};
