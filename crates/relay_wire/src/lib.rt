//! The texts of a plan, and the commands of its transactions.
#![tactic(auto)]

mod check;
pub mod commands;
pub mod finding;
mod finding_lines;
mod found;
mod found_line;
mod front;
mod fronted_line;
mod fronted_lines;
pub mod hostname;
mod json;
mod json_plan;
mod kept_findings;
mod lengths;
mod line_parts;
pub mod plan;
mod plan_texts;
mod reading;
pub mod scripts;
mod shared_front;
mod sorting;
pub mod wire;
mod words;
mod writing;

pub use check::check_text;
pub use commands::{Greeting, Script};
pub use finding::{Finding, LineWord, Place, Reason, finding_line, put_reason};
pub use finding_lines::FindingLines;
pub use found::Found;
pub use front::split_front;
pub use hostname::is_hostname;
pub use json::{
    put_json_comma, put_json_key, put_json_number, put_json_path, put_json_string, put_json_strings,
};
pub use json_plan::{json_text, put_json_findings, put_json_front, put_json_members};
pub use kept_findings::{KeptFindings, LinesAlone};
pub use lengths::texts_len;
pub use plan::{Plan, Planned, plan_text, recipient_count};
pub use plan_texts::PlanTexts;
pub use scripts::{one_script, read_script, script};
pub use wire::wire_text;
pub use words::{put_count, put_lines, put_name, put_number, put_path, put_word};
