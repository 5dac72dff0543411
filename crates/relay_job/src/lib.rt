//! What a job's text says: its settings, the bytes of its sections and include files, and its envelope.
#![tactic(auto)]

mod command;
mod content;
mod defaults;
mod domains;
pub mod envelope;
pub mod fault;
mod hashed_path;
mod heading;
mod include_place;
pub mod job;
mod job_files;
pub mod joined;
mod line_feeds;
pub mod located;
pub mod parsed;
pub mod parsing;
mod parts;
mod path_set;
mod percent_line;
pub mod place;
pub mod raw_line;
pub mod reason;
pub mod reasons;
mod recipient_reading;
pub mod recipients;
mod section;
mod sections;
mod setting;
mod setting_values;
pub mod settings;
mod value;

pub use envelope::Envelope;
pub use fault::RunFault;
pub use job::{Job, JobInclude};
pub use joined::joined_envelopes;
pub use located::LocatedLine;
pub use parsed::{parsed_jobs, parsed_tables};
pub use parsing::{parse_envelope, parse_job, parse_job_by, parse_tables};
pub use place::Place;
pub use raw_line::RawLine;
pub use reason::Reason;
pub use reasons::{envelope_reason, job_line_reason, setting_reason};
pub use recipients::{each_recipient_has_line, recipient_lines};
pub use settings::Settings;
