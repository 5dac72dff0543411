//! What is asked of the planner: a job's plan and its text, what is returned to whom, the domains that it asks for, and what is wrong with
//! its files and tables.
//!
//! relay_planning makes the plan. Here are the calls on values ([`plan_job`], [`plan_with_findings`], [`returns`], [`domains`],
//! [`check_texts`], [`check_aliases`]), a [`Planner`] that keeps tables for many envelopes, and the calls that read a job from a device and
//! write what it answers on another: [`run`] by way of `reading`, `answering` and `writing`, and likewise [`run_returns`] and
//! [`run_domains`]; [`gather`] writes the text of a job whose files lie apart.
//!
//! Where a function ends, a value of many parts is given back by a call of `drop`: the proof of that call is made once for its type, and
//! the end of a scope would be followed part by part in each function and for each way out.
#![tactic(auto)]

mod answering;
pub mod asking;
pub mod checking;
pub mod device;
mod enveloping;
mod gathering;
mod listing_domains;
pub mod planner;
pub mod reading;
mod return_blocks;
mod return_lines;
pub mod returned;
pub mod returning;
mod running;
mod running_returns;
mod undelivered;
pub mod writing;

pub use asking::domains;
pub use checking::{check_aliases, check_texts, notes};
pub use device::{Device, Failed, Feed, Sink};
pub use gathering::gather;
pub use listing_domains::run_domains;
pub use planner::Planner;
pub use reading::read_job;
pub use relay_gather::{Paths, Source, SourceFault};
pub use relay_job::{
    Envelope, Job, JobInclude, RunFault, Settings, parse_job, parse_job_by, parse_tables,
};
pub use relay_planning::{
    Crew, Form, Limits, Options, PlanWithFindings, Summary, own_names, plan_job,
    plan_with_findings, reason_for,
};
pub use relay_rounds::{Gate, NoGate};
pub use relay_wire::{Finding, LineWord, Place, Plan, Planned, Reason, plan_text, wire_text};
pub use returned::Returned;
pub use returning::returns;
pub use running::run;
pub use running_returns::run_returns;
pub use writing::{write_text, write_texts};
