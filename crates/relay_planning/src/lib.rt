//! The plan of a job: from one message's envelope to the fewest sound transactions.
//!
//! A [`Lookup`] is made of what a job's files and tables say, and with it the lines of those that are at fault. By it comes the graph of
//! names ([`graph_of`]), then the pairs of sender and node that are reached ([`pairs_of`]); of what is reached come the lines of entries, the
//! routes of addresses with the lines of those that have none, and the transactions ([`plan_reached`]). [`plan_job`] goes all the way, and
//! [`write_job`] on to the text.
#![tactic(auto)]

mod addresses;
mod both;
mod crew;
mod entries;
mod findings;
mod includes;
mod job_file;
mod job_view;
mod laws;
mod listing;
mod lookup;
mod options;
mod outgoing;
mod parsed;
mod planning;
mod reach;
mod reached_graph;
mod routing;
mod summary;
mod table;
mod texts;
mod transacted;
mod with_findings;
mod written;

pub use crew::Crew;
pub use entries::{report_node, report_target};
pub use findings::reason_for;
pub use job_view::JobView;
pub use laws::parsed_is_readable;
pub use listing::Listing;
pub use lookup::Lookup;
pub use options::{Form, Limits, Options};
pub use outgoing::recipient_of;
pub use planning::{graph_of, nodes_of, pairs_of, plan_by_lookup, plan_job, plan_reached};
pub use routing::own_names;
pub use summary::Summary;
pub use with_findings::{PlanWithFindings, plan_with_findings};
pub use written::{WrittenPlan, write_job};
