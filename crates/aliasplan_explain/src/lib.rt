//! Why an address is in a job's plan, or isn't, and what names and addresses expand to.
//!
//! [`explain`] plans a job, and tells for each sender under which an address is reached a shortest chain of items, whose items they are
//! and on which lines they stand, who gave the sender, and what decided the route; or which items would lead there. [`run_explain`] does
//! so for a job's bytes, and writes the explanation's text.
//!
//! The way through the modules: `reading` has the `basis`, what the job's plan is made from, beside the lines of its alias file. `sought`
//! says by `asking` which node is asked for, and has the trails there, and `chains` has their `lines`, while the plan is made (`planned`): a
//! `stretch` of a trail by each worker, where a step is made by `walking`, which reads `ahead`, and its items are those that `rows` finds in
//! their sections. `telling` puts to them what becomes of the node, which `ending` knows. `deciding` says what decides the route, and
//! `unreached` which items lead to a node. All of them rest on the same `grounds`.
//!
//! [`expand`] says which addresses a message to some names and addresses reaches, and [`run_expand`] writes them; [`expand_graph`] and
//! [`run_expand_graph`] tell how it comes to them, as a tree or as a graph to be drawn.
#![tactic(auto)]

mod ahead;
mod asking;
pub(crate) mod basis;
mod both;
pub(crate) mod chains;
mod deciding;
pub(crate) mod ending;
mod expanding;
mod explaining;
mod graphing;
pub(crate) mod grounds;
pub(crate) mod lines;
mod nodes;
mod planned;
pub(crate) mod reading;
mod rows;
mod running;
mod running_expand;
mod running_graph;
pub(crate) mod sought;
mod step_line;
pub(crate) mod stretch;
mod targets;
mod telling;
mod unreached;
mod walking;

pub use expanding::expand;
pub use explaining::explain;
pub use graphing::expand_graph;
pub use running::run_explain;
pub use running_expand::run_expand;
pub use running_graph::run_expand_graph;
