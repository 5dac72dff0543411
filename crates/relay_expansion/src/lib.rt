//! The texts of what names and addresses lead to: how entries lie in each other, and the same as a graph to be drawn.
//!
//! A walk in depth comes to each entry once, and meets the members of each in the order of its items (`walk`): a `row` for each. Of rows
//! come the lines of a `tree`, and the statements of a graph for Graphviz (`dot`), where remote members of one domain may stand as one
//! (`bundles`).
#![tactic(auto)]

mod bundles;
mod dot;
mod form;
mod labels;
mod row;
mod tree;
mod walk;
mod words;

pub use form::{GraphForm, graph_text};
