//! What each local name stands for, who owns a list, and the graph of what leads to what.
#![tactic(auto)]

mod adjacency;
mod building;
pub mod counting;
mod domain_kind;
pub mod fault;
mod finding;
mod folded_name;
pub mod graph;
pub mod include_entry;
mod indexing;
mod keys;
mod lead;
mod leading;
mod listed;
pub mod local;
mod marking;
mod named;
pub mod node;
mod numbering;
mod owning;
pub mod parsed;
mod reaching;
mod rowing;
mod sending;
pub mod tables;
pub mod target;
mod transpose;
pub mod two_way;

pub use counting::{TableCounts, names_are_counted};
pub use fault::TableFault;
pub use graph::Graph;
pub use include_entry::IncludeEntry;
pub use local::Local;
pub use node::Node;
pub use parsed::parsed_files;
pub use tables::Tables;
pub use target::Target;
pub use two_way::TwoWayGraph;
