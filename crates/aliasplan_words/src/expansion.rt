//! What is to be expanded.
use relay_expansion::GraphForm;
use relay_explain::Asked;
use relay_text::Seq;

/// Names and addresses that are to be expanded.
#[derive(Drop)]
pub struct Expansion {
    pub asked: Seq<Asked>,
    /// Whether each address stands behind its sender.
    pub with_senders: bool,
    /// The form of the graph that is written in place of the addresses.
    pub graph: Option<GraphForm>,
}
