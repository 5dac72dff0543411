//! Nodes in a graph.
ghost use Rattle.std.specs.Prelude.{◌≡◌, position, option_map};
ghost use Rattle.relay_tables.specs.Graphs.{same_address, same_node};

use relay_tables::{Graph, Node};
use relay_text::{Address, one_joined_text, same_bytes};

/// Are these the same address? Their joined bytes are the same then.
pub(crate) fn is_same_address(first: &Address, second: &Address) -> bool
    ensures { result ≡ same_address first.now second.now }
{
    one_joined_text();
    same_bytes(first.joined(), second.joined())
}

// Are these the same node?
fn is_same_node(first: &Node, second: &Node) -> bool
    ensures { result ≡ same_node first.now second.now }
{
    match (first, second) {
        (Node::Alias(number), Node::Alias(other)) => *number == *other,
        (Node::Include(number), Node::Include(other)) => *number == *other,
        (Node::Mailbox(address), Node::Mailbox(other)) => is_same_address(address, other),
        (Node::Remote(address), Node::Remote(other)) => is_same_address(address, other),
        (Node::Missing(name), Node::Missing(other)) => {
            same_bytes(name.as_bytes(), other.as_bytes())
        }
        (Node::NoInclude(path), Node::NoInclude(other)) => {
            same_bytes(path.as_bytes(), other.as_bytes())
        }
        (Node::Command(text), Node::Command(other)) => {
            same_bytes(text.as_bytes(), other.as_bytes())
        }
        (Node::File(path), Node::File(other)) => same_bytes(path.as_bytes(), other.as_bytes()),
        _ => false,
    }
}

/// The number of a node, where the graph has it.
pub(crate) fn number_of(graph: &Graph, node: &Node) -> Option<u32>
    ensures { result ≡ position (same_node node.now) graph.now.nodes }
{
    for number in 0..graph.nodes() {
        if is_same_node(node, graph.node(number as u32)) {
            return Some(number as u32);
        }
    }
    None
}
