//! The graph of what leads to what.
use crate::inputs::{Message, OWNED, graph, message_to, tables};
use crate::lending::{built, made, tried, tried_on_both};
use growth_answers::inputs::is_address;
use growth_answers::{Answer, Seen, Teller, Unready, case};
use relay_tables::{Graph, Node, TableCounts, TableFault, Tables, TwoWayGraph};
use relay_text::Address;
use std::alloc::Global;

fn is_remote(node: &Node, local: &[u8]) -> bool {
    matches!(node, Node::Remote(address) if is_address(address, local, b"example.net"))
}

fn is_mailbox(node: &Node, local: &[u8]) -> bool {
    matches!(node, Node::Mailbox(address) if is_address(address, local, b"example.org"))
}

/// Whether the nodes are the aliases, kim, lee and joe's mailbox.
fn are_nodes(graph: &Graph) -> bool {
    graph.nodes() == 6
        && matches!(graph.node(2), Node::Alias(2))
        && is_remote(graph.node(3), b"kim")
        && is_remote(graph.node(4), b"lee")
        && is_mailbox(graph.node(5), b"joe")
}

/// Whether what they lead to is as the aliases say.
fn are_steps(graph: &Graph) -> bool {
    graph.nodes() == 6
        && graph.roots() == [0].as_slice()
        && graph.children(0) == [1, 3].as_slice()
        && graph.children(1) == [3, 4].as_slice()
        && graph.children(2) == [5].as_slice()
}

fn is_sender(sender: Option<&Address>, local: &[u8], domain: &[u8]) -> bool {
    match sender {
        Some(address) => is_address(address, local, domain),
        None => false,
    }
}

/// Whether the senders are the envelope's and the owner's.
fn are_senders(graph: &Graph) -> bool {
    graph.senders() == 2
        && is_sender(graph.sender(0), b"a", b"example.com")
        && is_sender(graph.sender(1), b"owner-inner", b"example.org")
}

/// Whether this is the graph of a message to the outer list.
fn is_whole(graph: &Graph) -> bool {
    are_nodes(graph) && are_steps(graph) && are_senders(graph)
}

fn is_built(alloc: Global, tables: &Tables, message: &Message) -> Answer {
    let sender = Some(&message.sender);
    built(
        Graph::build(alloc, tables, sender, &message.recipients, 6, 1),
        is_whole,
    )
}

/// Each node's parents beside its children.
fn are_parents(graph: &TwoWayGraph<'_>) -> bool {
    graph.nodes() == 6
        && graph.children(0) == [1, 3].as_slice()
        && graph.parents(3) == [0, 1].as_slice()
        && graph.parents(0).is_empty()
}

fn is_turned(alloc: Global, graph: &Graph) -> Answer {
    made(TwoWayGraph::of(alloc, graph), |graph| are_parents(graph))
}

/// One node and one owner fewer than there are.
fn is_too_large(alloc: Global, tables: &Tables, message: &Message) -> Answer {
    match Graph::build(alloc, tables, None, &message.recipients, 5, 1) {
        Err(TableFault::TooManyNames) => Answer::Right,
        Err(TableFault::Memory) => Answer::Refused,
        _ => Answer::Wrong,
    }
}

/// The outer list, which nobody writes to here, is not there.
fn is_inner(graph: &Graph) -> bool {
    graph.nodes() == 3 && graph.roots().len() == 1 && are_senders(graph)
}

fn is_reached(alloc: Global, tables: &Tables, message: &Message) -> Answer {
    let sender = Some(&message.sender);
    built(
        Graph::reached(alloc, tables, sender, &message.recipients, 6),
        is_inner,
    )
}

fn are_counted(alloc: Global, tables: &Tables) -> Answer {
    built(TableCounts::of(alloc, tables, 6, 1), |counts| {
        counts.names == 6 && counts.owners == 1
    })
}

/// How a call goes that is lent tables and a message to this local address.
fn tried_of_message<F: Fn(Global, &Tables, &Message) -> Answer>(
    alloc: Global,
    to: &[u8],
    call: F,
) -> Result<Seen, Unready>
    requires { F.IsAlwaysCallable call }
{
    let tables = tables(alloc, false, OWNED);
    let message = message_to(alloc, to);
    tried_on_both(alloc, tables, message, call)
}

pub(crate) fn tell<R: Print + AllocGlobal>(teller: &mut Teller<'_, R>) {
    let alloc = teller.rt.alloc();
    case!(
        teller,
        "Graph::build",
        tried_of_message(alloc, b"outer", is_built)
    );
    case!(
        teller,
        "Graph::build, too many names",
        tried_of_message(alloc, b"outer", is_too_large)
    );
    case!(
        teller,
        "Graph::reached",
        tried_of_message(alloc, b"inner", is_reached)
    );
    case!(
        teller,
        "TwoWayGraph::of",
        tried(alloc, graph(alloc, OWNED, b"outer"), is_turned)
    );
    case!(
        teller,
        "TableCounts::of",
        tried(alloc, tables(alloc, false, OWNED), are_counted)
    );
}
