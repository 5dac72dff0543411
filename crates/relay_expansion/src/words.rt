//! What a node is, in the words of findings.
ghost use Rattle.std.specs.Prelude.{◌≡◌, ◌<◌, ◌++◌, decimal, length, option_copied, option_map, OnOk};
ghost use Rattle.relay_text.specs.Addresses.{local_text_of};
ghost use Rattle.relay_expansion.specs.NodeWords.{alias_name, include_path, node_words, owner_words};
ghost use Rattle.relay_expansion.specs.Trees.{sender_at};

use itoa::Buffer;
use relay_tables::{Graph, Node, Tables};
use relay_text::{Address, write_local, write_path};
use std::alloc::AllocError;

/// Puts a number in decimal digits.
pub(crate) fn put_number(number: usize, out: &mut Vec<u8>) -> Result<(), AllocError>
    ensures { OnOk result (out.new.items ≡ out.old.items ++ decimal number) }
{
    out.extend_from_slice(Buffer::new().format(number).as_bytes())
}

/// Puts words, and a text behind them.
fn put_text(words: &[u8], text: &[u8], out: &mut Vec<u8>) -> Result<(), AllocError>
    ensures { OnOk result (out.new.items ≡ out.old.items ++ (words.now ++ text.now)) }
{
    out.extend_from_slice(words)?;
    out.extend_from_slice(text)
}

/// Puts words, and a name behind them, in the one spelling of a local part.
fn put_local(words: &[u8], name: &[u8], out: &mut Vec<u8>) -> Result<(), AllocError>
    ensures { OnOk result (out.new.items ≡ out.old.items ++ (words.now ++ local_text_of name.now)) }
{
    out.extend_from_slice(words)?;
    write_local(name, out)
}

/// The name of an alias: tables that don't have it give none.
fn alias_name(tables: &Tables, number: u32) -> &[u8]
    ensures { result.now ≡ alias_name tables.now number }
{
    match tables.aliases().get(number as usize) {
        Some(entry) => entry.name.as_bytes(),
        None => b"",
    }
}

/// The path of an include file: tables that don't have it give none.
fn include_path(tables: &Tables, number: u32) -> &[u8]
    ensures { result.now ≡ include_path tables.now number }
{
    match tables.includes().get(number as usize) {
        Some(entry) => entry.path.as_bytes(),
        None => b"",
    }
}

/// Puts what a node is: an address as a path, and else the word for what it is and its name, path or text. `Err` where memory runs out.
pub(crate) fn put_node(tables: &Tables, node: &Node, out: &mut Vec<u8>) -> Result<(), AllocError>
    ensures { OnOk result (out.new.items ≡ out.old.items ++ node_words tables.now node.now) }
{
    match node {
        Node::Alias(number) => put_local(b"alias ", alias_name(tables, *number), out),
        Node::Include(number) => put_text(b"include ", include_path(tables, *number), out),
        Node::Mailbox(address) | Node::Remote(address) => write_path(Some(address), out),
        Node::Missing(name) => put_local(b"missing ", name.as_bytes(), out),
        Node::NoInclude(path) => put_text(b"noinclude ", path.as_bytes(), out),
        Node::Command(text) => put_text(b"command ", text.as_bytes(), out),
        Node::File(path) => put_text(b"file ", path.as_bytes(), out),
    }
}

/// The sender that an alias with an owner gives, in the graph of a message from the null sender.
pub(crate) fn owner_at(graph: &Graph, node: u32) -> Option<&Address>
    requires { node < length graph.now.nodes }
    ensures { option_copied result ≡ sender_at graph.now node }
{
    let _nodes = graph.nodes();
    graph.sender(graph.sender_after(0, node))
}

/// Puts words and an address behind them, where there is one.
pub(crate) fn put_owner(
    words: &[u8],
    owner: Option<&Address>,
    out: &mut Vec<u8>,
) -> Result<(), AllocError>
    ensures { OnOk result (out.new.items ≡ out.old.items ++ owner_words words.now (option_map (λ a. a.now) owner.entry)) }
{
    match owner {
        Some(address) => {
            out.extend_from_slice(words)?;
            write_path(Some(address), out)
        }
        None => Ok(()),
    }
}
