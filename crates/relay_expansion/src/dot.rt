//! A graph for Graphviz.
ghost use Rattle.std.specs.Prelude.{◌≡◌, ◌<◌, ◌++◌, length, All, IfOk, OnOk};
ghost use Rattle.relay_tables.specs.Directory.{Directory};
ghost use Rattle.relay_expansion.specs.Rows.{IsRow};
ghost use Rattle.relay_expansion.specs.Dots.{bundle_node, bundle_statement, dot_name, edge_text, look_words, node_label, node_statement, is_open, IsDotFront, IsDotText};

use crate::bundles::{Bundles, Drawing};
use crate::labels::put_label;
use crate::row::{Row, Standing};
use crate::walk::rows_of;
use crate::words::{owner_at, put_node, put_number, put_owner};
use itoa::Buffer;
use relay_tables::{Graph, Node, Tables};
use relay_text::Text;
use std::alloc::{AllocError, Global};

/// A graph as it is drawn.
#[derive(Drop)]
pub(crate) struct Canvas {
    /// Whether a node's statement is there, by the numbers of nodes.
    pub(crate) is_drawn: Vec<bool>,
    /// The words of a label, before they are put.
    pub(crate) words: Vec<u8>,
    pub(crate) out: Vec<u8>,
}

/// Puts a letter and a number: the name of a node, `n`, or of a bundle, `b`.
fn put_name(letter: u8, number: u32, out: &mut Vec<u8>) -> Result<(), AllocError>
    ensures { OnOk result (out.new.items ≡ out.old.items ++ dot_name letter number) }
{
    out.push(letter)?;
    out.extend_from_slice(Buffer::new().format(number).as_bytes())
}

/// How a node is drawn: an alias as a box, an include file as a note, an address as an ellipse, and in red what isn't there.
fn look_of(node: &Node) -> &'static [u8]
    ensures { result.now ≡ look_words node.now }
{
    match node {
        Node::Alias(_) => b"shape=box",
        Node::Include(_) => b"shape=note",
        Node::Mailbox(_) | Node::Remote(_) => b"shape=ellipse",
        Node::Missing(_) => b"shape=box, style=dashed, color=red",
        Node::NoInclude(_) => b"shape=note, style=dashed, color=red",
        Node::Command(_) | Node::File(_) => b"shape=plaintext",
    }
}

fn is_open(standing: Standing) -> bool
    ensures { result ≡ is_open standing }
{
    match standing {
        Standing::Open => true,
        Standing::First | Standing::Told => false,
    }
}

/// Puts the statement of an edge, which is red where it closes a loop.
#[tactic(auto, unfolding(crate::specs::Dots::edge_text))]
fn put_edge(
    from: u32,
    letter: u8,
    to: u32,
    is_loop: bool,
    out: &mut Vec<u8>,
) -> Result<(), AllocError>
    ensures { OnOk result (out.new.items ≡ out.old.items ++ edge_text from letter to is_loop) }
{
    out.extend_from_slice(b"  ")?;
    put_name(b'n', from, out)?;
    out.extend_from_slice(b" -> ")?;
    put_name(letter, to, out)?;
    if is_loop {
        out.extend_from_slice(b" [color=red]")?;
    }
    out.extend_from_slice(b";\n")
}

/// Puts the words of a node and the sender that it gives as a label.
fn put_words(
    tables: &Tables,
    graph: &Graph,
    node: u32,
    words: &mut Vec<u8>,
    out: &mut Vec<u8>,
) -> Result<(), AllocError>
    requires { node < length graph.now.nodes }
    ensures { OnOk result (out.new.items ≡ out.old.items ++ node_label tables.now graph.now node) }
{
    words.clear();
    put_node(tables, graph.node(node), words)?;
    put_label(words, out)?;
    let owner = owner_at(graph, node);
    if owner.is_none() {
        return Ok(());
    }
    words.clear();
    put_owner(b"owner ", owner, words)?;
    out.extend_from_slice(b"\\n")?;
    put_label(words, out)
}

/// Puts the statement of a bundle of so many members at a domain.
#[tactic(auto, unfolding(crate::specs::Dots::bundle_node))]
fn put_bundle_node(
    number: u32,
    members: usize,
    domain: &[u8],
    out: &mut Vec<u8>,
) -> Result<(), AllocError>
    ensures { OnOk result (out.new.items ≡ out.old.items ++ bundle_node number members domain.now) }
{
    out.extend_from_slice(b"  ")?;
    put_name(b'b', number, out)?;
    out.extend_from_slice(b" [shape=ellipse, label=\"")?;
    put_number(members, out)?;
    out.extend_from_slice(b" at ")?;
    put_label(domain, out)?;
    out.extend_from_slice(b"\"];\n")
}

/// Puts the statement of a bundle, and that of the edge to it.
fn put_bundle_at(
    entry: u32,
    number: u32,
    members: usize,
    domain: &[u8],
    out: &mut Vec<u8>,
) -> Result<(), AllocError>
    ensures { OnOk result (out.new.items ≡ out.old.items ++ bundle_statement entry number members domain.now) }
{
    put_bundle_node(number, members, domain, out)?;
    put_edge(entry, b'b', number, false, out)
}

/// Puts a bundle of so many members at a row's domain, and the edge to it.
#[tactic(auto, using(crate::proofs::DotFacts::bundle_more))]
fn put_bundle(
    graph: &Graph,
    row: &Row,
    number: u32,
    members: usize,
    out: &mut Vec<u8>,
) -> Result<(), AllocError>
    requires { IsRow graph.now row.now }
    ensures { OnOk result ((d : Directory) → IsDotFront d graph.now out.old.items → IsDotFront d graph.now out.new.items) }
{
    match (row.parent, graph.node(row.node)) {
        (Some(entry), Node::Remote(address)) => {
            put_bundle_at(entry, number, members, address.domain(), out)
        }
        _ => Ok(()),
    }
}

impl Canvas {
    /// Puts the statement of a node.
    #[tactic(auto, unfolding(crate::specs::Dots::node_statement))]
    fn put_node(&mut self, tables: &Tables, graph: &Graph, node: u32) -> Result<(), AllocError>
        requires { node < length graph.now.nodes }
        ensures drawn { OnOk result (self.new.is_drawn ≡ self.old.is_drawn) }
        ensures text { OnOk result (self.new.out.items ≡ self.old.out.items ++ node_statement tables.now graph.now node) }
    {
        self.out.extend_from_slice(b"  ")?;
        put_name(b'n', node, &mut self.out)?;
        self.out.extend_from_slice(b" [")?;
        self.out.extend_from_slice(look_of(graph.node(node)))?;
        self.out.extend_from_slice(b", label=\"")?;
        put_words(tables, graph, node, &mut self.words, &mut self.out)?;
        self.out.extend_from_slice(b"\"];\n")
    }

    /// Puts the statement of a node that has none yet.
    #[tactic(auto, using(crate::proofs::DotFacts::node_more))]
    fn draw_node(&mut self, tables: &Tables, graph: &Graph, node: u32) -> Result<(), AllocError>
        requires node { node < length graph.now.nodes }
        requires sized { length self.old.is_drawn.items ≡ length graph.now.nodes }
        requires told { IsDotFront tables.now graph.now self.old.out.items }
        ensures sized { OnOk result (length self.new.is_drawn.items ≡ length graph.now.nodes) }
        ensures told { OnOk result (IsDotFront tables.now graph.now self.new.out.items) }
    {
        if self.is_drawn[node as usize] {
            return Ok(());
        }
        self.is_drawn[node as usize] = true;
        self.put_node(tables, graph, node)
    }

    /// Puts a row's node and the edge to it.
    #[tactic(auto, using(crate::proofs::DotFacts::edge_more))]
    fn draw_row(&mut self, tables: &Tables, graph: &Graph, row: &Row) -> Result<(), AllocError>
        requires row { IsRow graph.now row.now }
        requires sized { length self.old.is_drawn.items ≡ length graph.now.nodes }
        requires told { IsDotFront tables.now graph.now self.old.out.items }
        ensures sized { OnOk result (length self.new.is_drawn.items ≡ length graph.now.nodes) }
        ensures told { OnOk result (IsDotFront tables.now graph.now self.new.out.items) }
    {
        self.draw_node(tables, graph, row.node)?;
        match row.parent {
            Some(parent) => {
                put_edge(parent, b'n', row.node, is_open(row.standing), &mut self.out)
            }
            None => Ok(()),
        }
    }

    /// Puts what is drawn of a row.
    fn draw(
        &mut self,
        tables: &Tables,
        graph: &Graph,
        row: &Row,
        drawing: Drawing,
    ) -> Result<(), AllocError>
        requires row { IsRow graph.now row.now }
        requires sized { length self.old.is_drawn.items ≡ length graph.now.nodes }
        requires told { IsDotFront tables.now graph.now self.old.out.items }
        ensures sized { OnOk result (length self.new.is_drawn.items ≡ length graph.now.nodes) }
        ensures told { OnOk result (IsDotFront tables.now graph.now self.new.out.items) }
    {
        match drawing {
            Drawing::Alone => self.draw_row(tables, graph, row),
            Drawing::Bundle(number, members) => {
                put_bundle(graph, row, number, members, &mut self.out)
            }
            Drawing::Drawn => Ok(()),
        }
    }
}

/// Puts the statements of rows.
fn put_rows(
    alloc: Global,
    tables: &Tables,
    graph: &Graph,
    rows: &[Row],
    canvas: &mut Canvas,
) -> Result<(), AllocError>
    requires rows { All (IsRow graph.now) rows.now }
    requires sized { length canvas.old.is_drawn.items ≡ length graph.now.nodes }
    requires told { IsDotFront tables.now graph.now canvas.old.out.items }
    ensures { OnOk result (IsDotFront tables.now graph.now canvas.new.out.items) }
{
    let mut bundles = Bundles::of(alloc, tables.key(), graph, rows)?;
    for (index, row) in rows.iter().enumerate() {
        let drawing = bundles.draw(index);
        canvas.draw(tables, graph, row, drawing)?;
    }
    Ok(())
}

/// The graph of what a message from the null sender leads to, for Graphviz: a statement for each entry and address, with the owner below an
/// alias's name, and one for each item. Where an entry has more than twenty remote items at one domain, they stand as one node that has their
/// number. An edge to an entry that lies around it is red. A byte that isn't printable ASCII is its number behind `\x`.
#[tactic(auto, using(crate::proofs::DotFacts::no_statements))]
pub(crate) fn dot_text(alloc: Global, tables: &Tables, graph: &Graph) -> Result<Text, AllocError>
    ensures { IfOk result (IsDotText tables.now graph.now) }
{
    let rows = rows_of(alloc, graph)?;
    let mut canvas = Canvas {
        is_drawn: vec![in alloc; false; graph.nodes()]?,
        words: Vec::new(alloc),
        out: Vec::new(alloc),
    };
    canvas.out.extend_from_slice(b"digraph expansion {\n")?;
    put_rows(alloc, tables, graph, &rows, &mut canvas)?;
    canvas.out.extend_from_slice(b"}\n")?;
    let Canvas {
        is_drawn: _,
        words: _,
        out,
    } = canvas;
    Ok(Text::of(out))
}
