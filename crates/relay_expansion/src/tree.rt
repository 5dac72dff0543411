//! Entries as they lie in each other.
ghost use Rattle.std.specs.Prelude.{◌≡◌, ◌<◌, ◌++◌, length, flat_map, All, IfOk, OnOk};
ghost use Rattle.relay_expansion.specs.Rows.{IsRow};
ghost use Rattle.relay_expansion.specs.Trees.{indent, level_words, standing_words, tree_line, IsTreeText};

use crate::row::{Row, Standing};
use crate::walk::rows_of;
use crate::words::{owner_at, put_node, put_number, put_owner};
use relay_tables::{Graph, Tables};
use relay_text::Text;
use std::alloc::{AllocError, Global};

/// So many levels are indented: a line within more of them has its level in front, so that the text of a long chain grows with its names
/// alone.
const LEVELS: usize = 40;

/// Two blanks for each of them.
const BLANKS: [u8; 80] = [b' '; 80];

/// Puts the level of what lies in more than are indented.
fn put_level(depth: usize, out: &mut Vec<u8>) -> Result<(), AllocError>
    ensures { OnOk result (out.new.items ≡ out.old.items ++ level_words depth) }
{
    out.extend_from_slice(&BLANKS)?;
    put_number(depth, out)?;
    out.extend_from_slice(b": ")
}

/// Puts what stands in front of a line.
fn put_indent(depth: usize, out: &mut Vec<u8>) -> Result<(), AllocError>
    ensures { OnOk result (out.new.items ≡ out.old.items ++ indent depth) }
{
    if depth <= LEVELS {
        return out.extend_from_slice(&BLANKS[..2 * depth]);
    }
    put_level(depth, out)
}

/// Puts what stands behind a node: who owns it, or why its members don't stand below it.
fn put_standing(graph: &Graph, row: &Row, out: &mut Vec<u8>) -> Result<(), AllocError>
    requires { row.now.node < length graph.now.nodes }
    ensures { OnOk result (out.new.items ≡ out.old.items ++ standing_words graph.now row.now.node row.now.standing) }
{
    match row.standing {
        Standing::First => put_owner(b", owner ", owner_at(graph, row.node), out),
        Standing::Open => out.extend_from_slice(b" (loop)"),
        Standing::Told => out.extend_from_slice(b" (see above)"),
    }
}

#[tactic(auto, unfolding(crate::specs::Trees::tree_line))]
fn put_row(tables: &Tables, graph: &Graph, row: &Row, out: &mut Vec<u8>) -> Result<(), AllocError>
    requires { row.now.node < length graph.now.nodes }
    ensures { OnOk result (out.new.items ≡ out.old.items ++ tree_line tables.now graph.now row.now) }
{
    put_indent(row.depth, out)?;
    put_node(tables, graph.node(row.node), out)?;
    put_standing(graph, row, out)?;
    out.push(b'\n')?;
    Ok(())
}

/// Puts the lines of rows.
fn put_rows(
    tables: &Tables,
    graph: &Graph,
    rows: &[Row],
    out: &mut Vec<u8>,
) -> Result<(), AllocError>
    requires { All (IsRow graph.now) rows.now }
    ensures { OnOk result (out.new.items ≡ out.old.items ++ flat_map (tree_line tables.now graph.now) rows.now) }
{
    for row in rows {
        put_row(tables, graph, row, out)?;
    }
    Ok(())
}

/// The tree of what a message from the null sender leads to: a line for each recipient, and below the line of an entry those of its members
/// in the order of its items, further in by two blanks. An entry's members stand once: its line says `(see above)` elsewhere, and `(loop)`
/// where it lies in itself.
#[tactic(auto, using(crate::proofs::TreeFacts::tree_is))]
pub(crate) fn tree_text(alloc: Global, tables: &Tables, graph: &Graph) -> Result<Text, AllocError>
    ensures { IfOk result (IsTreeText tables.now graph.now) }
{
    let rows = rows_of(alloc, graph)?;
    let mut out = Vec::new(alloc);
    put_rows(tables, graph, &rows, &mut out)?;
    Ok(Text::of(out))
}
