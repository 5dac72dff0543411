//! The forms of the text.

/// A form in which a graph is written.
#[derive(Clone, Copy, Debug, PartialEq, Eq)]
pub enum GraphForm {
    /// A line for each recipient, and below the line of an entry those of its members in the order of its items, further in by two blanks.
    Tree,
    /// The graph in the language of Graphviz.
    Dot,
}

ghost use Rattle.std.specs.Prelude.{IfOk};
ghost use Rattle.relay_expansion.specs.GraphTexts.{IsTextOf};

use crate::dot::dot_text;
use crate::tree::tree_text;
use relay_tables::{Graph, Tables};
use relay_text::Text;
use std::alloc::{AllocError, Global};

/// The text of a graph that was built of these tables and of a message from the null sender. `Err` where memory runs out.
pub fn graph_text(
    alloc: Global,
    form: GraphForm,
    tables: &Tables,
    graph: &Graph,
) -> Result<Text, AllocError>
    ensures { IfOk result (IsTextOf tables.now graph.now form) }
{
    match form {
        GraphForm::Tree => tree_text(alloc, tables, graph),
        GraphForm::Dot => dot_text(alloc, tables, graph),
    }
}
