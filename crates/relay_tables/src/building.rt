//! The nodes of a graph, and a row of numbers for each entry.
ghost use Rattle.std.specs.Prelude.{◌≡◌, ◌<◌, ◌≤◌, ◌^◌, length, IfOk, OnOk, Err};
ghost use Rattle.relay_tables.specs.Graphs.{nodes_of};
ghost use Rattle.relay_tables.specs.Building.{AreRows};

use crate::adjacency::Adjacency;
use crate::fault::TableFault;
use crate::listed::{entry_count, list_of};
use crate::node::Node;
use crate::numbering::{Entries, Numbering};
use crate::rowing::{Scratch, number_entries, number_recipients};
use crate::tables::Tables;
use relay_text::Address;
use std::alloc::Global;

/// The nodes in the order of their numbers, the children of each alias and include file, and the recipients' targets.
#[derive(Drop)]
pub(crate) struct Rows {
    pub(crate) nodes: Vec<Node>,
    pub(crate) children: Adjacency,
    pub(crate) roots: Vec<u32>,
}

// How many items all entries have.
fn item_count(tables: &Tables) -> usize {
    let mut count = 0usize;
    for number in 0..entry_count(tables) {
        count = count.saturating_add(list_of(tables, number).items.len());
    }
    count
}

// The heads for the nodes behind the entries, two for each: every second item is expected to lead to a new one, and each recipient, since an
// envelope seldom names one twice. There are no more than for `most` nodes, and at least 1.
fn heads_for(tables: &Tables, recipients: usize, most: usize) -> usize
    ensures { 1 ≤ result }
{
    item_count(tables)
        .saturating_add(recipients.saturating_mul(2))
        .min(most.saturating_mul(2))
        .max(1)
}

/// The rows of the tables and recipients, where there are at most `names` nodes.
pub(crate) fn number_all(
    alloc: Global,
    tables: &Tables,
    recipients: &[Address],
    names: usize,
) -> Result<Rows, TableFault>
    requires names { names ≤ 2 ^ 24 }
    ensures rows { IfOk result (λ rows. AreRows tables.now recipients.now rows.nodes.items rows.children rows.roots.items) }
    ensures within { OnOk result (length (nodes_of tables.now recipients.now) ≤ names) }
    ensures few { IfOk result (λ rows. length rows.nodes.items ≤ names) }
    ensures full { result ≡ Err TableFault.TooManyNames → names < length (nodes_of tables.now recipients.now) }
    ensures owners { result ≡ Err TableFault.TooManyOwners → ⊥ }
{
    let heads = heads_for(tables, recipients.len(), names);
    let entries = Entries {
        aliases: tables.aliases().len(),
        includes: tables.includes().len(),
    };
    let mut numbering = Numbering::new(alloc, tables.key(), entries, heads, names)?;
    let mut children = Adjacency::with_capacity(alloc, entry_count(tables))?;
    let mut scratch = Scratch::new(alloc);
    number_entries(tables, &mut numbering, &mut scratch, &mut children)?;
    let roots = number_recipients(alloc, tables, recipients, &mut numbering, &mut scratch)?;
    Ok(Rows {
        nodes: numbering.into_nodes(),
        children,
        roots,
    })
}
