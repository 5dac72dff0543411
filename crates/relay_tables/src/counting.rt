//! How much of tables counts against a graph's limits, whatever the envelope.
ghost use Rattle.std.specs.Prelude.{◌≡◌, ◌<◌, ◌≤◌, ◌+◌, ◌^◌, List, [], length, IfOk, OnOk, Err};
ghost use Rattle.relay_text.specs.AddressParts.{AddressParts};
ghost use Rattle.relay_tables.specs.Directory.{Directory};
ghost use Rattle.relay_tables.specs.Graphs.{nodes_of, owner_count, refusal_of, Refuses};

use crate::building::number_all;
use crate::fault::TableFault;
use crate::sending::count_owners;
use crate::tables::Tables;
use relay_text::Address;
use std::alloc::Global;

/// How many names and owners tables have, whatever the envelope: what of a graph's limits hangs on no envelope.
///
/// A name is an alias, an include file, or another target of their items, each counted once; an owner is an alias that has one.
#[derive(Clone, Copy, Debug, PartialEq, Eq)]
pub struct TableCounts {
    pub names: usize,
    pub owners: usize,
}

impl TableCounts {
    /// The counts of tables, which take the time and memory of a graph of all of the tables.
    ///
    /// `TooManyNames` where there are more names than `names`, otherwise `TooManyOwners` where more aliases have an owner than `owners`:
    /// as from `Graph::build` without recipients.
    pub fn of(
        alloc: Global,
        tables: &Tables,
        names: usize,
        owners: usize,
    ) -> Result<TableCounts, TableFault>
        requires names { names ≤ 2 ^ 24 }
        requires owners { owners ≤ 2 ^ 24 }
        ensures names { IfOk result (λ counts. counts.names ≡ length (nodes_of tables.now [])) }
        ensures owners { IfOk result (λ counts. counts.owners ≡ owner_count tables.now) }
        ensures refusal { Refuses result (refusal_of tables.now [] names owners) }
    {
        let count = name_count(alloc, tables, names)?;
        let owned = count_owners(tables);
        if owned > owners {
            return Err(TableFault::TooManyOwners);
        }
        Ok(TableCounts {
            names: count,
            owners: owned,
        })
    }
}

// How many names tables have, where there are at most `names`.
fn name_count(alloc: Global, tables: &Tables, names: usize) -> Result<usize, TableFault>
    requires { names ≤ 2 ^ 24 }
    ensures count { IfOk result (λ count. count ≡ length (nodes_of tables.now [])) }
    ensures within { OnOk result (length (nodes_of tables.now []) ≤ names) }
    ensures full { result ≡ Err TableFault.TooManyNames → names < length (nodes_of tables.now []) }
    ensures owners { result ≡ Err TableFault.TooManyOwners → ⊥ }
{
    let no_recipients: &[Address] = &[];
    let rows = number_all(alloc, tables, no_recipients, names)?;
    Ok(rows.nodes.len())
}

/// With recipients a graph has no fewer nodes than without any, and at most one more for each.
pub fn names_are_counted()
    ensures most { (d : Directory) (recipients : List AddressParts) → length (nodes_of d recipients) ≤ length (nodes_of d []) + length recipients }
    ensures least { (d : Directory) (recipients : List AddressParts) → length (nodes_of d []) ≤ length (nodes_of d recipients) }
{}
