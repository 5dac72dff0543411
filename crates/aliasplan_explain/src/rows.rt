//! The items of entries and include files, where they stand in their sections.
ghost use Rattle.std.specs.Prelude.{◌≡◌, map, slice_get, IfOk};
ghost use Rattle.relay_text.specs.Lines.{logical_lines_of};
ghost use Rattle.relay_aliasfile.specs.ItemPlaces.{place_value};
ghost use Rattle.relay_planning.specs.Delivery.{directory_of};
ghost use Rattle.aliasplan_explain.specs.Grounds.{IsBasisOf};
ghost use Rattle.aliasplan_explain.specs.Rows.{IsPartAt, entry_row_if, include_row_if, listed_by, listed_in, row_of};

use crate::grounds::Grounds;
use crate::targets::entry_of;
use relay_aliasfile::{ItemPlace, entries_on_lines, entry_places, include_places};
use relay_explain::{Entry, Listed};
use relay_tables::Node;
use relay_text::{Line, Text};
use std::alloc::{AllocError, Global};
use std::slice;

// The line of a number alone, where it stands at the likely place; else all lines. A search among them takes a dozen reads of memory, one
// after another.
fn lines_near(lines: &[Line], number: usize, likely: usize) -> &[Line]
    ensures { IsPartAt lines.now number result.now }
{
    match lines.get(likely) {
        Some(line) if line.number == number => slice::from_ref(line),
        _ => lines,
    }
}

// The places of the items of the entry of a number, whose line is likely to stand at a place.
fn alias_row<'a>(
    alloc: Global,
    grounds: &'a Grounds<'_>,
    number: u32,
    likely: usize,
) -> Result<Vec<ItemPlace<'a>>, AllocError>
    requires made { IsBasisOf grounds.now.job.now grounds.now.basis.now }
    ensures { IfOk result (λ row. map place_value row.items ≡ entry_row_if (logical_lines_of grounds.now.job.now.aliases).lines (slice_get (directory_of grounds.now.job.now).aliases number)) }
{
    entries_on_lines();
    match grounds.basis.lookup.tables.aliases().get(number as usize) {
        Some(entry) => {
            let lines = lines_near(grounds.alias_lines, entry.line, likely);
            entry_places(alloc, lines, entry)
        }
        None => Ok(Vec::new(alloc)),
    }
}

// The places of the items of the include file of a number.
fn include_row<'a>(
    alloc: Global,
    grounds: &'a Grounds<'_>,
    number: u32,
) -> Result<Vec<ItemPlace<'a>>, AllocError>
    ensures { IfOk result (λ row. map place_value row.items ≡ include_row_if (slice_get grounds.now.job.now.includes number)) }
{
    match grounds.job.includes.as_slice().get(number as usize) {
        Some(include) => include_places(alloc, include.bytes.as_bytes()),
        None => Ok(Vec::new(alloc)),
    }
}

/// The places of a node's items. Where the node is an entry, its line is looked for first at a likely place among the logical lines.
pub(crate) fn row_of<'a>(
    alloc: Global,
    grounds: &'a Grounds<'_>,
    node: &Node,
    likely: usize,
) -> Result<Vec<ItemPlace<'a>>, AllocError>
    requires made { IsBasisOf grounds.now.job.now grounds.now.basis.now }
    ensures { IfOk result (λ row. map place_value row.items ≡ row_of grounds.now.job.now node.now) }
{
    match node {
        Node::Alias(number) => alias_row(alloc, grounds, *number, likely),
        Node::Include(number) => include_row(alloc, grounds, *number),
        _ => Ok(Vec::new(alloc)),
    }
}

/// An item of an entry, as an explanation tells it.
pub(crate) fn listed_in(
    alloc: Global,
    entry: Entry,
    place: &ItemPlace<'_>,
) -> Result<Listed, AllocError>
    ensures { IfOk result (λ listed. listed ≡ listed_in entry (place_value place.now)) }
{
    Ok(Listed {
        entry,
        line: place.line,
        item: place.item,
        text: Text::copy_of(alloc, place.text)?,
    })
}

/// A node's item of a number, from 0. The line is looked for as in `row_of`.
pub(crate) fn listed_at(
    alloc: Global,
    grounds: &Grounds<'_>,
    node: &Node,
    item: usize,
    likely: usize,
) -> Result<Option<Listed>, AllocError>
    requires made { IsBasisOf grounds.now.job.now grounds.now.basis.now }
    ensures { IfOk result (λ listed. listed ≡ slice_get (listed_by grounds.now.job.now node.now) item) }
{
    let Some(entry) = entry_of(alloc, &grounds.basis.lookup.tables, node)? else {
        return Ok(None);
    };
    let row = row_of(alloc, grounds, node, likely)?;
    match row.get(item) {
        Some(place) => Ok(Some(listed_in(alloc, entry, place)?)),
        None => Ok(None),
    }
}
