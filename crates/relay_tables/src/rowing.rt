//! Rows of node numbers: the children of each entry, and the recipients' targets.
ghost use Rattle.std.specs.Prelude.{◌≡◌, ◌<◌, ◌≤◌, ◌+◌, ◌^◌, [], length, map, flat_map, IfOk, OnOk, IfSome, IsTrue};
ghost use Rattle.std.specs.List.{list_all};
ghost use Rattle.relay_tables.specs.Parts.{is_good_item};
ghost use Rattle.relay_tables.specs.Targets.{item_target, recipient_target, targets_of};
ghost use Rattle.relay_tables.specs.Graphs.{entry_nodes};
ghost use Rattle.relay_tables.specs.Numbering.{Numbers};
ghost use Rattle.relay_tables.specs.Rowing.{nodes_in, some_of, LeadTo};

use crate::adjacency::Adjacency;
use crate::fault::TableFault;
use crate::leading::{number_address, number_item};
use crate::listed::{Listed, entry_count, list_of};
use crate::numbering::Numbering;
use crate::tables::Tables;
use relay_text::Address;
use std::alloc::Global;

/// What is written over for each row: a folded name, and the numbers of a row.
#[derive(Drop)]
pub(crate) struct Scratch {
    pub(crate) name: Vec<u8>,
    pub(crate) row: Vec<u32>,
}

impl Scratch {
    /// Nothing is written yet.
    pub(crate) fn new(alloc: Global) -> Scratch {
        Scratch {
            name: Vec::new(alloc),
            row: Vec::new(alloc),
        }
    }
}

/// The numbers of the targets of items, in their order, with repeats: they go into the scratch's row.
pub(crate) fn number_items(
    tables: &Tables,
    list: Listed<'_>,
    names: &mut Numbering,
    scratch: &mut Scratch,
) -> Result<(), TableFault>
    requires items { IsTrue (list_all is_good_item list.items.now) }
    requires parent { IfSome list.parent (λ number. number < length tables.now.aliases) }
    ensures row { OnOk result (nodes_in names.new.nodes scratch.new.row.items ≡ some_of (map (item_target tables.now list.entry.parent) list.entry.items.now)) }
    ensures numbers { Numbers names.old (map (item_target tables.now list.entry.parent) list.entry.items.now) result names.new }
{
    let Listed { items, parent } = list;
    scratch.row.clear();
    for item in items {
        let number = number_item(tables, item, parent, names, &mut scratch.name)?;
        scratch.row.push(number)?;
    }
    Ok(())
}

/// A row for each alias and then for each include file, where there are none yet: the targets of its items.
pub(crate) fn number_entries(
    tables: &Tables,
    names: &mut Numbering,
    scratch: &mut Scratch,
    rows: &mut Adjacency,
) -> Result<(), TableFault>
    requires none { rows.old ≡ [] }
    requires few { length tables.now.aliases + length tables.now.includes ≤ 2 ^ 24 }
    ensures rows { OnOk result (LeadTo names.new.nodes rows.new (map (targets_of tables.now) (entry_nodes tables.now))) }
    ensures numbers { Numbers names.old (flat_map (targets_of tables.now) (entry_nodes tables.now)) result names.new }
{
    for number in 0..entry_count(tables) {
        number_items(tables, list_of(tables, number), names, scratch)?;
        rows.push(&scratch.row)?;
    }
    Ok(())
}

/// The recipients' targets, in order, with repeats.
pub(crate) fn number_recipients(
    alloc: Global,
    tables: &Tables,
    recipients: &[Address],
    names: &mut Numbering,
    scratch: &mut Scratch,
) -> Result<Vec<u32>, TableFault>
    ensures roots { IfOk result (λ roots. nodes_in names.new.nodes roots.items ≡ some_of (map (recipient_target tables.now) recipients.now)) }
    ensures numbers { Numbers names.old (map (recipient_target tables.now) recipients.now) result names.new }
{
    let mut roots = Vec::with_capacity(alloc, recipients.len())?;
    for address in recipients {
        let number = number_address(tables, address, None, names, &mut scratch.name)?;
        roots.push_reserved(number);
    }
    Ok(roots)
}
