//! The items of lists, and the faults of bad ones.
ghost use Rattle.std.specs.Prelude.{◌≡◌, ◌++◌, map, not, IfOk, OnOk};
ghost use Rattle.relay_text.specs.Addresses.{is_empty};
ghost use Rattle.relay_aliasfile.specs.Items.{item_of, item_texts, good_items, bad_items};
ghost use Rattle.relay_aliasfile.specs.IncludeFiles.{bad_item_faults};
ghost use Rattle.relay_aliasfile.specs.AliasFiles.{list_faults};
ghost use Rattle.relay_aliasfile.specs.ItemTexts.{bytes_in};
ghost use Rattle.relay_aliasfile.specs.Lists.{text_faults};

use crate::fault::{FaultKind, LineFault, add_fault};
use crate::item::Item;
use crate::item_text::ItemText;
use crate::item_texts::ItemTexts;
use crate::items::Items;
use std::alloc::{AllocError, Global};

/// Reads the items and the faults of an entry's list. A bad item is a fault at the line, and doesn't touch the others; a list that has no
/// item, good or bad, is a fault too.
pub(crate) fn read_list(
    alloc: Global,
    line: usize,
    list: &[u8],
    items: &mut Items,
    faults: &mut Vec<LineFault>,
) -> Result<(), AllocError>
    ensures items { OnOk result (items.new ≡ items.old ++ good_items list.now) }
    ensures faults { OnOk result (faults.new.items ≡ faults.old.items ++ list_faults line list.now) }
{
    let mut has_items = false;
    let mut texts = ItemTexts::new(list);
    while let Some(text) = texts.next_text() {
        has_items = true;
        if let Some(item) = read_item(alloc, line, text, faults)? {
            items.push(item)?;
        }
    }
    if has_items {
        return Ok(());
    }
    add_fault(line, FaultKind::Empty, faults)
}

/// The item that a text is; where it is none, a fault at the line.
pub(crate) fn read_item(
    alloc: Global,
    line: usize,
    text: ItemText<'_>,
    faults: &mut Vec<LineFault>,
) -> Result<Option<Item>, AllocError>
    ensures item { IfOk result (λ item. item ≡ item_of (bytes_in text.entry)) }
    ensures faults { OnOk result (faults.new.items ≡ faults.old.items ++ text_faults line (bytes_in text.entry)) }
{
    match text.item(alloc)? {
        Some(item) => Ok(Some(item)),
        None => {
            add_fault(line, FaultKind::BadItem, faults)?;
            Ok(None)
        }
    }
}

/// The texts of a list's bad items, trimmed, in their order. `Err` where memory runs out.
pub fn bad_items<'a>(alloc: Global, list: &'a [u8]) -> Result<Vec<&'a [u8]>, AllocError>
    ensures { IfOk result (λ bad. map (λ text. text.now) bad.items ≡ bad_items list.now) }
{
    let mut bad: Vec<&'a [u8]> = Vec::new(alloc);
    let mut texts = ItemTexts::new(list);
    while let Some(text) = texts.next_text() {
        if text.is_bad(alloc)? {
            bad.push(text.bytes())?;
        }
    }
    Ok(bad)
}
