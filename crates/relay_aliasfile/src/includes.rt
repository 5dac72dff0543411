//! Include files.
ghost use Rattle.std.specs.Prelude.{◌≡◌, ◌<◌, ◌++◌, [], true, false, length, flat_map, IfOk, OnOk};
ghost use Rattle.relay_text.specs.KeptLines.{kept_rest};
ghost use Rattle.relay_aliasfile.specs.IncludeFiles.{include_file_of, items_in, faults_in, bad_item_faults};
ghost use Rattle.relay_aliasfile.specs.Items.{good_items};
ghost use Rattle.relay_aliasfile.specs.IncludeNames.{include_names_in};

use crate::distinct::distinct_texts;
use crate::fault::LineFault;
use crate::item::Item;
use crate::item_counts::about_items;
use crate::item_text::ItemText;
use crate::item_texts::ItemTexts;
use crate::lists::read_item;
use crate::paths::add_paths;
use relay_text::{KeptLines, Seq, Text};
use std::alloc::{AllocError, Global};

/// The items of an include file, and the lines at fault.
#[derive(Drop)]
pub struct IncludeFile {
    /// The good items of all lines, in order.
    pub items: Seq<Item>,
    /// A `BadItem` for each bad item, by line.
    pub faults: Seq<LineFault>,
}

/// The items of an include file (aliases(5), ":include:/file/name"). Each line that isn't ignored is a list by itself, as an entry of
/// an alias file has it; a line that begins with white space continues none. Every text is accepted, and `BadItem` is the one fault
/// that it may have. `Err` where memory runs out.
#[tactic(auto, unfolding(crate::specs::IncludeFiles::include_file_of))]
pub fn parse_include(alloc: Global, bytes: &[u8]) -> Result<IncludeFile, AllocError>
    ensures { IfOk result (λ file. file ≡ include_file_of bytes.now) }
{
    let mut items = room_for(alloc, about_items(bytes));
    let mut faults: Vec<LineFault> = Vec::new(alloc);
    let mut lines = KeptLines::new(bytes);
    while read_next(alloc, &mut lines, &mut items, &mut faults)? {}
    Ok(IncludeFile {
        items: Seq::of(items),
        faults: Seq::of(faults),
    })
}

/// Reads the items of the next line, in place where it is one text without quotes, and says whether there was one.
fn read_next(
    alloc: Global,
    lines: &mut KeptLines<'_>,
    items: &mut Vec<Item>,
    faults: &mut Vec<LineFault>,
) -> Result<bool, AllocError>
    ensures items { OnOk result (items.new.items ++ flat_map items_in (kept_rest lines.new) ≡ items.old.items ++ flat_map items_in (kept_rest lines.old)) }
    ensures faults { OnOk result (faults.new.items ++ flat_map faults_in (kept_rest lines.new) ≡ faults.old.items ++ flat_map faults_in (kept_rest lines.old)) }
    ensures more { IfOk result (λ more. more ≡ true → length (kept_rest lines.new) < length (kept_rest lines.old)) }
    ensures ended { IfOk result (λ more. more ≡ false → kept_rest lines.new ≡ []) }
{
    if let Some(line) = lines.next_plain() {
        if let Some(item) = read_item(alloc, line.number, ItemText::Plain(line.text), faults)? {
            items.push(item)?;
        }
        return Ok(true);
    }
    let Some(line) = lines.next_line() else {
        return Ok(false);
    };
    read_line_items(alloc, line.number, line.text, items, faults)?;
    Ok(true)
}

/// Room for so many items, made at once: threads that ask one heap again and again wait for each other. Where it is refused there is none,
/// and it is asked for as the items come, of which there may be fewer.
fn room_for(alloc: Global, count: usize) -> Vec<Item>
    ensures { result.items ≡ [] }
{
    match Vec::with_capacity(alloc, count) {
        Ok(items) => items,
        Err(AllocError) => Vec::new(alloc),
    }
}

/// Reads the items of a line. A bad item is a fault at the line, and doesn't touch the others.
pub(crate) fn read_line_items(
    alloc: Global,
    line: usize,
    list: &[u8],
    items: &mut Vec<Item>,
    faults: &mut Vec<LineFault>,
) -> Result<(), AllocError>
    ensures items { OnOk result (items.new.items ≡ items.old.items ++ good_items list.now) }
    ensures faults { OnOk result (faults.new.items ≡ faults.old.items ++ bad_item_faults line list.now) }
{
    let mut texts = ItemTexts::new(list);
    while let Some(text) = texts.next_text() {
        if let Some(item) = read_item(alloc, line, text, faults)? {
            items.push(item)?;
        }
    }
    Ok(())
}

/// The distinct paths of an include file's include items, each by its first place, byte by byte: case counts. `Err` where memory runs
/// out.
pub fn include_names_of(alloc: Global, file: &IncludeFile) -> Result<Seq<Text>, AllocError>
    ensures { IfOk result (λ names. names ≡ include_names_in file.now.items) }
{
    let mut paths: Vec<Text> = Vec::new(alloc);
    add_paths(alloc, file.items.as_slice(), &mut paths)?;
    distinct_texts(alloc, paths)
}
