//! Where the good items of lists stand.
ghost use Rattle.std.specs.Prelude.{◌≡◌, ◌++◌, [], map, IfOk, OnOk};
ghost use Rattle.relay_aliasfile.specs.ItemPlaces.{place_value, places_in, include_places_of};

use crate::entry::Entry;
use crate::heading::entry_list;
use crate::item_texts::ItemTexts;
use relay_text::{KeptLines, Line};
use std::alloc::{AllocError, Global};

/// A good item as its file has it.
#[derive(Clone, Copy)]
pub struct ItemPlace<'a> {
    /// The number of its line, from 1; of the first one where a logical line has several.
    pub line: usize,
    /// Its number among the items of its list, good or bad, from 1. Items that are empty don't count.
    pub item: usize,
    /// Its text, without the white space at its ends.
    pub text: &'a [u8],
}

/// Adds the places of the good items of a list, in order, that stands at a line.
fn add_places<'a>(
    alloc: Global,
    line: usize,
    list: &'a [u8],
    places: &mut Vec<ItemPlace<'a>>,
) -> Result<(), AllocError>
    ensures { OnOk result (map place_value places.new.items ≡ map place_value places.old.items ++ places_in line list.now) }
{
    let mut texts = ItemTexts::new(list);
    let mut item = 0;
    while let Some(text) = texts.next_text() {
        item += 1;
        if !text.is_bad(alloc)? {
            places.push(ItemPlace {
                line,
                item,
                text: text.bytes(),
            })?;
        }
    }
    Ok(())
}

/// The places of the good items of an entry's list, in order, where the entry stands at a line. `Err` where memory runs out.
pub fn list_places<'a>(
    alloc: Global,
    line: usize,
    list: &'a [u8],
) -> Result<Vec<ItemPlace<'a>>, AllocError>
    ensures { IfOk result (λ places. map place_value places.items ≡ places_in line list.now) }
{
    let mut places = Vec::new(alloc);
    add_places(alloc, line, list, &mut places)?;
    Ok(places)
}

/// The places of an include file's good items, in order, each at its line. `Err` where memory runs out.
#[tactic(auto, unfolding(crate::specs::ItemPlaces::include_places_of))]
pub fn include_places<'a>(alloc: Global, bytes: &'a [u8]) -> Result<Vec<ItemPlace<'a>>, AllocError>
    ensures { IfOk result (λ places. map place_value places.items ≡ include_places_of bytes.now) }
{
    let mut places = Vec::new(alloc);
    let mut lines = KeptLines::new(bytes);
    while let Some(line) = lines.next_line() {
        add_places(alloc, line.number, line.text, &mut places)?;
    }
    Ok(places)
}

ghost use Rattle.std.specs.Prelude.{ℕ, ◌<◌, List, AllPairs, Contains};
ghost use Rattle.relay_text.specs.Lines.{logical_lines_of};
ghost use Rattle.relay_text.specs.declared.lines.Line as logical;
ghost use Rattle.relay_aliasfile.specs.Items.{good_items};
ghost use Rattle.relay_aliasfile.specs.AliasFiles.{alias_file_of};
ghost use Rattle.relay_aliasfile.specs.IncludeFiles.{include_file_of};
ghost use Rattle.relay_aliasfile.specs.ItemPlaces.{IsEntryLine, IsRowOf, item_at};
ghost use Rattle.relay_aliasfile.specs.declared.entry.Entry as entry;

/// The places of the good items of an entry, in order, where its line is among these logical lines. `Err` where memory runs out.
pub fn entry_places<'a>(
    alloc: Global,
    lines: &'a [Line],
    entry: &Entry,
) -> Result<Vec<ItemPlace<'a>>, AllocError>
    requires ascending { AllPairs (λ a b. a.number < b.number) lines.now }
    requires there { (l : logical.Line) × IsEntryLine lines.now entry.now l }
    ensures { IfOk result (λ places. IsRowOf lines.now entry.now (map place_value places.items)) }
{
    let Ok(place) = lines.binary_search_by_key(&entry.line, |line| line.number) else {
        unreachable!()
    };
    match entry_list(alloc, lines[place].text.as_bytes())? {
        Some(list) => list_places(alloc, entry.line, list),
        None => unreachable!(),
    }
}

/// A law, with nothing to run: the places of a list or of an include file are those of its good items, one by one.
pub fn places_of_items()
    ensures of_list { (line : ℕ) (list : List ℕ) → map item_at (places_in line list) ≡ map (λ item. Some item) (good_items list) }
    ensures of_include { (text : List ℕ) → map item_at (include_places_of text) ≡ map (λ item. Some item) (include_file_of text).items }
{}

/// A law, with nothing to run: each entry of an alias file has a logical line, and the numbers of these ascend.
pub fn entries_on_lines()
    ensures there { (text : List ℕ) (e : entry.Entry) → Contains (alias_file_of text).entries e → (l : logical.Line) × IsEntryLine (logical_lines_of text).lines e l }
    ensures ascending { (text : List ℕ) → AllPairs (λ a b. a.number < b.number) (logical_lines_of text).lines }
{}
