//! Alias files.
//!
//! The logical lines of a file are read one after another, and each makes its entry at once, as if no name came again. Only then are
//! the names sought that do. Where there are some, the file is read once more, and their lines are duplicates. So beside the entries
//! there stand, while they are made, only the faults and the parts of one joined line: all lines with their headings and the places of
//! their names would take some 140 bytes a line. An administrator's file seldom repeats a name, so it's mostly read once.
//!
//! Several threads each read a part of a long file, from one logical line to another, and a part of a long list, from one item to another.
//! The second reading is one thread's.
ghost use Rattle.std.specs.Prelude.{◌≡◌, ◌<◌, ◌+◌, ◌-◌, ◌^◌, ◌++◌, [], length, map, IfOk, OnOk};
ghost use Rattle.std.specs.Result.{result_ok};
ghost use Rattle.std.specs.Thread.{IsSync};
ghost use Rattle.relay_aliasfile.specs.AliasFiles.{alias_file_of, entry_items};
ghost use Rattle.relay_aliasfile.specs.AliasTables.{added_by, file_behind, new_entries, new_faults, IsBoth};
ghost use Rattle.relay_halves.specs.Halves.{moved, AreUpTo};
ghost use Rattle.relay_aliasfile.specs.IncludeNames.{include_names_in};

use crate::alias_table::AliasTable;
use crate::distinct::distinct_texts;
use crate::entry::Entry;
use crate::fault::LineFault;
use crate::list_readers::{ListReader, OneReader, Readers};
use crate::paths::add_paths;
use crate::repeats::repeats_of;
use relay_halves::{about_lines, halves, line_count};
use relay_text::{LogicalLines, Seq, Text};
use std::alloc::{AllocError, Global};
use std::thread::{Threads, join};

/// The entries of an alias file, and the lines at fault.
#[derive(Drop)]
pub struct AliasFile {
    /// The first entry of each name, in order.
    pub entries: Seq<Entry>,
    /// What is wrong with the lines, by their numbers, and on one line by the places of its bad items.
    pub faults: Seq<LineFault>,
}

/// The entries of an alias file (aliases(5)). Each logical line is a name, spelled as the local part of an address is and folded, white
/// space or none, a colon outside quotes, and a list of items between commas outside quotes, where empty items are skipped.
///
/// Every text is accepted. `BadLine` stands for a line that has no such name and colon, or that continues no logical line; `Duplicate`
/// for an entry whose name was there before, which is dropped with its list unread; `Empty` for an entry whose list has no item, good or
/// bad, and which stays; `BadItem` for each item that is none of `Item`'s kinds, has a byte other than tab and 32 to 126, or leaves a
/// quote open. `Err` where memory runs out.
pub fn parse_aliases(alloc: Global, bytes: &[u8]) -> Result<AliasFile, AllocError>
    ensures { IfOk result (λ file. file ≡ alias_file_of bytes.now) }
{
    let file = read_file(&OneReader, alloc, 0, 0, bytes, &[])?;
    with_duplicates(alloc, bytes, file)
}

/// The same by so many threads, where the text is long. `Err` where memory runs out.
pub fn parse_aliases_by<R: Threads + Sync>(
    rt: &R,
    alloc: Global,
    workers: usize,
    bytes: &[u8],
) -> Result<AliasFile, AllocError>
    ensures { IfOk result (λ file. file ≡ alias_file_of bytes.now) }
{
    let file = read_file_by(rt, alloc, workers, about_lines(bytes), 0, bytes)?;
    with_duplicates(alloc, bytes, file)
}

/// The file of a text that was read as if no name came again: this one, where none does.
#[tactic(auto, using(crate::proofs::AliasLines::read_again))]
fn with_duplicates(alloc: Global, bytes: &[u8], file: AliasFile) -> Result<AliasFile, AllocError>
    requires { file ≡ file_behind 0 [] bytes.now }
    ensures { IfOk result (λ file. file ≡ alias_file_of bytes.now) }
{
    let repeats = repeats_of(alloc, file.entries.as_slice())?;
    if !repeats.contains(&true) {
        return Ok(file);
    }
    drop(file);
    read_file(&OneReader, alloc, 0, 0, bytes, &repeats)
}

/// The alias file of which the names are repeats that the list says are, one after another; a name past its end is none. So many lines
/// of the file stand before the text, and about so many entries are expected, of this text and of those that are put behind them.
fn read_file<L: ListReader>(
    lists: &L,
    alloc: Global,
    expected: usize,
    passed: usize,
    bytes: &[u8],
    repeats: &[bool],
) -> Result<AliasFile, AllocError>
    requires share { L.may_share }
    requires numbers { passed + length bytes.now < 2 ^ 64 }
    ensures { IfOk result (λ file. file ≡ file_behind passed repeats.now bytes.now) }
{
    let mut table = AliasTable::new(alloc, expected, repeats);
    add_text(lists, alloc, passed, bytes, &mut table)?;
    Ok(table.into_file())
}

/// Adds the lines of a text, where so many lines of the file stand before it.
fn add_text<L: ListReader>(
    lists: &L,
    alloc: Global,
    passed: usize,
    bytes: &[u8],
    table: &mut AliasTable<'_>,
) -> Result<(), AllocError>
    requires share { L.may_share }
    requires numbers { passed + length bytes.now < 2 ^ 64 }
    ensures entries { OnOk result (table.new.entries.items ≡ table.old.entries.items ++ (file_behind passed table.old.repeats.now bytes.now).entries) }
    ensures faults { OnOk result (table.new.faults.items ≡ table.old.faults.items ++ (file_behind passed table.old.repeats.now bytes.now).faults) }
{
    let mut lines = LogicalLines::new(alloc, bytes)?;
    table.add_orphans(passed, lines.orphans())?;
    add_lines(lists, alloc, passed, &mut lines, table)
}

/// Adds the logical lines that are left, where so many lines of the file stand before their text.
fn add_lines<L: ListReader>(
    lists: &L,
    alloc: Global,
    passed: usize,
    lines: &mut LogicalLines<'_>,
    table: &mut AliasTable<'_>,
) -> Result<(), AllocError>
    requires share { L.may_share }
    requires numbers { AreUpTo (2 ^ 64 - 1 - passed) lines.old.lines }
    ensures entries { OnOk result (table.new.entries.items ≡ table.old.entries.items ++ added_by new_entries table.old.repeats.now (map (moved passed) lines.old.lines)) }
    ensures faults { OnOk result (table.new.faults.items ≡ table.old.faults.items ++ added_by new_faults table.old.repeats.now (map (moved passed) lines.old.lines)) }
{
    let mut joined = Vec::new(alloc);
    while let Some(line) = lines.next_line(&mut joined)? {
        table.add_line(lists, alloc, passed + line.number, line.text)?;
    }
    Ok(())
}

/// The same with no repeats by so many threads, this one among them, where the text is long enough for two.
fn read_file_by<R: Threads + Sync>(
    rt: &R,
    alloc: Global,
    workers: usize,
    expected: usize,
    passed: usize,
    bytes: &[u8],
) -> Result<AliasFile, AllocError>
    requires { passed + length bytes.now < 2 ^ 64 }
    ensures { IfOk result (λ file. file ≡ file_behind passed [] bytes.now) }
{
    let Some((front, back)) = halves(workers, bytes) else {
        return read_file(
            &Readers { rt, workers },
            alloc,
            expected,
            passed,
            bytes,
            &[],
        );
    };
    let behind = passed + line_count(front);
    let share = workers / 2;
    let rest = workers - share;
    let fewer = about_lines(back);
    let (here, there) = join(
        rt,
        || -> Result<AliasFile, AllocError>
            requires { IsSync R.row × (passed + length front.now < 2 ^ 64) }
            ensures { IfOk result (λ file. file ≡ file_behind passed [] front.entry.now) }
        { read_file_by(rt, alloc, share, expected, passed, front) },
        || -> Result<AliasFile, AllocError>
            requires { IsSync R.row × (behind + length back.now < 2 ^ 64) }
            ensures { IfOk result (λ file. file ≡ file_behind behind [] back.entry.now) }
        { read_file_by(rt, alloc, rest, fewer, behind, back) },
    );
    both_files(here, there)
}

/// The files of two parts of a text as one, where both were read.
fn both_files(
    here: Result<AliasFile, AllocError>,
    there: Result<AliasFile, AllocError>,
) -> Result<AliasFile, AllocError>
    ensures { IfOk result (IsBoth (result_ok here) (result_ok there)) }
{
    let Ok(first) = here else {
        return Err(AllocError);
    };
    let Ok(second) = there else {
        drop(first);
        return Err(AllocError);
    };
    let mut entries = first.entries.into_vec();
    entries.append(&mut second.entries.into_vec())?;
    let mut faults = first.faults.into_vec();
    faults.append(&mut second.faults.into_vec())?;
    Ok(AliasFile {
        entries: Seq::of(entries),
        faults: Seq::of(faults),
    })
}

/// The distinct paths of an alias file's include items, each by its first place, byte by byte: case counts. `Err` where memory runs
/// out.
pub fn include_names(alloc: Global, file: &AliasFile) -> Result<Seq<Text>, AllocError>
    ensures { IfOk result (λ names. names ≡ include_names_in (entry_items file.now.entries)) }
{
    let mut paths: Vec<Text> = Vec::new(alloc);
    for entry in file.entries.as_slice() {
        add_paths(alloc, entry.items.as_slice(), &mut paths)?;
    }
    distinct_texts(alloc, paths)
}
