//! The entries of an alias file while they are gathered.
ghost use Rattle.std.specs.Prelude.{◌≡◌, ◌<◌, ◌+◌, ◌^◌, ◌++◌, ◌∷◌, [], All, drop, map, OnOk};
ghost use Rattle.relay_aliasfile.specs.AliasFiles.{heading_of, list_faults, orphan_fault};
ghost use Rattle.relay_aliasfile.specs.AliasTables.{new_entry, new_entries, new_faults, next_repeat, repeats_behind};
ghost use Rattle.relay_aliasfile.specs.Headings.{heading_value};

use crate::aliases::AliasFile;
use crate::entry::Entry;
use crate::fault::{FaultKind, LineFault, add_fault};
use crate::heading::{Heading, heading_in};
use crate::items::Items;
use crate::list_readers::ListReader;
use relay_text::Seq;
use std::alloc::{AllocError, Global};

// Behind so many entries room is made for as many as are expected: a file whose lines are at fault takes none.
const FEW: usize = 64;

/// The entries of an alias file up to a line, which of the names from there on are repeats, and the faults.
#[derive(Drop)]
pub(crate) struct AliasTable<'a> {
    entries: Vec<Entry>,
    repeats: &'a [bool],
    faults: Vec<LineFault>,
    /// About how many entries are to come. Nothing but memory hangs on it.
    expected: usize,
}

impl<'a> AliasTable<'a> {
    /// No entries, without taking memory, where about so many are expected. The list says of each name that is to come whether it's a
    /// repeat; a name past its end is none.
    pub(crate) fn new(alloc: Global, expected: usize, repeats: &'a [bool]) -> AliasTable<'a>
        ensures entries { result.entries.items ≡ [] }
        ensures repeats { result.repeats.now ≡ repeats.now }
        ensures faults { result.faults.items ≡ [] }
    {
        AliasTable {
            entries: Vec::new(alloc),
            repeats,
            faults: Vec::new(alloc),
            expected,
        }
    }

    /// Makes room for the entries that are expected, once there are some.
    fn make_room(&mut self) -> Result<(), AllocError>
        ensures entries { OnOk result (self.new.entries.items ≡ self.old.entries.items) }
        ensures repeats { OnOk result (self.new.repeats ≡ self.old.repeats) }
        ensures faults { OnOk result (self.new.faults ≡ self.old.faults) }
    {
        if self.entries.len() == FEW {
            self.entries.reserve(self.expected)?;
        }
        Ok(())
    }

    /// Adds the lines that continue no logical line, where so many lines of the file stand before their text.
    pub(crate) fn add_orphans(&mut self, passed: usize, numbers: &[usize]) -> Result<(), AllocError>
        requires { All (λ n. passed + n < 2 ^ 64) numbers.now }
        ensures entries { OnOk result (self.new.entries ≡ self.old.entries) }
        ensures repeats { OnOk result (self.new.repeats ≡ self.old.repeats) }
        ensures faults { OnOk result (self.new.faults.items ≡ self.old.faults.items ++ map orphan_fault (map (λ n. passed + n) numbers.now)) }
    {
        for number in numbers {
            add_fault(passed + *number, FaultKind::BadLine, &mut self.faults)?;
        }
        Ok(())
    }

    /// Adds the entry of a logical line, or what is wrong with it. The list of a repeat isn't read.
    pub(crate) fn add_line<L: ListReader>(
        &mut self,
        lists: &L,
        alloc: Global,
        number: usize,
        text: &[u8],
    ) -> Result<(), AllocError>
        requires { L.may_share }
        ensures entries { OnOk result (self.new.entries.items ≡ self.old.entries.items ++ new_entries (next_repeat self.old.repeats.now) number (heading_of text.now)) }
        ensures repeats { OnOk result (self.new.repeats.now ≡ repeats_behind (heading_of text.now) self.old.repeats.now) }
        ensures faults { OnOk result (self.new.faults.items ≡ self.old.faults.items ++ new_faults (next_repeat self.old.repeats.now) number (heading_of text.now)) }
    {
        self.make_room()?;
        let Some(heading) = heading_in(alloc, text)? else {
            return add_fault(number, FaultKind::BadLine, &mut self.faults);
        };
        if self.take_repeat() {
            drop(heading.name);
            return add_fault(number, FaultKind::Duplicate, &mut self.faults);
        }
        self.add_entry(lists, alloc, number, heading)
    }

    /// Whether the next name is a repeat.
    fn take_repeat(&mut self) -> bool
        ensures value { result ≡ next_repeat self.old.repeats.now }
        ensures entries { self.new.entries ≡ self.old.entries }
        ensures repeats { self.new.repeats.now ≡ drop 1 self.old.repeats.now }
        ensures faults { self.new.faults ≡ self.old.faults }
    {
        let [is_repeat, rest @ ..] = self.repeats else {
            return false;
        };
        self.repeats = rest;
        *is_repeat
    }

    /// Adds an entry whose name is new. Where its list has no item, good or bad, it stays with no items.
    fn add_entry<L: ListReader>(
        &mut self,
        lists: &L,
        alloc: Global,
        line: usize,
        heading: Heading<'_>,
    ) -> Result<(), AllocError>
        requires { L.may_share }
        ensures entries { OnOk result (self.new.entries.items ≡ self.old.entries.items ++ new_entry line (heading_value heading.entry) ∷ []) }
        ensures repeats { OnOk result (self.new.repeats ≡ self.old.repeats) }
        ensures faults { OnOk result (self.new.faults.items ≡ self.old.faults.items ++ list_faults line heading.entry.list.now) }
    {
        let mut items = Items::new(alloc);
        let Ok(()) = lists.read(alloc, line, heading.list, &mut items, &mut self.faults) else {
            drop(items);
            drop(heading.name);
            return Err(AllocError);
        };
        self.entries.push(Entry {
            name: heading.name,
            line,
            items,
        })?;
        Ok(())
    }

    /// The file, without taking memory.
    pub(crate) fn into_file(self) -> AliasFile
        ensures { result ≡ record { entries = self.entry.entries.items; faults = self.entry.faults.items } }
    {
        AliasFile {
            entries: Seq::of(self.entries),
            faults: Seq::of(self.faults),
        }
    }
}
