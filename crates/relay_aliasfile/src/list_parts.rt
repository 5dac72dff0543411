//! The parts of a long list, which several threads read.
use crate::fault::{FaultKind, LineFault, add_fault};
use crate::includes::read_line_items;
use crate::item::Item;
use crate::items::Items;
use crate::list_cuts::{last_part, unquoted_front};
use std::alloc::{AllocError, Global};
use std::thread::{Threads, join};

/// The good items of a part of a list, and the faults of its bad ones.
#[derive(Drop)]
pub(crate) struct ListPart {
    pub(crate) items: Vec<Item>,
    pub(crate) faults: Vec<LineFault>,
}

ghost use Rattle.std.specs.Prelude.{◌≡◌, ◌++◌, IfOk, OnOk};
ghost use Rattle.std.specs.Result.{result_ok};
ghost use Rattle.std.specs.Thread.{IsSync};
ghost use Rattle.relay_aliasfile.specs.ListCuts.{HasNoQuotes};
ghost use Rattle.relay_aliasfile.specs.ListParts.{told_faults, AreBoth, IsRead};

impl ListPart {
    /// Reads a part by one thread.
    pub(crate) fn read(alloc: Global, line: usize, list: &[u8]) -> Result<ListPart, AllocError>
        ensures { IfOk result (IsRead line list.now) }
    {
        let items: Vec<Item> = Vec::new(alloc);
        let faults: Vec<LineFault> = Vec::new(alloc);
        let mut part = ListPart { items, faults };
        read_line_items(alloc, line, list, &mut part.items, &mut part.faults)?;
        Ok(part)
    }

    /// Reads a list by so many threads, this one among them. It reads what stands behind the last comma before the first quote itself.
    pub(crate) fn read_all_by<R: Threads + Sync>(
        rt: &R,
        alloc: Global,
        workers: usize,
        line: usize,
        list: &[u8],
    ) -> Result<ListPart, AllocError>
        ensures { IfOk result (IsRead line list.now) }
    {
        let (front, back) = unquoted_front(list);
        let mut part = ListPart::read_by(rt, alloc, workers, line, front)?;
        read_line_items(alloc, line, back, &mut part.items, &mut part.faults)?;
        Ok(part)
    }

    /// Reads a part without quotes by so many threads, this one among them, where it is long enough for two. This one starts the others,
    /// each for the last part of what is left, and reads the first part itself.
    pub(crate) fn read_by<R: Threads + Sync>(
        rt: &R,
        alloc: Global,
        workers: usize,
        line: usize,
        list: &[u8],
    ) -> Result<ListPart, AllocError>
        requires { HasNoQuotes list.now }
        ensures { IfOk result (IsRead line list.now) }
    {
        let Some((front, back)) = last_part(workers, list) else {
            return ListPart::read(alloc, line, list);
        };
        let rest = workers - 1;
        let (there, here) = join(
            rt,
            || -> Result<ListPart, AllocError>
                ensures { IfOk result (IsRead line back.entry.now) }
            { ListPart::read(alloc, line, back) },
            || -> Result<ListPart, AllocError>
                requires { IsSync R.row × HasNoQuotes front.now }
                ensures { IfOk result (IsRead line front.entry.now) }
            { ListPart::read_by(rt, alloc, rest, line, front) },
        );
        ListPart::both(here, there)
    }

    /// Two parts as one, where both were read.
    fn both(
        here: Result<ListPart, AllocError>,
        there: Result<ListPart, AllocError>,
    ) -> Result<ListPart, AllocError>
        ensures { IfOk result (AreBoth (result_ok here) (result_ok there)) }
    {
        let Ok(mut part) = here else {
            return Err(AllocError);
        };
        let Ok(more) = there else {
            return Err(AllocError);
        };
        part.append(more)?;
        Ok(part)
    }

    /// Adds what the part behind this has, in room for just that: this may be large.
    fn append(&mut self, mut more: ListPart) -> Result<(), AllocError>
        ensures items { OnOk result (self.new.items.items ≡ self.old.items.items ++ more.items.items) }
        ensures faults { OnOk result (self.new.faults.items ≡ self.old.faults.items ++ more.faults.items) }
    {
        self.items.reserve_exact(more.items.len())?;
        self.items.append(&mut more.items)?;
        self.faults.append(&mut more.faults)?;
        Ok(())
    }

    /// The items of a list that has these items and faults, where its faults go to the end of others. A list that has neither has no
    /// item, good or bad, which is a fault.
    pub(crate) fn into_items(
        mut self,
        line: usize,
        faults: &mut Vec<LineFault>,
    ) -> Result<Items, AllocError>
        ensures items { IfOk result (λ items. items ≡ self.items.items) }
        ensures faults { OnOk result (faults.new.items ≡ faults.old.items ++ told_faults line self) }
    {
        if self.items.is_empty() && self.faults.is_empty() {
            add_fault(line, FaultKind::Empty, faults)?;
        }
        faults.append(&mut self.faults)?;
        Ok(Items::of(self.items))
    }
}
