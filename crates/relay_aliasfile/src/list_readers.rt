//! Who reads the lists of entries: one thread, or several.
ghost use Rattle.std.specs.Thread.{IsSync};

use crate::fault::LineFault;
use crate::items::Items;
use crate::list_parts::ListPart;
use crate::lists::read_list;
use relay_halves::is_long;
use std::alloc::{AllocError, Global};
use std::thread::Threads;

/// A reader of entries' lists.
pub(crate) trait ListReader {
    ghost use Rattle.std.specs.Prelude.{◌≡◌, ◌++◌, [], OnOk};
    ghost use Rattle.relay_aliasfile.specs.Items.{good_items};
    ghost use Rattle.relay_aliasfile.specs.AliasFiles.{list_faults};

    // that its threads may share what they need
    ghost may_share: { Type 0 };

    /// Reads the items of an entry's list, where there are none yet. What is wrong with it goes to the end of the faults.
    fn read(
        &self,
        alloc: Global,
        line: usize,
        list: &[u8],
        items: &mut Items,
        faults: &mut Vec<LineFault>,
    ) -> Result<(), AllocError>
        requires share { may_share }
        requires empty { items.old ≡ [] }
        ensures items { OnOk result (items.new ≡ good_items list.now) }
        ensures faults { OnOk result (faults.new.items ≡ faults.old.items ++ list_faults line list.now) };
}

/// This thread alone.
#[derive(Drop)]
pub(crate) struct OneReader;

impl ListReader for OneReader {
    ghost may_share = { Unit {0} };

    fn read(
        &self,
        alloc: Global,
        line: usize,
        list: &[u8],
        items: &mut Items,
        faults: &mut Vec<LineFault>,
    ) -> Result<(), AllocError> {
        read_list(alloc, line, list, items, faults)
    }
}

/// So many threads, this one among them, each of which reads a part of a long list.
#[derive(Drop)]
pub(crate) struct Readers<'a, R> {
    pub(crate) rt: &'a R,
    pub(crate) workers: usize,
}

impl<R: Threads + Sync> ListReader for Readers<'_, R> {
    ghost may_share = { IsSync R.row };

    fn read(
        &self,
        alloc: Global,
        line: usize,
        list: &[u8],
        items: &mut Items,
        faults: &mut Vec<LineFault>,
    ) -> Result<(), AllocError> {
        if !is_long(self.workers, list) {
            return read_list(alloc, line, list, items, faults);
        }
        let part = ListPart::read_all_by(self.rt, alloc, self.workers, line, list)?;
        *items = part.into_items(line, faults)?;
        Ok(())
    }
}
