//! The lists of a job that have bad items.
use relay_aliasfile::{FaultKind, LineFault, entry_list, parse_aliases, parse_include};
use relay_job::{Job, JobInclude};
use relay_text::{KeptLines, Line};
use std::alloc::{AllocError, Global};
use std::collections::{BTreeMap, BTreeSet};

/// The lists of a job that have bad items, under the words by which findings name their lines, and so in the order of the findings.
#[derive(Drop)]
pub struct BadLists<'a> {
    by_place: BTreeMap<Vec<u8>, &'a [u8]>,
}

impl<'a> BadLists<'a> {
    /// Those of a job, where these are the logical lines of its alias file.
    pub(crate) fn of(
        alloc: Global,
        job: &'a Job,
        lines: &'a [Line],
    ) -> Result<BadLists<'a>, AllocError> {
        let mut lists = BadLists {
            by_place: BTreeMap::new(alloc),
        };
        lists.add_aliases(alloc, job.aliases.as_bytes(), lines)?;
        for include in job.includes.as_slice() {
            lists.add_include(alloc, include)?;
        }
        Ok(lists)
    }

    /// Adds the lists of an alias file, where these are its logical lines.
    fn add_aliases(
        &mut self,
        alloc: Global,
        bytes: &[u8],
        lines: &'a [Line],
    ) -> Result<(), AllocError> {
        let file = parse_aliases(alloc, bytes)?;
        let numbers = bad_lines(alloc, file.faults.as_slice())?;
        for line in lines {
            if numbers.contains(&line.number) {
                if let Some(list) = entry_list(alloc, line.text.as_bytes())? {
                    self.add(alloc, b"aliases", line.number, list)?;
                }
            }
        }
        Ok(())
    }

    /// Adds the lists of an include file, each of which is a line.
    fn add_include(&mut self, alloc: Global, include: &'a JobInclude) -> Result<(), AllocError> {
        let file = parse_include(alloc, include.bytes.as_bytes())?;
        let numbers = bad_lines(alloc, file.faults.as_slice())?;
        let mut words = Vec::from_slice(alloc, b"include ")?;
        words.extend_from_slice(include.path.as_bytes())?;
        for line in KeptLines::new(include.bytes.as_bytes()) {
            if numbers.contains(&line.number) {
                self.add(alloc, words.as_slice(), line.number, line.text)?;
            }
        }
        Ok(())
    }

    /// Adds the list at a line of a file.
    fn add(
        &mut self,
        alloc: Global,
        file: &[u8],
        number: usize,
        list: &'a [u8],
    ) -> Result<(), AllocError> {
        let digits = format!(in alloc; "{number}")?;
        let mut place = Vec::from_slice(alloc, file)?;
        place.extend_from_slice(b" line ")?;
        place.extend_from_slice(digits.as_bytes())?;
        self.by_place.insert(place, list)?;
        Ok(())
    }

    /// The lists, each behind the words that name its line.
    pub(crate) fn into_places(self) -> BTreeMap<Vec<u8>, &'a [u8]> {
        let BadLists { by_place } = self;
        by_place
    }
}

/// The numbers of the lines that have a bad item.
fn bad_lines(alloc: Global, faults: &[LineFault]) -> Result<BTreeSet<usize>, AllocError> {
    let mut numbers = BTreeSet::new(alloc);
    for fault in faults {
        if fault.kind == FaultKind::BadItem {
            numbers.insert(fault.line)?;
        }
    }
    Ok(numbers)
}
