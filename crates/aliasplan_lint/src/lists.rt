//! Where the items of lists stand in their files.
use crate::lint::Spot;
use crate::section::Section;
use relay_aliasfile::{bad_items, list_places};
use relay_text::KeptLine;
use std::alloc::{AllocError, Global};

/// An item of a list, good or bad, and how many bytes of the list stand before it.
#[derive(Clone, Copy)]
pub(crate) struct ListItem<'a> {
    pub(crate) text: &'a [u8],
    pub(crate) start: usize,
    pub(crate) is_good: bool,
}

/// What follows the commas and the white space at the front of a list.
fn item_front(list: &[u8]) -> &[u8] {
    let mut rest = list;
    while let [b' ' | b'\t' | b',', more @ ..] = rest {
        rest = more;
    }
    rest
}

/// The items of a list, in order.
pub(crate) fn list_items<'a>(
    alloc: Global,
    list: &'a [u8],
) -> Result<Vec<ListItem<'a>>, AllocError> {
    let places = list_places(alloc, 1, list)?;
    let faults = bad_items(alloc, list)?;
    let mut good = places.as_slice();
    let mut bad = faults.as_slice();
    let mut items = Vec::new(alloc);
    let mut rest = list;
    for before in 0..places.len().saturating_add(faults.len()) {
        let (text, is_good) = match (good, bad) {
            ([place, more @ ..], _) if place.item == before + 1 => {
                good = more;
                (place.text, true)
            }
            (_, [text, more @ ..]) => {
                bad = more;
                (*text, false)
            }
            _ => return Ok(items),
        };
        rest = item_front(rest);
        let start = list.len().saturating_sub(rest.len());
        rest = rest.get(text.len()..).unwrap_or(&[]);
        items.push(ListItem {
            text,
            start,
            is_good,
        })?;
    }
    Ok(items)
}

/// Physical lines from one on, in which a list stands, and how many bytes stand in those that were passed.
#[derive(Clone, Copy)]
pub(crate) struct Locator<'a, 'b> {
    pub(crate) section: Section<'a>,
    pub(crate) lines: &'b [KeptLine<'a>],
    pub(crate) passed: usize,
}

impl<'a> Locator<'a, '_> {
    /// Where the byte stands that has so many before it in the lines; never less than before.
    pub(crate) fn spot(&mut self, before: usize) -> Spot<'a> {
        while let [first, more @ ..] = self.lines {
            let column = before.saturating_sub(self.passed);
            if column < first.text.len() || more.is_empty() {
                return Spot {
                    section: self.section,
                    line: first.number,
                    column: Some(column.saturating_add(1)),
                };
            }
            self.passed = self.passed.saturating_add(first.text.len());
            self.lines = more;
        }
        Spot {
            section: self.section,
            line: 1,
            column: None,
        }
    }
}
