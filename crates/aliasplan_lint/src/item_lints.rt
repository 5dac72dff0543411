//! What is told of the items of a list.
use crate::lint::Spot;
use crate::lints::{Lints, Remark};
use crate::lists::{Locator, list_items};
use crate::names::Names;
use relay_aliasfile::{Item, item_reason};
use relay_text::{Address, Text, write_local, write_path};
use relay_wire::{Finding, LineWord, Place};
use std::alloc::{AllocError, Global};

/// Where a list stands: in an entry or an include file, from a line of its section on.
#[derive(Clone, Copy)]
pub(crate) struct ListPlace<'a> {
    /// The name of the entry, or the path of the include file.
    pub(crate) name: &'a [u8],
    pub(crate) is_include: bool,
    pub(crate) line: usize,
}

impl ListPlace<'_> {
    fn place(self, alloc: Global) -> Result<Place, AllocError> {
        let name = Text::copy_of(alloc, self.name)?;
        if self.is_include {
            Ok(Place::Include(name))
        } else {
            Ok(Place::Alias(name))
        }
    }

    /// The finding of a bad item of the list.
    fn bad_item(self, alloc: Global) -> Result<Finding, AllocError> {
        if self.is_include {
            let path = Text::copy_of(alloc, self.name)?;
            Ok(Finding::Include(path, self.line, LineWord::BadItem))
        } else {
            Ok(Finding::Aliases(self.line, LineWord::BadItem))
        }
    }
}

/// Tells of a finding on an item, if the check has found it.
fn tell<'a>(
    alloc: Global,
    finding: Finding,
    spot: Spot<'a>,
    words: (&[u8], &[u8]),
    lints: &mut Lints<'a>,
) -> Result<(), AllocError> {
    let remark = Remark {
        finding: &finding,
        spot,
        subject: words.0,
        reason: words.1,
        is_noted: false,
    };
    lints.tell(alloc, remark)
}

/// Tells what may be found of a local name.
fn tell_name<'a>(
    alloc: Global,
    names: &Names<'_>,
    at: (ListPlace<'_>, Spot<'a>),
    name: &[u8],
    lints: &mut Lints<'a>,
) -> Result<(), AllocError> {
    let (list, spot) = at;
    let mut folded = Text::copy_of(alloc, name)?;
    folded.fold();
    if names.may_be_mailbox(folded.as_bytes(), list) {
        let mut path = Vec::from_slice(alloc, b"<")?;
        write_local(folded.as_bytes(), &mut path)?;
        path.push(b'@')?;
        path.extend_from_slice(names.origin)?;
        path.push(b'>')?;
        lints.tell_unrouted(alloc, path.as_slice(), spot)?;
    }
    let mut subject = Vec::new(alloc);
    write_local(folded.as_bytes(), &mut subject)?;
    let finding = Finding::Missing(folded, list.place(alloc)?);
    let words: (&[u8], &[u8]) = (subject.as_slice(), b"neither an alias nor a mailbox");
    tell(alloc, finding, spot, words, lints)
}

/// Tells what may be found of an address.
fn tell_address<'a>(
    alloc: Global,
    names: &Names<'_>,
    at: (ListPlace<'_>, Spot<'a>),
    address: &Address,
    lints: &mut Lints<'a>,
) -> Result<(), AllocError> {
    if names.is_local(address.domain()) {
        return tell_name(alloc, names, at, address.local(), lints);
    }
    let mut path = Vec::new(alloc);
    write_path(Some(address), &mut path)?;
    lints.tell_unrouted(alloc, path.as_slice(), at.1)
}

/// Tells what may be found of an item.
fn tell_item<'a>(
    alloc: Global,
    names: &Names<'_>,
    at: (ListPlace<'_>, Spot<'a>),
    item: &Item,
    lints: &mut Lints<'a>,
) -> Result<(), AllocError> {
    let (list, spot) = at;
    match item {
        Item::Bare(name) => tell_name(alloc, names, at, name.as_bytes(), lints),
        Item::Full(address) => tell_address(alloc, names, at, address, lints),
        Item::Include(path) => {
            let bytes = path.as_bytes();
            let finding = Finding::NoInclude(Text::copy_of(alloc, bytes)?, list.place(alloc)?);
            tell(
                alloc,
                finding,
                spot,
                (bytes, b"there is no such include file"),
                lints,
            )
        }
        Item::Command(text) => {
            let bytes = text.as_bytes();
            let finding = Finding::Command(Text::copy_of(alloc, bytes)?, list.place(alloc)?);
            tell(
                alloc,
                finding,
                spot,
                (bytes, b"commands aren't delivered to"),
                lints,
            )
        }
        Item::File(path) => {
            let bytes = path.as_bytes();
            let finding = Finding::File(Text::copy_of(alloc, bytes)?, list.place(alloc)?);
            tell(
                alloc,
                finding,
                spot,
                (bytes, b"files aren't delivered to"),
                lints,
            )
        }
    }
}

/// Tells of an item that is none.
fn tell_bad<'a>(
    alloc: Global,
    at: (ListPlace<'_>, Spot<'a>),
    text: &[u8],
    lints: &mut Lints<'a>,
) -> Result<(), AllocError> {
    let (list, spot) = at;
    let mut reason = String::new(alloc);
    if let Some(rule) = item_reason(alloc, text)? {
        reason = format!(in alloc; "{rule}")?;
    }
    let finding = list.bad_item(alloc)?;
    tell(alloc, finding, spot, (text, reason.as_bytes()), lints)
}

/// A list, and where it stands.
#[derive(Clone, Copy)]
pub(crate) struct PlacedList<'a, 'b> {
    pub(crate) place: ListPlace<'b>,
    /// The lines in which it stands, from the first.
    pub(crate) locator: Locator<'a, 'b>,
    /// How many bytes of these lines stand before it.
    pub(crate) before: usize,
    pub(crate) list: &'b [u8],
}

/// Tells what is found of the items of a list, whose good items are the first of these. The others are left.
pub(crate) fn tell_items<'a, 'b>(
    alloc: Global,
    names: &Names<'_>,
    list: PlacedList<'a, '_>,
    items: &'b [Item],
    lints: &mut Lints<'a>,
) -> Result<&'b [Item], AllocError> {
    let PlacedList {
        place,
        mut locator,
        before,
        list,
    } = list;
    let mut left = items;
    for item in list_items(alloc, list)? {
        let spot = locator.spot(before.saturating_add(item.start));
        if !item.is_good {
            tell_bad(alloc, (place, spot), item.text, lints)?;
        } else if let [first, more @ ..] = left {
            tell_item(alloc, names, (place, spot), first, lints)?;
            left = more;
        }
    }
    Ok(left)
}
