//! What is told of the lines of files.
use crate::item_lints::{ListPlace, PlacedList, tell_items};
use crate::lint::Spot;
use crate::lints::{Lints, Remark};
use crate::lists::Locator;
use crate::names::Names;
use crate::places::file_place;
use crate::rules::{alias_rule, line_key, mailbox_rule, mx_rule, transport_rule};
use crate::section::Section;
use relay_aliasfile::{
    AliasFile, Entry, FaultKind, LineFault, entry_list, parse_include, parse_mailboxes,
};
use relay_chains::TextKey;
use relay_gather::Origins;
use relay_job::{Job, JobInclude};
use relay_routes::{MxTable, TransportTable};
use relay_text::{
    KeptLine, KeptLines, Line, Text, logical_lines, parse_name, trimmed, trimmed_end,
};
use relay_wire::{Finding, LineWord};
use std::alloc::{AllocError, Global};
use std::collections::BTreeMap;

/// The start of a line.
fn line_spot(section: Section<'_>, line: usize) -> Spot<'_> {
    Spot {
        section,
        line,
        column: None,
    }
}

/// The lines of a text that aren't ignored.
fn kept_lines(alloc: Global, bytes: &[u8]) -> Result<Vec<KeptLine<'_>>, AllocError> {
    let mut kept = Vec::new(alloc);
    let mut lines = KeptLines::new(bytes);
    while let Some(line) = lines.next_line() {
        kept.push(line)?;
    }
    Ok(kept)
}

/// The text of the line of a number, where it is one of these, which are ascending.
fn numbered<'a>(lines: &'a [Line], number: usize) -> Option<&'a [u8]> {
    match lines.binary_search_by_key(&number, |line| line.number) {
        Ok(place) => Some(lines[place].text.as_bytes()),
        Err(_) => None,
    }
}

/// The lines from that of a number on.
fn lines_from<'a, 'b>(lines: &'b [KeptLine<'a>], number: usize) -> &'b [KeptLine<'a>] {
    match lines.binary_search_by_key(&number, |line| line.number) {
        Ok(place) => &lines[place..],
        Err(_) => &[],
    }
}

/// Tells of a finding on a line, if the check has found it.
fn tell_line<'a>(
    alloc: Global,
    finding: Finding,
    spot: Spot<'a>,
    words: (&[u8], &[u8]),
    lints: &mut Lints<'a>,
) -> Result<(), AllocError> {
    let remark = Remark {
        finding: &finding,
        spot,
        subject: words.0,
        reason: words.1,
        is_noted: false,
    };
    lints.tell(alloc, remark)
}

/// The name of the entry on a logical line, folded.
fn entry_name(alloc: Global, text: &[u8]) -> Result<Option<Text>, AllocError> {
    let Some(list) = entry_list(alloc, text)? else {
        return Ok(None);
    };
    let colon = text.len().saturating_sub(list.len()).saturating_sub(1);
    match parse_name(alloc, trimmed_end(text.get(..colon).unwrap_or(&[]))) {
        Ok(mut name) => {
            name.fold();
            Ok(Some(name))
        }
        Err(_) => Ok(None),
    }
}

/// Tells that a line has a key again that stands on an earlier one.
fn tell_again<'a>(
    alloc: Global,
    origins: Option<&Origins>,
    finding: Finding,
    key: (&[u8], Option<usize>),
    spot: Spot<'a>,
    lints: &mut Lints<'a>,
) -> Result<(), AllocError> {
    let here = file_place(origins, spot.section, spot.line);
    let mut reason = Vec::new(alloc);
    let mut is_noted = false;
    if let Some(line) = key.1 {
        let first = file_place(origins, spot.section, line);
        is_noted = first.before != here.before || first.path != here.path;
        reason.extend_from_slice(b"first in ")?;
        reason.extend_from_slice(first.before)?;
        reason.extend_from_slice(first.path)?;
        let number = first.line;
        let digits = format!(in alloc; ":{number}")?;
        reason.extend_from_slice(digits.as_bytes())?;
    }
    let remark = Remark {
        finding: &finding,
        spot,
        subject: key.0,
        reason: reason.as_slice(),
        is_noted,
    };
    lints.tell(alloc, remark)
}

/// Tells of a fault of a line of the alias file, but for its bad items.
fn tell_alias_fault<'a>(
    alloc: Global,
    origins: Option<&Origins>,
    names: &Names<'_>,
    fault: LineFault,
    line: Option<&[u8]>,
    lints: &mut Lints<'a>,
) -> Result<(), AllocError> {
    let spot = line_spot(Section::Aliases, fault.line);
    let text = line.unwrap_or(b"");
    match fault.kind {
        FaultKind::BadLine => {
            let rule = alias_rule(alloc, line)?;
            let finding = Finding::Aliases(fault.line, LineWord::BadLine);
            tell_line(alloc, finding, spot, (b"", rule), lints)
        }
        FaultKind::BadItem => Ok(()),
        FaultKind::Empty => {
            let finding = Finding::Aliases(fault.line, LineWord::Empty);
            let name = entry_name(alloc, text)?;
            let name = name.as_ref().map_or(b"".as_slice(), |name| name.as_bytes());
            tell_line(
                alloc,
                finding,
                spot,
                (name, b"nothing stands behind the colon"),
                lints,
            )
        }
        FaultKind::Duplicate => {
            let finding = Finding::Aliases(fault.line, LineWord::Duplicate);
            match entry_name(alloc, text)? {
                Some(name) => {
                    let first = names.line(name.as_bytes());
                    tell_again(
                        alloc,
                        origins,
                        finding,
                        (name.as_bytes(), first),
                        spot,
                        lints,
                    )
                }
                None => tell_again(alloc, origins, finding, (text, None), spot, lints),
            }
        }
    }
}

/// Tells what is found of an entry of the alias file, whose line and those behind it are given.
fn tell_entry<'a>(
    alloc: Global,
    names: &Names<'_>,
    entry: &Entry,
    line: &[u8],
    kept: &[KeptLine<'a>],
    lints: &mut Lints<'a>,
) -> Result<(), AllocError> {
    let name = entry.name.as_bytes();
    let spot = line_spot(Section::Aliases, entry.line);
    let finding = Finding::EmptyAlias(Text::copy_of(alloc, name)?);
    tell_line(
        alloc,
        finding,
        spot,
        (name, b"it has no item that is good"),
        lints,
    )?;
    let finding = Finding::LoopAlias(Text::copy_of(alloc, name)?);
    tell_line(
        alloc,
        finding,
        spot,
        (name, b"it leads back to itself"),
        lints,
    )?;
    let Some(list) = entry_list(alloc, line)? else {
        return Ok(());
    };
    let place = ListPlace {
        name,
        is_include: false,
        line: entry.line,
    };
    let placed = PlacedList {
        place,
        locator: Locator {
            section: Section::Aliases,
            lines: kept,
            passed: 0,
        },
        before: line.len().saturating_sub(list.len()),
        list,
    };
    tell_items(alloc, names, placed, entry.items.as_slice(), lints)?;
    Ok(())
}

/// Tells what is found in the alias file.
pub(crate) fn tell_aliases<'a>(
    alloc: Global,
    job: &'a Job,
    origins: Option<&Origins>,
    read: (&AliasFile, &Names<'_>),
    lints: &mut Lints<'a>,
) -> Result<(), AllocError> {
    let (file, names) = read;
    let bytes = job.aliases.as_bytes();
    let lines = logical_lines(alloc, bytes)?;
    let kept = kept_lines(alloc, bytes)?;
    for fault in file.faults.as_slice() {
        let line = numbered(lines.lines.as_slice(), fault.line);
        tell_alias_fault(alloc, origins, names, *fault, line, lints)?;
    }
    for entry in file.entries.as_slice() {
        if let Some(line) = numbered(lines.lines.as_slice(), entry.line) {
            let here = lines_from(kept.as_slice(), entry.line);
            tell_entry(alloc, names, entry, line, here, lints)?;
        }
    }
    Ok(())
}

/// Tells what is found in an include file.
pub(crate) fn tell_include<'a>(
    alloc: Global,
    names: &Names<'_>,
    include: &'a JobInclude,
    lints: &mut Lints<'a>,
) -> Result<(), AllocError> {
    let path = include.path.as_bytes();
    let section = Section::Include(path);
    let file = parse_include(alloc, include.bytes.as_bytes())?;
    let kept = kept_lines(alloc, include.bytes.as_bytes())?;
    let first = kept.first().map_or(1, |line| line.number);
    let finding = Finding::EmptyInclude(Text::copy_of(alloc, path)?);
    let spot = line_spot(section, first);
    tell_line(
        alloc,
        finding,
        spot,
        (path, b"it has no item that is good"),
        lints,
    )?;
    let finding = Finding::LoopInclude(Text::copy_of(alloc, path)?);
    tell_line(
        alloc,
        finding,
        spot,
        (path, b"it leads back to itself"),
        lints,
    )?;
    let mut items = file.items.as_slice();
    for line in kept.as_slice() {
        let lines = [*line];
        let place = ListPlace {
            name: path,
            is_include: true,
            line: line.number,
        };
        let placed = PlacedList {
            place,
            locator: Locator {
                section,
                lines: &lines,
                passed: 0,
            },
            before: 0,
            list: line.text,
        };
        items = tell_items(alloc, names, placed, items, lints)?;
    }
    Ok(())
}

/// Tells of the lines of the mailbox file that are at fault.
pub(crate) fn tell_mailboxes<'a>(
    alloc: Global,
    job: &Job,
    lints: &mut Lints<'a>,
) -> Result<(), AllocError> {
    let bytes = job.mailboxes.as_bytes();
    let file = parse_mailboxes(alloc, bytes)?;
    let kept = kept_lines(alloc, bytes)?;
    for fault in file.faults.as_slice() {
        let text = match lines_from(kept.as_slice(), fault.line) {
            [line, ..] => line.text,
            [] => b"",
        };
        let rule = mailbox_rule(alloc, text)?;
        let finding = Finding::Mailboxes(fault.line, LineWord::BadLine);
        let spot = line_spot(Section::Mailboxes, fault.line);
        tell_line(alloc, finding, spot, (trimmed(text), rule), lints)?;
    }
    Ok(())
}

/// Tells of the lines of the table of mail exchangers that are at fault.
pub(crate) fn tell_mx<'a>(
    alloc: Global,
    key: TextKey,
    job: &Job,
    lints: &mut Lints<'a>,
) -> Result<(), AllocError> {
    let bytes = job.mx.as_bytes();
    let table = MxTable::parse(alloc, key, bytes)?;
    let kept = kept_lines(alloc, bytes)?;
    for fault in table.faults() {
        let text = match lines_from(kept.as_slice(), fault.line) {
            [line, ..] => line.text,
            [] => b"",
        };
        let finding = Finding::Mx(fault.line, LineWord::BadLine);
        let spot = line_spot(Section::Mx, fault.line);
        tell_line(alloc, finding, spot, (trimmed(text), mx_rule(text)), lints)?;
    }
    Ok(())
}

/// The lines on which the first fields of lines stand first, by these folded.
fn first_lines(alloc: Global, lines: &[Line]) -> Result<BTreeMap<Vec<u8>, usize>, AllocError> {
    let mut first = BTreeMap::new(alloc);
    for line in lines {
        let key = folded_key(alloc, line.text.as_bytes())?;
        if !first.contains_key(key.as_slice()) {
            first.insert(key, line.number)?;
        }
    }
    Ok(first)
}

/// The first field of a line, folded.
fn folded_key(alloc: Global, line: &[u8]) -> Result<Vec<u8>, AllocError> {
    let mut key = Text::copy_of(alloc, line_key(line))?;
    key.fold();
    Vec::from_slice(alloc, key.as_bytes())
}

/// Tells of the lines of the transport table that are at fault.
pub(crate) fn tell_transport<'a>(
    alloc: Global,
    key: TextKey,
    job: &Job,
    origins: Option<&Origins>,
    lints: &mut Lints<'a>,
) -> Result<(), AllocError> {
    let bytes = job.transport.as_bytes();
    let table = TransportTable::parse(alloc, key, bytes)?;
    let lines = logical_lines(alloc, bytes)?;
    let first = first_lines(alloc, lines.lines.as_slice())?;
    for fault in table.faults() {
        let line = numbered(lines.lines.as_slice(), fault.line);
        let text = line.unwrap_or(b"");
        let spot = line_spot(Section::Transport, fault.line);
        match fault.kind {
            relay_routes::FaultKind::BadLine => {
                let finding = Finding::Transport(fault.line, LineWord::BadLine);
                tell_line(alloc, finding, spot, (b"", transport_rule(line)), lints)?;
            }
            relay_routes::FaultKind::Duplicate => {
                let finding = Finding::Transport(fault.line, LineWord::Duplicate);
                let key = folded_key(alloc, text)?;
                let before = match first.get(key.as_slice()) {
                    Some(number) if *number < fault.line => Some(*number),
                    _ => None,
                };
                tell_again(
                    alloc,
                    origins,
                    finding,
                    (key.as_slice(), before),
                    spot,
                    lints,
                )?;
            }
        }
    }
    Ok(())
}
