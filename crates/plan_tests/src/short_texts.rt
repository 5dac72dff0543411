//! Every text of one byte and of two is taken as a file of names and as a table of routes: its one line that isn't ignored says what it
//! says, or is told as a fault.
use relay_aliasfile::{FaultKind, LineFault, parse_aliases, parse_include, parse_mailboxes};
use relay_routes::{MxTable, TransportTable};
use std::process::Abort;
use std::test::Fail;

/// A line without this byte at its end.
fn without_end(line: &[u8], end: u8) -> &[u8] {
    match line.split_last() {
        Some((last, front)) if *last == end => front,
        _ => line,
    }
}

/// The number of the only line of a text of at most two bytes that can hold something, and that line.
fn only_line(text: &[u8]) -> (usize, &[u8]) {
    let (number, line) = match text {
        [b'\n', line @ ..] => (2, line),
        line => (1, line),
    };
    (number, without_end(without_end(line, b'\n'), b'\r'))
}

/// Whether a line is blank or a comment.
fn is_ignored(line: &[u8]) -> bool {
    for byte in line {
        if !b" \t".contains(byte) {
            return *byte == b'#';
        }
    }
    true
}

/// Whether each byte may stand in a name that isn't quoted, or is one of these others.
fn has_only(line: &[u8], others: &[u8]) -> bool {
    for byte in line {
        let is_named = byte.is_ascii_alphanumeric() || b".!#$%&'*+-/=?^_`{|}~".contains(byte);
        if !is_named && !others.contains(byte) {
            return false;
        }
    }
    true
}

/// Whether a line of at most two bytes is a name and its colon.
fn is_entry(line: &[u8]) -> bool {
    matches!(line, [name, b':'] if has_only(&[*name], b""))
}

/// Whether a line of at most two bytes has nothing but blanks and commas.
fn lists_nothing(line: &[u8]) -> bool {
    for byte in line {
        if !b" \t,".contains(byte) {
            return false;
        }
    }
    true
}

/// Whether what a line of at most two bytes lists is a name, a file or a command.
fn lists_an_item(line: &[u8]) -> bool {
    match line {
        [b'/' | b'|', byte] if byte.is_ascii_graphic() => *byte != b'"',
        _ => has_only(line, b" \t,"),
    }
}

/// Whether the faults are this one on the line, or none.
fn is_told(faults: &[LineFault], number: usize, kind: Option<FaultKind>) -> bool {
    match (faults, kind) {
        ([], None) => true,
        ([fault], Some(kind)) => fault.line == number && fault.kind == kind,
        _ => false,
    }
}

/// Whether the faults of a table are the one bad line, where it isn't ignored: no record is so short.
fn is_told_of_table(faults: &[relay_routes::LineFault], number: usize, ignored: bool) -> bool {
    match faults {
        [] => ignored,
        [fault] => {
            !ignored && fault.line == number && fault.kind == relay_routes::FaultKind::BadLine
        }
        _ => false,
    }
}

fn expect_aliases(rt: &(impl Abort + AllocGlobal), text: &[u8]) -> Result<(), Fail> {
    let (number, line) = only_line(text);
    let (entries, fault) = if is_ignored(line) {
        (0, None)
    } else if is_entry(line) {
        (1, Some(FaultKind::Empty))
    } else {
        (0, Some(FaultKind::BadLine))
    };
    let file = parse_aliases(rt.alloc(), text)?;
    assert_eq!(rt; file.entries.len(), entries, "entries of {text:?}");
    assert!(rt;
        is_told(file.faults.as_slice(), number, fault),
        "aliases {text:?}"
    );
    Ok(())
}

fn expect_include(rt: &(impl Abort + AllocGlobal), text: &[u8]) -> Result<(), Fail> {
    let (number, line) = only_line(text);
    let (items, fault) = if is_ignored(line) || lists_nothing(line) {
        (0, None)
    } else if lists_an_item(line) {
        (1, None)
    } else {
        (0, Some(FaultKind::BadItem))
    };
    let file = parse_include(rt.alloc(), text)?;
    assert_eq!(rt; file.items.len(), items, "items of {text:?}");
    assert!(rt;
        is_told(file.faults.as_slice(), number, fault),
        "include file {text:?}"
    );
    Ok(())
}

fn expect_mailboxes(rt: &(impl Abort + AllocGlobal), text: &[u8]) -> Result<(), Fail> {
    let (number, line) = only_line(text);
    let (names, fault) = if is_ignored(line) {
        (0, None)
    } else if has_only(line, b" \t") {
        (1, None)
    } else {
        (0, Some(FaultKind::BadLine))
    };
    let file = parse_mailboxes(rt.alloc(), text)?;
    assert_eq!(rt; file.names.len(), names, "names of {text:?}");
    assert!(rt;
        is_told(file.faults.as_slice(), number, fault),
        "mailboxes {text:?}"
    );
    Ok(())
}

fn expect_transport(rt: &(impl Abort + AllocGlobal), text: &[u8]) -> Result<(), Fail> {
    let (number, line) = only_line(text);
    let table = TransportTable::parse(rt.alloc(), 0, text)?;
    assert!(rt;
        is_told_of_table(table.faults(), number, is_ignored(line)),
        "transport {text:?}"
    );
    Ok(())
}

fn expect_mx(rt: &(impl Abort + AllocGlobal), text: &[u8]) -> Result<(), Fail> {
    let (number, line) = only_line(text);
    let table = MxTable::parse(rt.alloc(), 0, text)?;
    assert!(rt;
        is_told_of_table(table.faults(), number, is_ignored(line)),
        "mx {text:?}"
    );
    Ok(())
}

fn expect_taken(rt: &(impl Abort + AllocGlobal), text: &[u8]) -> Result<(), Fail> {
    expect_aliases(rt, text)?;
    expect_include(rt, text)?;
    expect_mailboxes(rt, text)?;
    expect_transport(rt, text)?;
    expect_mx(rt, text)
}

#[test]
fn texts_of_one_or_two_bytes_are_taken(rt: HostRuntime) -> Result<(), Fail> {
    for first in 0..256usize {
        expect_taken(&rt, &[first as u8])?;
        for second in 0..256usize {
            expect_taken(&rt, &[first as u8, second as u8])?;
        }
    }
    Ok(())
}
