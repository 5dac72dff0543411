//! The line of a transport table that decides where an address goes.
ghost use Rattle.std.specs.Prelude.{◌≡◌, ◌++◌, ◌∷◌, filter_map, option_map, option_copied, option_to_list, ℕ, List, Option, IfOk, OnOk};
ghost use Rattle.relay_text.specs.AddressParts.{AddressParts};
ghost use Rattle.relay_text.specs.Addresses.{base_of};
ghost use Rattle.relay_text.specs.Lines.{logical_lines_of};
ghost use Rattle.relay_text.specs.LogicalLines.{logical_line};
ghost use Rattle.relay_routes.specs.Transports.{address_key, base_keys, choice_for, choice_of, keys_of, parent_keys, transport_table_of};
ghost use Rattle.relay_routes.specs.DecidingLines.{deciding_line_of, first_line_at, line_at, good_line_in, result_of};

use crate::pattern::{address_key, is_literal};
use crate::transport_line::line_of;
use relay_text::{Address, LogicalLine, LogicalLines, Text, split_place};
use std::alloc::{AllocError, Global};

/// A line of a transport table: a pattern, and a result (transport(5), "TABLE FORMAT").
#[derive(Drop)]
pub struct DecidingLine {
    /// The number of its first physical line, from 1.
    pub line: usize,
    /// In lower case and its one spelling.
    pub pattern: Text,
    /// As it is written.
    pub result: Text,
}

impl DecidingLine {
    // A copy of its own.
    fn copy(&self, alloc: Global) -> Result<DecidingLine, AllocError>
        ensures { IfOk result (λ line. line ≡ self.now) }
    {
        Ok(DecidingLine {
            line: self.line,
            pattern: Text::copy_of(alloc, self.pattern.as_bytes())?,
            result: Text::copy_of(alloc, self.result.as_bytes())?,
        })
    }
}

// The lines of a table that are a pattern and a result, those of repeated patterns too.
fn good_lines(alloc: Global, table: &[u8]) -> Result<Vec<DecidingLine>, AllocError>
    ensures { IfOk result (λ lines. lines.items ≡ filter_map good_line_in (logical_lines_of table.now).lines) }
{
    let mut lines = LogicalLines::new(alloc, table)?;
    let mut joined = Vec::new(alloc);
    let mut good = Vec::new(alloc);
    while let Some(line) = lines.next_line(&mut joined)? {
        add_good_line(alloc, line, &mut good)?;
    }
    Ok(good)
}

// Adds a line, where it is a pattern and a result.
fn add_good_line(
    alloc: Global,
    line: LogicalLine<'_>,
    good: &mut Vec<DecidingLine>,
) -> Result<(), AllocError>
    ensures { OnOk result (good.new.items ≡ good.old.items ++ option_to_list (good_line_in (logical_line line.entry))) }
{
    if let Some(entry) = line_of(alloc, line.text)? {
        good.push(DecidingLine {
            line: line.number,
            pattern: entry.pattern,
            result: entry.result,
        })?;
    }
    Ok(())
}

// Adds `.parent` for each parent domain, the longest first.
fn add_parents(alloc: Global, domain: &[u8], keys: &mut Vec<Text>) -> Result<(), AllocError>
    ensures { OnOk result (keys.new.items ≡ keys.old.items ++ parent_keys domain.now) }
{
    if is_literal(domain) {
        return Ok(());
    }
    for (place, byte) in domain.iter().enumerate() {
        if *byte == b'.' {
            keys.push(Text::copy_of(alloc, &domain[place..])?)?;
        }
    }
    Ok(())
}

// Adds the address as a key, and without its extension where its local part is split.
fn add_address_keys(
    alloc: Global,
    address: &Address,
    delimiter: Option<u8>,
    keys: &mut Vec<Text>,
) -> Result<(), AllocError>
    ensures { OnOk result (keys.new.items ≡ keys.old.items ++ address_key address.now.local address.now.domain ∷ base_keys address.now (base_of address.now.local delimiter)) }
{
    keys.push(address_key(alloc, address.local(), address.domain())?)?;
    if let Some(place) = split_place(address.local(), delimiter) {
        keys.push(address_key(alloc, &address.local()[..place], address.domain())?)?;
    }
    Ok(())
}

// The keys of an address in the order in which they are tried.
fn address_keys(
    alloc: Global,
    address: &Address,
    delimiter: Option<u8>,
) -> Result<Vec<Text>, AllocError>
    ensures { IfOk result (λ keys. keys.items ≡ keys_of address.now delimiter) }
{
    let mut keys = Vec::new(alloc);
    add_address_keys(alloc, address, delimiter, &mut keys)?;
    keys.push(Text::copy_of(alloc, address.domain())?)?;
    add_parents(alloc, address.domain(), &mut keys)?;
    keys.push(Text::copy_of(alloc, b"*")?)?;
    Ok(keys)
}

// The first line of a pattern.
fn line_at<'a>(lines: &'a [DecidingLine], pattern: &[u8]) -> Option<&'a DecidingLine>
    ensures { option_copied result ≡ line_at lines.now pattern.now }
{
    for line in lines {
        if line.pattern.as_bytes() == pattern {
            return Some(line);
        }
    }
    None
}

// The first line of the first key that some line has as its pattern.
fn first_line_at<'a>(lines: &'a [DecidingLine], keys: &[Text]) -> Option<&'a DecidingLine>
    ensures { option_copied result ≡ first_line_at lines.now keys.now }
{
    for key in keys {
        if let Some(line) = line_at(lines, key.as_bytes()) {
            return Some(line);
        }
    }
    None
}

/// The line of a transport table that decides where a remote address goes: of the keys of the address in their order (transport(5),
/// "TABLE SEARCH ORDER"), the first that is the pattern of a line, and of the lines with that pattern the first. `Err` where memory runs
/// out.
///
/// The work is that of the lines times the keys, which are no more than the dots of a domain and four.
pub fn deciding_line(
    alloc: Global,
    table: &[u8],
    address: &Address,
    delimiter: Option<u8>,
) -> Result<Option<DecidingLine>, AllocError>
    ensures { IfOk result (λ line. line ≡ deciding_line_of table.now address.now delimiter) }
{
    let lines = good_lines(alloc, table)?;
    let keys = address_keys(alloc, address, delimiter)?;
    match first_line_at(&lines, &keys) {
        Some(line) => Ok(Some(line.copy(alloc)?)),
        None => Ok(None),
    }
}

/// A law, with nothing to run: what the table says of an address is the result of the line that decides.
pub fn choice_by_line()
    ensures { (table : List ℕ) (delimiter : Option ℕ) (a : AddressParts) → choice_for (transport_table_of table).entries delimiter a ≡ choice_of (option_map result_of (deciding_line_of table a delimiter)) }
{}
