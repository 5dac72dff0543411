//! The transport table.
use crate::fault::LineFault;
use crate::transport_line::TransportLine;
use relay_chains::{Links, TextKey};
use std::marker::Model;

/// A transport table (transport(5)): patterns, each with what it says of the addresses that it fits, and the lines at fault.
pub struct TransportTable {
    entries: Vec<TransportLine>,
    links: Links,
    key: TextKey,
    faults: Vec<LineFault>,
    /// Whether a pattern has an `@`, as that of an address has. Most tables have none, and then no address is written as a key.
    has_addresses: bool,
}

// Written out: what becomes of a derived drop's parts is followed in each proof that has such a value to its end.
impl Drop for TransportTable {
    fn drop(self) {
        let TransportTable {
            entries: _,
            links: _,
            key: _,
            faults: _,
            has_addresses: _,
        } = self;
    }
}

impl Model for TransportTable {
    ghost use Rattle.std.specs.Prelude.{◌≡◌, map};
    ghost use Rattle.relay_routes.specs.TableSteps.{has_address, pattern_hash};
    ghost use Rattle.relay_routes.specs.TransportLines.{TransportLines};

    ghost Value = { TransportLines };

    ghost view = { λ a. record { entries = a.entries.items; faults = a.faults.items } };

    ghost invariant = { λ a. (a.links ≡ map (pattern_hash a.key) a.entries.items) × (a.has_addresses ≡ has_address a.entries.items) };
}

ghost use Rattle.std.specs.Prelude.{◌≡◌, ◌<◌, ◌^◌, ◌-◌, ◌∷◌, [], ◌++◌, false, codes, length, map, position, slice_get, take, Some, option_map, IfOk, IfSome, OnOk};
ghost use Rattle.std.specs.Str.{bytes_eq};
ghost use Rattle.relay_routes.specs.declared.fault.FaultKind.TheVariants.{BadLine};
ghost use Rattle.relay_routes.specs.Transports.{transport_table_of, choice_for, found_result, keys_of, parent_keys, result_at, line_of, fault};
ghost use Rattle.relay_routes.specs.TableSteps.{with_line, domain_keys, has_address, has_entry, later_keys, pattern_hash, AreNew};
ghost use Rattle.relay_routes.specs.PatternLines.{AreRead};

use crate::choice::Choice;
use crate::fault::FaultKind;
use crate::pattern::{address_key, is_literal};
use crate::pattern_lines::PatternLines;
use crate::room::{BYTES_FOR_HEAD, BYTES_FOR_LINE, MOST_TEXTS};
use crate::transport_line::line_of;
use relay_chains::hash_text;
use relay_halves::{about_lines, is_long, read_by};
use relay_text::{Address, LogicalLine, LogicalLines, same_bytes, split_place};
use std::alloc::{AllocError, Global};
use std::thread::Threads;

impl TransportTable {
    /// The table that a text is (transport(5), "TABLE FORMAT"), whose patterns are hashed under the key. Every text is taken: of several lines
    /// with one pattern the first holds, a later one is a `Duplicate`; any other line that is no pattern and result is a `BadLine`. `Err` where
    /// memory runs out.
    pub fn parse(alloc: Global, key: TextKey, bytes: &[u8]) -> Result<TransportTable, AllocError>
        ensures { IfOk result (λ table. table ≡ transport_table_of bytes.now) }
    {
        let mut lines = LogicalLines::new(alloc, bytes)?;
        let mut table = TransportTable::without_lines(alloc, key, bytes, lines.orphans())?;
        let mut joined = Vec::new(alloc);
        while let Some(line) = lines.next_line(&mut joined)? {
            table.add(alloc, line)?;
        }
        Ok(table)
    }

    /// The same by so many threads, where the text is long. `Err` where memory runs out.
    pub fn parse_by<R: Threads + Sync>(
        rt: &R,
        alloc: Global,
        key: TextKey,
        workers: usize,
        bytes: &[u8],
    ) -> Result<TransportTable, AllocError>
        ensures { IfOk result (λ table. table ≡ transport_table_of bytes.now) }
    {
        if !is_long(workers, bytes) {
            return TransportTable::parse(alloc, key, bytes);
        }
        let lines = read_by(rt, alloc, workers, about_lines(bytes), 0, bytes)?;
        match TransportTable::of_distinct(alloc, key, bytes, lines)? {
            Some(table) => Ok(table),
            None => TransportTable::parse(alloc, key, bytes),
        }
    }

    /// The table of a text whose lines these are; `None` where a pattern comes again, or where more lines are good than are numbered.
    fn of_distinct(
        alloc: Global,
        key: TextKey,
        bytes: &[u8],
        lines: PatternLines,
    ) -> Result<Option<TransportTable>, AllocError>
        requires { AreRead 0 bytes.now lines }
        ensures { IfOk result (λ made. IfSome made (λ table. table ≡ transport_table_of bytes.now)) }
    {
        let PatternLines { entries, faults } = lines;
        if entries.len() >= MOST_TEXTS {
            return Ok(None);
        }
        let _ = bytes;
        let links = pattern_links(alloc, key, &entries)?;
        if has_repeat(&entries, &links, key) {
            return Ok(None);
        }
        let has_addresses = have_address(&entries);
        Ok(Some(TransportTable {
            entries,
            links,
            key,
            faults,
            has_addresses,
        }))
    }

    /// The lines at fault, each under its number: first those that continue no line, then the others in order.
    pub fn faults(&self) -> &[LineFault]
        ensures { result.now ≡ self.now.faults }
    {
        self.faults.as_slice()
    }

    /// Whether a pattern has an `@`, as that of an address has.
    pub(crate) fn has_addresses(&self) -> bool
        ensures { result ≡ has_address self.now.entries }
    {
        self.has_addresses
    }

    /// What the table says of an address (transport(5), "TABLE SEARCH ORDER"): the result of the whole address, of the address without
    /// its extension where the delimiter splits its local part (local(8)), of its domain, of `.parent` for each parent domain from
    /// the longest, and of `*`, whichever comes first. An address literal has no parents. `Err` where memory runs out.
    ///
    /// The work is that of these few look-ups, however long the table.
    pub fn find(
        &self,
        alloc: Global,
        address: &Address,
        delimiter: Option<u8>,
    ) -> Result<Choice, AllocError>
        ensures { IfOk result (λ choice. choice ≡ choice_for self.now.entries delimiter address.now) }
    {
        match self.found(alloc, address, delimiter)? {
            Some(result) => Choice::of(alloc, result),
            None => Ok(Choice::Absent),
        }
    }

    /// The result at the first key of an address that the table has.
    fn found(
        &self,
        alloc: Global,
        address: &Address,
        delimiter: Option<u8>,
    ) -> Result<Option<&[u8]>, AllocError>
        ensures { IfOk result (λ found. option_map (λ text. text.now) found ≡ found_result self.now.entries (keys_of address.now delimiter)) }
    {
        if self.entries.is_empty() {
            return Ok(None);
        }
        if !self.has_addresses {
            return Ok(self.found_at_domain(address.domain()));
        }
        let key = address_key(alloc, address.local(), address.domain())?;
        let found = self.result_at(key.as_bytes());
        drop(key);
        if found.is_some() {
            return Ok(found);
        }
        let Some(place) = split_place(address.local(), delimiter) else {
            return Ok(self.found_at_domain(address.domain()));
        };
        let key = address_key(alloc, &address.local()[..place], address.domain())?;
        let found = self.result_at(key.as_bytes());
        drop(key);
        if found.is_some() {
            return Ok(found);
        }
        Ok(self.found_at_domain(address.domain()))
    }

    /// The same, of a domain, its parents and `*`.
    fn found_at_domain(&self, domain: &[u8]) -> Option<&[u8]>
        ensures { option_map (λ text. text.now) result ≡ found_result self.now.entries (domain_keys domain.now) }
    {
        if let Some(result) = self.result_at(domain) {
            return Some(result);
        }
        match self.found_at_parent(domain) {
            Some(result) => Some(result),
            None => self.result_at(b"*"),
        }
    }

    /// The same, of a domain's parents.
    fn found_at_parent(&self, domain: &[u8]) -> Option<&[u8]>
        ensures { option_map (λ text. text.now) result ≡ found_result self.now.entries (parent_keys domain.now) }
    {
        if is_literal(domain) {
            return None;
        }
        for (place, byte) in domain.iter().enumerate() {
            if *byte == b'.' {
                if let Some(result) = self.result_at(&domain[place..]) {
                    return Some(result);
                }
            }
        }
        None
    }

    /// The result of a pattern.
    fn result_at(&self, pattern: &[u8]) -> Option<&[u8]>
        ensures { option_map (λ text. text.now) result ≡ result_at self.now.entries pattern.now }
    {
        let place = place_of(&self.entries, &self.links, self.key, pattern)?;
        Some(self.entries[place as usize].result.as_bytes())
    }

    /// A table without entries, at fault where lines continue none. Its text gives the key of the hashes of its patterns, and says by its
    /// length how much room is taken ahead.
    fn without_lines(
        alloc: Global,
        key: TextKey,
        bytes: &[u8],
        orphans: &[usize],
    ) -> Result<TransportTable, AllocError>
        ensures { IfOk result (λ table. table ≡ record { entries = []; faults = map (λ number. fault number BadLine) orphans.now }) }
    {
        let heads = bytes.len() / BYTES_FOR_HEAD + 1;
        let mut faults = Vec::with_capacity(alloc, orphans.len())?;
        for number in orphans {
            faults.push(LineFault {
                line: *number,
                kind: FaultKind::BadLine,
            })?;
        }
        Ok(TransportTable {
            entries: Vec::with_capacity(alloc, bytes.len() / BYTES_FOR_LINE)?,
            links: Links::new(alloc, heads)?,
            key,
            faults,
            has_addresses: false,
        })
    }

    /// Adds a line.
    fn add(&mut self, alloc: Global, line: LogicalLine<'_>) -> Result<(), AllocError>
        ensures { OnOk result (self.new ≡ with_line self.old line.entry.number (line_of line.entry.text.now)) }
    {
        match line_of(alloc, line.text)? {
            Some(entry) => self.add_entry(line.number, entry),
            None => self.add_fault(line.number, FaultKind::BadLine),
        }
    }

    /// Adds the pattern and result of a line.
    fn add_entry(&mut self, number: usize, entry: TransportLine) -> Result<(), AllocError>
        ensures { OnOk result (self.new ≡ with_line self.old number (Some entry)) }
    {
        let pattern = entry.pattern.as_bytes();
        if place_of(&self.entries, &self.links, self.key, pattern).is_some() {
            drop(entry);
            return self.add_fault(number, FaultKind::Duplicate);
        }
        let Ok(()) = self.entries.reserve(1) else {
            drop(entry);
            return Err(AllocError);
        };
        if self.links.len() >= MOST_TEXTS {
            drop(entry);
            return Err(AllocError);
        }
        let Ok(()) = self
            .links
            .push(hash_text(self.key, entry.pattern.as_bytes()))
        else {
            drop(entry);
            return Err(AllocError);
        };
        self.has_addresses = self.has_addresses || entry.pattern.as_bytes().contains(&b'@');
        self.entries.push_reserved(entry);
        Ok(())
    }

    /// Adds a line at fault.
    fn add_fault(&mut self, number: usize, kind: FaultKind) -> Result<(), AllocError>
        ensures { OnOk result (self.new ≡ record { entries = self.old.entries; faults = self.old.faults ++ fault number kind ∷ [] }) }
    {
        self.faults.push(LineFault { line: number, kind })?;
        Ok(())
    }
}

/// The place of the first entry of a pattern.
fn place_of(entries: &[TransportLine], links: &Links, key: TextKey, pattern: &[u8]) -> Option<u32>
    requires { links.now ≡ map (pattern_hash key) entries.now }
    ensures { result ≡ position (λ e. bytes_eq pattern.now e.pattern) entries.now }
{
    links.find(
        hash_text(key, pattern),
        |number: u32| -> bool
            requires { number < length entries.now }
            ensures { option_map (λ e. bytes_eq pattern.entry.now e.pattern) (slice_get entries.entry.now number) ≡ Some result }
        { same_bytes(pattern, entries[number as usize].pattern.as_bytes()) },
    )
}

/// The hashes of the patterns of entries, each under the number of its place.
fn pattern_links(
    alloc: Global,
    key: TextKey,
    entries: &[TransportLine],
) -> Result<Links, AllocError>
    requires { length entries.now < 2 ^ 32 - 2 }
    ensures { IfOk result (λ links. links ≡ map (pattern_hash key) entries.now) }
{
    let mut hashes = Vec::with_capacity(alloc, entries.len())?;
    for entry in entries {
        hashes.push_reserved(hash_text(key, entry.pattern.as_bytes()));
    }
    Links::of(alloc, &hashes)
}

/// Whether a pattern of these entries comes again. Of nearly all of them no other one has the hash, and then none is read.
fn has_repeat(entries: &[TransportLine], links: &Links, key: TextKey) -> bool
    requires linked { links.now ≡ map (pattern_hash key) entries.now }
    requires few { length entries.now < 2 ^ 32 - 2 }
    ensures { result ≡ false → AreNew [] entries.now }
{
    for number in 0..entries.len() as u32 {
        if is_repeat(entries, links, key, number) {
            return true;
        }
    }
    false
}

/// Whether the pattern of the entry at a place stands before it.
fn is_repeat(entries: &[TransportLine], links: &Links, key: TextKey, number: u32) -> bool
    requires linked { links.now ≡ map (pattern_hash key) entries.now }
    requires few { length entries.now < 2 ^ 32 - 2 }
    requires within { number < length entries.now }
    ensures { option_map (λ e. has_entry (take number entries.now) e.pattern) (slice_get entries.now number) ≡ Some result }
{
    let word = links.before(number + 1);
    if word == 0 {
        return false;
    }
    let pattern = entries[number as usize].pattern.as_bytes();
    let found = links.find_from(
        word,
        hash_text(key, pattern),
        |other: u32| -> bool
            requires { other < length entries.now }
            ensures { option_map (λ e. bytes_eq pattern.entry.now e.pattern) (slice_get entries.entry.now other) ≡ Some result }
        { same_bytes(pattern, entries[other as usize].pattern.as_bytes()) },
    );
    found.is_some()
}

/// Whether a pattern of these entries has an `@`.
fn have_address(entries: &[TransportLine]) -> bool
    ensures { result ≡ has_address entries.now }
{
    entries
        .iter()
        .any(|entry| entry.pattern.as_bytes().contains(&b'@'))
}
