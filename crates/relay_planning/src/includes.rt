//! Include files, and their lines that are at fault.
ghost use Rattle.std.specs.Prelude.{◌≡◌, ◌≤◌, ◌<◌, map, All, IfOk, IfSome, OnOk};
ghost use Rattle.std.specs.List.{list_any};
ghost use Rattle.relay_aliasfile.specs.IncludeFiles.{include_file_of};
ghost use Rattle.relay_planning.specs.Delivery.{entry_of_include};
ghost use Rattle.relay_planning.specs.Findings.{ReportsWhere};
ghost use Rattle.relay_planning.specs.Includes.{include_in, IsUnreadOf, IsReadingOf, IsSound, AreReadings};
ghost use Rattle.relay_planning.specs.Texts.{has_include_line};

use crate::both::beside;
use crate::job_file::JobFile;
use crate::texts::report_file;
use relay_aliasfile::{IncludeFile, parse_include};
use relay_job::JobInclude;
use relay_sharing::Crew;
use relay_tables::IncludeEntry;
use relay_text::Text;
use relay_wire::{FindingLines, KeptFindings};
use std::alloc::{AllocError, Global};
use std::thread::{Threads, for_each_mut};

/// An include file of a job, and what it says: `None` before it is read, and where memory ran out.
#[derive(Drop)]
pub(crate) struct IncludeReading<'a> {
    pub(crate) include: &'a JobInclude,
    pub(crate) file: Option<IncludeFile>,
}

// A thread has so many bytes of include files at least: starting it takes as long as reading some kilobytes, a small part of this.
const LEAST: usize = 65_536;

/// The path of an include file, which is parsed. Adds the lines that are at fault.
fn reported_path<K: KeptFindings>(
    alloc: Global,
    include: &JobInclude,
    file: &IncludeFile,
    lines: &mut FindingLines<K>,
) -> Result<Text, AllocError>
    requires file { file.now ≡ include_file_of include.now.bytes }
    ensures path { IfOk result (λ path. path ≡ include.now.path) }
    ensures lines { OnOk result (ReportsWhere lines.old lines.new (λ q. has_include_line q include.now)) }
{
    let job_file = JobFile::Include(include.path.as_bytes());
    report_file(alloc, job_file, file.faults.as_slice(), lines)?;
    Text::copy_of(alloc, include.path.as_bytes())
}

/// The items of an include file, which is parsed, under its path. Adds the lines that are at fault.
fn include_entry<K: KeptFindings>(
    alloc: Global,
    include: &JobInclude,
    file: IncludeFile,
    lines: &mut FindingLines<K>,
) -> Result<IncludeEntry, AllocError>
    requires file { file ≡ include_file_of include.now.bytes }
    ensures entry { IfOk result (λ entry. entry ≡ entry_of_include include.now) }
    ensures lines { OnOk result (ReportsWhere lines.old lines.new (λ q. has_include_line q include.now)) }
{
    let path = reported_path(alloc, include, &file, lines);
    let IncludeFile { items, faults } = file;
    drop(faults);
    let (items, path) = beside(items, path)?;
    Ok(IncludeEntry { path, items })
}

/// The items of an include file under its path. Adds the lines that are at fault.
fn read_include<K: KeptFindings>(
    alloc: Global,
    include: &JobInclude,
    lines: &mut FindingLines<K>,
) -> Result<IncludeEntry, AllocError>
    ensures entry { IfOk result (λ entry. entry ≡ entry_of_include include.now) }
    ensures lines { OnOk result (ReportsWhere lines.old lines.new (λ q. has_include_line q include.now)) }
{
    let file = parse_include(alloc, include.bytes.as_bytes())?;
    include_entry(alloc, include, file, lines)
}

/// The include files of a job. Adds the lines that are at fault.
pub(crate) fn read_includes<K: KeptFindings>(
    alloc: Global,
    includes: &[JobInclude],
    lines: &mut FindingLines<K>,
) -> Result<Vec<IncludeEntry>, AllocError>
    ensures entries { IfOk result (λ entries. entries.items ≡ map entry_of_include includes.now) }
    ensures lines { OnOk result (ReportsWhere lines.old lines.new (λ q. list_any (has_include_line q) includes.now)) }
{
    let mut entries = Vec::with_capacity(alloc, includes.len())?;
    for include in includes {
        entries.push(read_include(alloc, include, lines)?)?;
    }
    Ok(entries)
}

/// Include files, none of which is read.
fn unread<'a>(
    alloc: Global,
    includes: &'a [JobInclude],
) -> Result<Vec<IncludeReading<'a>>, AllocError>
    ensures { IfOk result (λ readings. AreReadings IsUnreadOf includes.now readings.items) }
{
    let mut readings = Vec::with_capacity(alloc, includes.len())?;
    for include in includes {
        readings.push(IncludeReading {
            include,
            file: None,
        })?;
    }
    Ok(readings)
}

/// Reads an include file, if memory goes so far.
fn read(alloc: Global, reading: &mut IncludeReading<'_>)
    ensures include { reading.new.include.now ≡ reading.old.include.now }
    ensures file { IfSome reading.new.file (λ file. file ≡ include_file_of reading.old.include.now.bytes) }
{
    reading.file = parse_include(alloc, reading.include.bytes.as_bytes()).ok();
}

/// Include files, which so many threads have read as far as memory goes.
fn readings_by<'a, R: Threads + Sync>(
    rt: &R,
    alloc: Global,
    threads: usize,
    includes: &'a [JobInclude],
) -> Result<Vec<IncludeReading<'a>>, AllocError>
    requires { 0 < threads }
    ensures { IfOk result (λ readings. AreReadings IsReadingOf includes.now readings.items) }
{
    let mut readings = unread(alloc, includes)?;
    for_each_mut(
        rt,
        readings.as_mut_slice(),
        threads,
        &|_index: usize, reading: &mut IncludeReading|
            ensures { (reading.exit.now.include.now ≡ reading.entry.now.include.now) × IfSome reading.exit.now.file (λ file. file ≡ include_file_of reading.entry.now.include.now.bytes) }
        { read(alloc, reading) },
    );
    Ok(readings)
}

/// The items of an include file under its path. Adds the lines that are at fault. `Err` where it wasn't read.
fn entry_of<K: KeptFindings>(
    alloc: Global,
    reading: IncludeReading<'_>,
    lines: &mut FindingLines<K>,
) -> Result<IncludeEntry, AllocError>
    requires { IsSound reading }
    ensures entry { IfOk result (λ entry. entry ≡ entry_of_include reading.entry.include.now) }
    ensures lines { OnOk result (ReportsWhere lines.old lines.new (λ q. has_include_line q reading.entry.include.now)) }
{
    let IncludeReading { include, file } = reading;
    match file {
        Some(file) => include_entry(alloc, include, file, lines),
        None => Err(AllocError),
    }
}

/// The include files that were read. Adds the lines that are at fault. `Err` where one wasn't.
fn entries_of<K: KeptFindings>(
    alloc: Global,
    readings: Vec<IncludeReading<'_>>,
    lines: &mut FindingLines<K>,
) -> Result<Vec<IncludeEntry>, AllocError>
    requires { All IsSound readings.items }
    ensures entries { IfOk result (λ entries. entries.items ≡ map entry_of_include (map include_in readings.entry.items)) }
    ensures lines { OnOk result (ReportsWhere lines.old lines.new (λ q. list_any (has_include_line q) (map include_in readings.entry.items))) }
{
    let mut entries = Vec::with_capacity(alloc, readings.len())?;
    for reading in readings {
        entries.push(entry_of(alloc, reading, lines)?)?;
    }
    Ok(entries)
}

/// How many threads of a crew read these.
fn threads_for<R>(crew: &Crew<'_, R>, includes: &[JobInclude]) -> usize
    ensures { result ≤ crew.now.workers }
{
    let mut bytes: usize = 0;
    for include in includes {
        bytes = bytes.saturating_add(include.bytes.len());
    }
    crew.workers.min(bytes / LEAST)
}

/// The include files of a job, as [`read_includes`] reads them, by a crew where they are long.
pub(crate) fn read_includes_by<R: Threads + Sync, K: KeptFindings>(
    crew: &Crew<'_, R>,
    includes: &[JobInclude],
    lines: &mut FindingLines<K>,
) -> Result<Vec<IncludeEntry>, AllocError>
    ensures entries { IfOk result (λ entries. entries.items ≡ map entry_of_include includes.now) }
    ensures lines { OnOk result (ReportsWhere lines.old lines.new (λ q. list_any (has_include_line q) includes.now)) }
{
    let threads = threads_for(crew, includes);
    if threads < 2 {
        return read_includes(crew.alloc, includes, lines);
    }
    let readings = readings_by(crew.rt, crew.alloc, threads, includes)?;
    entries_of(crew.alloc, readings, lines)
}
