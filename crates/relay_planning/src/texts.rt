//! The lines of files and tables that are at fault.
ghost use Rattle.std.specs.Prelude.{◌≡◌, ℕ, List, IfOk, OnOk};
ghost use Rattle.std.specs.List.{list_any};
ghost use Rattle.std.specs.Str.{bytes_eq};
ghost use Rattle.std.specs.Thread.{IsSync, IsSend};
ghost use Rattle.relay_text.specs.Bytes.{has_text};
ghost use Rattle.relay_planning.specs.Findings.{ReportsWhere};
ghost use Rattle.relay_planning.specs.Texts.{file_line, table_line};

use crate::job_file::JobFile;
use crate::table::Table;
use relay_aliasfile::LineFault;
use relay_sharing::Crew;
use relay_wire::{FindingLines, KeptFindings};
use std::alloc::{AllocError, Global};
use std::thread::{Threads, join};

// A thread has so many faults at least: starting it takes as long as some hundreds of them.
const LEAST: usize = 16_384;

/// Adds the line of a file's fault.
fn report_file_fault<K: KeptFindings>(
    alloc: Global,
    job_file: JobFile<'_>,
    fault: LineFault,
    lines: &mut FindingLines<K>,
) -> Result<(), AllocError>
    ensures { OnOk result (ReportsWhere lines.old lines.new (λ q. bytes_eq q (file_line job_file.entry fault))) }
{
    let finding = job_file.finding(alloc, fault)?;
    lines.add(finding)
}

/// Adds the lines of a file that are at fault. A fault that is the one before it once more, as of each item of a line, adds none.
pub(crate) fn report_file<K: KeptFindings>(
    alloc: Global,
    job_file: JobFile<'_>,
    faults: &[LineFault],
    lines: &mut FindingLines<K>,
) -> Result<(), AllocError>
    ensures { OnOk result (ReportsWhere lines.old lines.new (λ q. list_any (λ fault. bytes_eq q (file_line job_file.entry fault)) faults.now)) }
{
    lines.reserve(faults.len())?;
    for (index, fault) in faults.iter().enumerate() {
        if index > 0 && faults[index - 1] == *fault {
            continue;
        }
        report_file_fault(alloc, job_file, *fault, lines)?;
    }
    Ok(())
}

/// The lines of a file that are at fault, and no others. There is room for so many.
fn lines_of_file<K: KeptFindings + Drop>(
    alloc: Global,
    room: usize,
    job_file: JobFile<'_>,
    faults: &[LineFault],
) -> Result<FindingLines<K>, AllocError>
    ensures { IfOk result (λ lines. (q : List ℕ) → has_text lines q ≡ list_any (λ fault. bytes_eq q (file_line job_file.entry fault)) faults.now) }
{
    let mut lines = FindingLines::empty(alloc);
    lines.reserve(room)?;
    report_file(alloc, job_file, faults, &mut lines)?;
    Ok(lines)
}

/// The same by so many threads, this one among them. Each new thread has the last share of the faults that are left.
#[cycle(shares)]
fn lines_by<R: Threads + Sync, K: KeptFindings + Send + Drop>(
    rt: &R,
    alloc: Global,
    threads: usize,
    room: usize,
    job_file: JobFile<'_>,
    faults: &[LineFault],
) -> Result<FindingLines<K>, AllocError>
    ensures { IfOk result (λ lines. (q : List ℕ) → has_text lines q ≡ list_any (λ fault. bytes_eq q (file_line job_file.entry fault)) faults.now) }
{
    if threads < 2 {
        return lines_of_file(alloc, room, job_file, faults);
    }
    let others = threads - 1;
    let share = faults.len() / threads;
    let (before, last) = faults.split_at(faults.len() - share);
    let (there, here) = join(
        rt,
        || -> Result<FindingLines<K>, AllocError>
            ensures { IfOk result (λ lines. (q : List ℕ) → has_text lines q ≡ list_any (λ fault. bytes_eq q (file_line job_file.entry fault)) last.entry.now) }
        { lines_of_file(alloc, share, job_file, last) },
        || -> Result<FindingLines<K>, AllocError>
            requires { IsSync R.row × IsSend K.row }
            ensures { IfOk result (λ lines. (q : List ℕ) → has_text lines q ≡ list_any (λ fault. bytes_eq q (file_line job_file.entry fault)) before.entry.now) }
        { lines_by(rt, alloc, others, room, job_file, before) },
    );
    let mut lines = here?;
    lines.append(there?)?;
    Ok(lines)
}

/// Adds the lines of a file that are at fault, as [`report_file`] does, by a crew where there are many.
pub(crate) fn report_file_by<R: Threads + Sync, K: KeptFindings + Send + Drop>(
    crew: &Crew<'_, R>,
    job_file: JobFile<'_>,
    faults: &[LineFault],
    lines: &mut FindingLines<K>,
) -> Result<(), AllocError>
    ensures { OnOk result (ReportsWhere lines.old lines.new (λ q. list_any (λ fault. bytes_eq q (file_line job_file.entry fault)) faults.now)) }
{
    let threads = crew.workers.min(faults.len() / LEAST);
    if threads < 2 {
        return report_file(crew.alloc, job_file, faults, lines);
    }
    lines.append(lines_by(crew.rt, crew.alloc, threads, faults.len(), job_file, faults)?)
}

/// Adds the line of a table's fault.
fn report_table_fault<K: KeptFindings>(
    alloc: Global,
    table: Table,
    fault: relay_routes::LineFault,
    lines: &mut FindingLines<K>,
) -> Result<(), AllocError>
    ensures { OnOk result (ReportsWhere lines.old lines.new (λ q. bytes_eq q (table_line table fault))) }
{
    let finding = table.finding(fault);
    lines.add(finding)
}

/// Adds the lines of a table that are at fault.
pub(crate) fn report_table<K: KeptFindings>(
    alloc: Global,
    table: Table,
    faults: &[relay_routes::LineFault],
    lines: &mut FindingLines<K>,
) -> Result<(), AllocError>
    ensures { OnOk result (ReportsWhere lines.old lines.new (λ q. list_any (λ fault. bytes_eq q (table_line table fault)) faults.now)) }
{
    for fault in faults {
        report_table_fault(alloc, table, *fault, lines)?;
    }
    Ok(())
}
