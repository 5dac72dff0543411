//! Plans of many envelopes: by a text that has their tables too, or by the tables of a file.
ghost use Rattle.std.specs.Prelude.{◌≡◌, ◌≢◌, ◌≤◌, true, false, IfOk};
ghost use Rattle.relay_job.specs.Tables.{AreTablesWithin};
ghost use Rattle.aliasplan_words.specs.Requests.{IsWork};
ghost use Rattle.aliasplan_command.specs.Each.{is_clean};

use crate::answering::refused;
use crate::explaining::shown;
use crate::file_source;
use crate::status::Status;
use aliasplan::{Crew, Device, Job, NoGate, RunFault, SourceFault, parse_tables, read_job};
use aliasplan_each::{EachSummary, TablesSource, Wording, run_beside, run_each};
use aliasplan_words::{Output, Work};
use relay_text::Text;
use std::alloc::Global;
use std::io;
use std::io::Read;
use std::rt::Files;
use std::thread::Threads;

/// What is asked of many envelopes.
#[derive(Clone, Copy)]
pub(crate) struct EachWork<'a> {
    pub(crate) work: Work,
    pub(crate) output: Output<'static>,
    /// The file that has the tables; they stand in front of the envelopes where there is none.
    pub(crate) tables: Option<&'a Text>,
}

impl EachWork<'_> {
    fn wording(&self) -> Wording {
        Wording {
            form: self.work.options.form,
            returns: matches!(self.output, Output::Returns),
        }
    }
}

/// Whether nothing was found in files and tables or in a plan, and no envelope was refused.
fn is_clean(summary: &EachSummary) -> bool
    ensures { result ≡ is_clean summary.now }
{
    let counts = summary.counts;
    summary.findings == 0 && counts.findings == 0 && counts.refused == 0
}

/// What a run ends with that answered envelopes.
fn status_after(summary: &EachSummary) -> Status
    ensures { (is_clean summary.now ≡ true → result ≡ Status.Done) × (is_clean summary.now ≡ false → result ≡ Status.Found) }
{
    if is_clean(summary) {
        Status::Done
    } else {
        Status::Found
    }
}

/// The text of the file of a path, as it is each time.
#[derive(Drop)]
struct FileTables<'a, R> {
    rt: &'a R,
    path: &'a Text,
}

impl<R: Files> TablesSource for FileTables<'_, R> {
    ghost use Rattle.aliasplan_each.specs.Given.{unknown};

    // A file may change at any time, so nothing is told of it.
    ghost coming = { λ source k. unknown };

    fn fetch(&mut self, alloc: Global, max: usize) -> Result<Text, RunFault> {
        match file_source::open(self.rt, self.path.as_bytes()) {
            Ok(file) => read_job(alloc, &mut Device::new(file), max),
            Err(SourceFault::Memory) => Err(RunFault::Memory),
            Err(_) => Err(RunFault::Read),
        }
    }
}

/// The settings, files and tables that a source gives first, of at most so many bytes.
fn first_tables<T: TablesSource>(
    alloc: Global,
    source: &mut T,
    most: usize,
) -> Result<Job, RunFault>
    requires { most ≤ 67108864 }
    ensures { IfOk result (AreTablesWithin most) }
{
    let text = source.fetch(alloc, most)?;
    parse_tables(alloc, text.as_bytes())
}

/// Answers the envelopes that a reader gives, each when it has ended, by tables that were read before, and are read anew where that is
/// asked for.
fn answer_beside<R: Print + Eprint + AllocGlobal + Threads + Sync, T: TablesSource, J: Read + Drop>(
    rt: &R,
    each: EachWork<'_>,
    tables: Job,
    source: &mut T,
    envelopes: J,
) -> Result<EachSummary, RunFault>
    requires work { IsWork each.work }
    requires tables { AreTablesWithin each.work.limits.bytes tables }
{
    let work = each.work;
    let crew = Crew {
        rt,
        alloc: rt.alloc(),
        options: work.options,
        limits: work.limits,
        gate: &NoGate,
    };
    let mut reader = Device::new(envelopes);
    let mut writer = Device::new(io::writer(rt));
    run_beside(
        &crew,
        each.wording(),
        tables,
        source,
        &mut reader,
        &mut writer,
    )
}

/// Answers the envelopes of a text that has their tables in front.
fn answer_whole<R: Print + Eprint + AllocGlobal + Threads + Sync, J: Read + Drop>(
    rt: &R,
    each: EachWork<'_>,
    text: J,
) -> Result<EachSummary, RunFault>
    requires { IsWork each.work }
{
    let work = each.work;
    let crew = Crew {
        rt,
        alloc: rt.alloc(),
        options: work.options,
        limits: work.limits,
        gate: &NoGate,
    };
    let mut reader = Device::new(text);
    let mut writer = Device::new(io::writer(rt));
    run_each(&crew, each.wording(), &mut reader, &mut writer)
}

/// Says why the tables of a file can't be had, and what the process ends with.
fn refused_tables<R: Eprint>(rt: &R, path: &Text, fault: RunFault) -> Status
    ensures { result ≢ Status.CommandLine }
{
    let name = shown(path.as_bytes());
    let _ = eprintln!(rt; "aliasplan: {name}: {fault}");
    Status::of_fault(fault)
}

/// Answers envelopes by the tables in the file of a path, or where there is none, by those in front of them, and says on standard error why
/// it can't.
pub(crate) fn answer_each<R: Files + Print + Eprint + AllocGlobal + Threads + Sync, J: Read + Drop>(
    rt: &R,
    each: EachWork<'_>,
    envelopes: J,
) -> Status
    requires { IsWork each.work }
    ensures { result ≢ Status.CommandLine }
{
    let answer = match each.tables {
        None => answer_whole(rt, each, envelopes),
        Some(path) => {
            let mut source = FileTables { rt, path };
            match first_tables(rt.alloc(), &mut source, each.work.limits.bytes) {
                Ok(tables) => answer_beside(rt, each, tables, &mut source, envelopes),
                Err(fault) => return refused_tables(rt, path, fault),
            }
        }
    };
    match answer {
        Ok(summary) => status_after(&summary),
        Err(fault) => refused(rt, fault),
    }
}
