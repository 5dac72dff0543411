//! The answer to what a command line asks for.
ghost use Rattle.std.specs.Prelude.{◌≡◌, ◌≢◌, true, false, IfOk, IfErr};
ghost use Rattle.aliasplan_words.specs.Requests.{IsRequest, IsWork};
ghost use Rattle.aliasplan_command.specs.Statuses.{code_of, code_after, IsStatusOf};

use crate::check_run::run_check;
use crate::each_run::{EachWork, answer_each};
use crate::explaining::{explain_alias_file, explain_job, shown};
use crate::explaining_items::explain_items;
use crate::file_source;
use crate::file_source::{FileSource, MOST};
use crate::headed::Headed;
use crate::job_texts::{text_of_job, ungathered, unopened};
use crate::standard_input::StandardInput;
use crate::standard_output::StandardOutput;
use crate::status::Status;
use aliasplan::{
    Crew, Device, Feed, Gate, Limits, NoGate, Paths, RunFault, Sink, gather, run, run_domains,
    run_returns,
};
use aliasplan_explain::{run_expand, run_expand_graph, run_explain};
use aliasplan_words::{Detail, Expansion, JobSource, NamedJob, Output, Request, Work};
use relay_explain::Asked;
use relay_text::Text;
use std::io;
use std::io::{ErrorKind, Read};
use std::rt::Files;
use std::thread::Threads;

/// What a run ends with that has this fault, which is said on standard error.
pub(crate) fn refused<R: Eprint>(rt: &R, fault: RunFault) -> Status
    ensures { code_after result ≡ code_of fault }
{
    let _ = eprintln!(rt; "aliasplan: {fault}");
    Status::of_fault(fault)
}

/// What a run ends with that wrote so many findings.
fn status_of(findings: usize) -> Status
    ensures { (findings ≡ 0 → result ≡ Status.Done) × (findings ≢ 0 → result ≡ Status.Found) }
{
    if findings == 0 {
        Status::Done
    } else {
        Status::Found
    }
}

/// What a run ends with that explained an address which is in the plan, or isn't.
fn status_where(in_plan: bool) -> Status
    ensures { (in_plan ≡ true → result ≡ Status.Done) × (in_plan ≡ false → result ≡ Status.Found) }
{
    if in_plan { Status::Done } else { Status::Found }
}

/// What becomes of an address that is explained by the job that a reader gives.
fn explained<G: Gate, R: Threads + Sync, F: Feed, S: Sink>(
    crew: &Crew<G, R>,
    reader: &mut F,
    writer: &mut S,
    asked: &Asked,
) -> Result<Status, RunFault>
    requires reader { (F.has_failed reader.old ≡ false) × (F.has_ended reader.old ≡ false) }
    requires writer { S.has_failed writer.old ≡ false }
    ensures { IfOk result (λ status. status ≢ Status.CommandLine) }
{
    let in_plan = run_explain(crew, reader, writer, asked)?;
    Ok(status_where(in_plan))
}

/// What a run ends with that wrote so many lines of an expansion.
fn status_of_lines(lines: usize) -> Status
    ensures { (lines ≢ 0 → result ≡ Status.Done) × (lines ≡ 0 → result ≡ Status.Found) }
{
    if lines == 0 {
        Status::Found
    } else {
        Status::Done
    }
}

/// What becomes of names and addresses that are expanded by the job that a reader gives.
fn expanded<G: Gate, R: Threads + Sync, F: Feed, S: Sink>(
    crew: &Crew<G, R>,
    reader: &mut F,
    writer: &mut S,
    expansion: &Expansion,
) -> Result<Status, RunFault>
    requires reader { (F.has_failed reader.old ≡ false) × (F.has_ended reader.old ≡ false) }
    requires writer { S.has_failed writer.old ≡ false }
    ensures { IfOk result (λ status. status ≢ Status.CommandLine) }
{
    let asked = expansion.asked.as_slice();
    if let Some(form) = expansion.graph {
        run_expand_graph(crew, reader, writer, asked, form)?;
        return Ok(Status::Done);
    }
    let lines = run_expand(crew, reader, writer, asked, expansion.with_senders)?;
    Ok(status_of_lines(lines))
}

/// What becomes of the answer to the job that a reader gives, which is written.
fn written<G: Gate, R: AllocGlobal + Threads + Sync, F: Feed, S: Sink>(
    crew: &Crew<G, R>,
    reader: &mut F,
    writer: &mut S,
    output: Output<'_>,
) -> Result<Status, RunFault>
    requires reader { (F.has_failed reader.old ≡ false) × (F.has_ended reader.old ≡ false) }
    requires writer { S.has_failed writer.old ≡ false }
    ensures asked { IfOk result (λ status. status ≢ Status.CommandLine) }
    ensures domains { output.entry ≡ Output.Domains → IfOk result (λ status. status ≢ Status.Found) }
{
    let Crew {
        rt,
        alloc,
        options,
        limits,
        gate,
    } = *crew;
    let summary = match output {
        Output::Text => run(rt, alloc, reader, writer, options, limits, gate)?,
        Output::Returns => run_returns(crew, reader, writer)?,
        Output::Domains => {
            run_domains(crew, reader, writer)?;
            return Ok(Status::Done);
        }
        Output::Check(scope) => {
            let findings = run_check(crew, reader, writer, scope)?;
            return Ok(status_of(findings));
        }
        Output::Explain(asked) => return explained(crew, reader, writer, asked),
        Output::Expand(expansion) => return expanded(crew, reader, writer, expansion),
    };
    Ok(status_of(summary.findings))
}

/// What becomes of the answer to a job on standard output. Where the reader of that has gone away, nothing is to be said.
fn planned<R: Print + Eprint + AllocGlobal + Threads + Sync, J: Read + Drop>(
    rt: &R,
    job: J,
    work: Work,
    output: Output<'_>,
) -> Result<Status, RunFault>
    requires { IsWork work }
    ensures asked { IfOk result (λ status. status ≢ Status.CommandLine) }
    ensures domains { output.entry ≡ Output.Domains → IfOk result (λ status. status ≢ Status.Found) }
{
    let mut reader = Device::new(job);
    let mut standard_output = StandardOutput::new(io::writer(rt));
    let crew = Crew {
        rt,
        alloc: rt.alloc(),
        options: work.options,
        limits: work.limits,
        gate: &NoGate,
    };
    let mut writer = Device::new(&mut standard_output);
    match written(&crew, &mut reader, &mut writer, output) {
        Err(RunFault::Write) if standard_output.has_lost_reader() => Ok(Status::Broken),
        answer => answer,
    }
}

/// Answers to the job that a reader gives.
fn plan<R: Print + Eprint + AllocGlobal + Threads + Sync, J: Read + Drop>(
    rt: &R,
    job: J,
    work: Work,
    output: Output<'_>,
) -> Status
    requires { IsWork work }
    ensures asked { result ≢ Status.CommandLine }
    ensures domains { output.entry ≡ Output.Domains → result ≢ Status.Found }
{
    let mut reader = Headed::new(job, Vec::new(rt.alloc()));
    match planned(rt, &mut reader, work, output) {
        Ok(status) => status,
        Err(fault) => {
            let status = refused(rt, fault);
            explain_alias_file(rt, reader.head(), fault);
            status
        }
    }
}

/// All bytes that a reader of this name gives, or what the process ends with, which is said.
pub(crate) fn read_whole<R: Eprint + AllocGlobal, J: Read + Drop>(
    rt: &R,
    job: J,
    name: &str,
    detail: Detail,
) -> Result<Vec<u8>, Status>
    ensures { IfErr result (λ status. (status ≢ Status.Found) × (status ≢ Status.CommandLine)) }
{
    let mut bytes = Vec::new(rt.alloc());
    match job.take(MOST).read_to_end(&mut bytes) {
        Ok(_) => Ok(bytes),
        Err(error) if error.kind() == ErrorKind::OutOfMemory => Err(refused(rt, RunFault::Memory)),
        Err(error) => {
            let status = refused(rt, RunFault::Read);
            if detail == Detail::Culprit {
                let _ = eprintln!(rt; "aliasplan: {name}: {error}");
            }
            Err(status)
        }
    }
}

/// Answers to the bytes of a job, and says what of them has a fault.
fn plan_bytes<R: Print + Eprint + AllocGlobal + Threads + Sync>(
    rt: &R,
    bytes: &[u8],
    work: Work,
    output: Output<'_>,
) -> Status
    requires { IsWork work }
    ensures asked { result ≢ Status.CommandLine }
    ensures domains { output.entry ≡ Output.Domains → result ≢ Status.Found }
{
    match planned(rt, bytes, work, output) {
        Ok(status) => {
            if status == Status::Found
                && !matches!(output, Output::Explain(_) | Output::Expand(_))
            {
                explain_items(rt, bytes);
            }
            status
        }
        Err(fault) => {
            let status = refused(rt, fault);
            explain_job(rt, bytes, fault);
            explain_alias_file(rt, bytes, fault);
            status
        }
    }
}

/// Answers to the job that a reader of this name gives, and says what of it has a fault. It's read whole before, so that a line is there to
/// be said.
fn plan_verbosely<R: Print + Eprint + AllocGlobal + Threads + Sync, J: Read + Drop>(
    rt: &R,
    job: J,
    name: &str,
    work: Work,
    output: Output<'_>,
) -> Status
    requires { IsWork work }
    ensures asked { result ≢ Status.CommandLine }
    ensures domains { output.entry ≡ Output.Domains → result ≢ Status.Found }
{
    match read_whole(rt, job, name, Detail::Culprit) {
        Ok(bytes) => plan_bytes(rt, bytes.as_slice(), work, output),
        Err(status) => status,
    }
}

/// Answers to the job on standard input.
fn plan_input<R: Input + Print + Eprint + AllocGlobal + Threads + Sync>(
    rt: &R,
    work: Work,
    output: Output<'_>,
    detail: Detail,
) -> Status
    requires { IsWork work }
    ensures asked { result ≢ Status.CommandLine }
    ensures domains { output.entry ≡ Output.Domains → result ≢ Status.Found }
{
    let input = StandardInput::new(rt.reader());
    match detail {
        Detail::Line => plan(rt, input, work, output),
        Detail::Culprit => plan_verbosely(rt, input, "standard input", work, output),
    }
}

/// Answers to the job in the file of a path.
fn plan_file<R: Files + Print + Eprint + AllocGlobal + Threads + Sync>(
    rt: &R,
    path: &Text,
    work: Work,
    output: Output<'_>,
    detail: Detail,
) -> Status
    requires { IsWork work }
    ensures asked { result ≢ Status.CommandLine }
    ensures domains { output.entry ≡ Output.Domains → result ≢ Status.Found }
{
    match file_source::open(rt, path.as_bytes()) {
        Ok(file) => match detail {
            Detail::Line => plan(rt, file, work, output),
            Detail::Culprit => plan_verbosely(rt, file, shown(path.as_bytes()), work, output),
        },
        Err(fault) => unopened(rt, path, fault, detail),
    }
}

/// Answers to a job whose text is made before.
fn plan_made<R: Input + Files + Print + Eprint + AllocGlobal + Threads + Sync>(
    rt: &R,
    job: &NamedJob,
    work: Work,
    output: Output<'_>,
    detail: Detail,
) -> Status
    requires { IsWork work }
    ensures asked { result ≢ Status.CommandLine }
    ensures domains { output.entry ≡ Output.Domains → result ≢ Status.Found }
{
    match text_of_job(rt, job, work.limits.bytes, detail) {
        Ok(text) => match detail {
            Detail::Line => plan(rt, text.as_bytes(), work, output),
            Detail::Culprit => plan_bytes(rt, text.as_bytes(), work, output),
        },
        Err(status) => status,
    }
}

/// Answers to a job by its name. One in a file or on standard input is read as it comes, unless it gets another envelope.
fn plan_named<R: Input + Files + Print + Eprint + AllocGlobal + Threads + Sync>(
    rt: &R,
    job: &NamedJob,
    work: Work,
    output: Output<'_>,
    detail: Detail,
) -> Status
    requires { IsWork work }
    ensures asked { result ≢ Status.CommandLine }
    ensures domains { output.entry ≡ Output.Domains → result ≢ Status.Found }
{
    match (&job.source, &job.envelope) {
        (JobSource::Input, None) => plan_input(rt, work, output, detail),
        (JobSource::File(path), None) => plan_file(rt, path, work, output, detail),
        _ => plan_made(rt, job, work, output, detail),
    }
}

/// Answers the envelopes in the file of a path, by the tables of another where one is named.
fn answer_each_in<R: Files + Print + Eprint + AllocGlobal + Threads + Sync>(
    rt: &R,
    path: &Text,
    each: EachWork<'_>,
    detail: Detail,
) -> Status
    requires { IsWork each.work }
    ensures { result ≢ Status.CommandLine }
{
    match file_source::open(rt, path.as_bytes()) {
        Ok(file) => answer_each(rt, each, file),
        Err(fault) => unopened(rt, path, fault, detail),
    }
}

/// The same, or of those on standard input where no file is named.
fn answer_each_named<R: Input + Files + Print + Eprint + AllocGlobal + Threads + Sync>(
    rt: &R,
    path: Option<&Text>,
    each: EachWork<'_>,
    detail: Detail,
) -> Status
    requires { IsWork each.work }
    ensures { result ≢ Status.CommandLine }
{
    match path {
        None => answer_each(rt, each, StandardInput::new(rt.reader())),
        Some(path) => answer_each_in(rt, path, each, detail),
    }
}

fn gather_job<R: Files + Print + Eprint + AllocGlobal>(
    rt: &R,
    paths: &Paths,
    detail: Detail,
) -> Status
    ensures { (result ≢ Status.Found) × (result ≢ Status.CommandLine) }
{
    let mut source = FileSource::new(rt);
    let mut standard_output = StandardOutput::new(io::writer(rt));
    let mut writer = Device::new(&mut standard_output);
    let most = Limits::default().bytes;
    match gather(rt.alloc(), &mut source, paths, &mut writer, most) {
        Ok(()) => Status::Done,
        Err(RunFault::Write) if standard_output.has_lost_reader() => Status::Broken,
        Err(fault) => ungathered(rt, &source, fault, detail),
    }
}

/// Answers to a request: writes what is asked for on standard output, and says on standard error why it can't.
pub fn answer<R: Input + Files + Print + Eprint + AllocGlobal + Threads + Sync>(
    rt: &R,
    request: &Request,
) -> Status
    requires { IsRequest request.now }
    ensures { IsStatusOf request.now result }
{
    match request {
        Request::Plan(work, output, job, detail) => plan_named(rt, job, *work, *output, *detail),
        Request::Each(work, output, tables, path, detail) => {
            let each = EachWork {
                work: *work,
                output: *output,
                tables: tables.as_ref(),
            };
            answer_each_named(rt, path.as_ref(), each, *detail)
        }
        Request::Domains(work, job, detail) => {
            plan_named(rt, job, *work, Output::Domains, *detail)
        }
        Request::Check(work, scope, job, detail) => {
            plan_named(rt, job, *work, Output::Check(*scope), *detail)
        }
        Request::Explain(work, asked, job, detail) => {
            plan_named(rt, job, *work, Output::Explain(asked), *detail)
        }
        Request::Expand(work, expansion, job, detail) => {
            plan_named(rt, job, *work, Output::Expand(expansion), *detail)
        }
        Request::Gather(paths, detail) => gather_job(rt, paths, *detail),
        Request::Help => Status::Done,
        Request::Unknown => Status::CommandLine,
        Request::Fault(fault) => refused(rt, *fault),
    }
}
