//! Jobs whose text is there before they are answered: those of files that lie apart, and those with another envelope.
ghost use Rattle.std.specs.Prelude.{◌≢◌, IfErr};

use crate::answering::{read_whole, refused};
use crate::explaining::{explain_file, shown};
use crate::file_source;
use crate::file_source::FileSource;
use crate::standard_input::StandardInput;
use crate::status::Status;
use aliasplan::{Limits, Paths, RunFault, SourceFault};
use aliasplan_words::{Detail, JobSource, NamedJob};
use relay_envelopes::replace_envelope;
use relay_gather::gathered_text;
use relay_text::Text;
use std::rt::Files;

/// What a call ends with whose files that lie apart make no job for this fault, which is said.
pub(crate) fn ungathered<R: Files + Eprint + AllocGlobal>(
    rt: &R,
    source: &FileSource<'_, R>,
    fault: RunFault,
    detail: Detail,
) -> Status
    ensures { (result ≢ Status.Found) × (result ≢ Status.CommandLine) }
{
    let status = refused(rt, fault);
    if detail == Detail::Culprit && fault == RunFault::Read {
        if let Some(path) = source.failed() {
            explain_file(rt, path);
        }
    }
    status
}

/// What a call ends with that can't open the file of a path, as is said.
pub(crate) fn unopened<R: Files + Eprint + AllocGlobal>(
    rt: &R,
    path: &Text,
    fault: SourceFault,
    detail: Detail,
) -> Status
    ensures { (result ≢ Status.Found) × (result ≢ Status.CommandLine) }
{
    if fault == SourceFault::Memory {
        return refused(rt, RunFault::Memory);
    }
    let status = refused(rt, RunFault::Read);
    if detail == Detail::Culprit {
        explain_file(rt, path.as_bytes());
    }
    status
}

/// The text of the job that `gather` makes of files that lie apart, or what the process ends with, which is said.
fn gathered<R: Files + Eprint + AllocGlobal>(
    rt: &R,
    paths: &Paths,
    detail: Detail,
) -> Result<Text, Status>
    ensures { IfErr result (λ status. (status ≢ Status.Found) × (status ≢ Status.CommandLine)) }
{
    let mut source = FileSource::new(rt);
    let most = Limits::default().bytes;
    match gathered_text(rt.alloc(), &mut source, paths, most) {
        Ok(text) => Ok(text),
        Err(fault) => Err(ungathered(rt, &source, fault, detail)),
    }
}

/// The text of the file of a path, or what the process ends with, which is said.
fn text_of_file<R: Files + Eprint + AllocGlobal>(
    rt: &R,
    path: &Text,
    detail: Detail,
) -> Result<Text, Status>
    ensures { IfErr result (λ status. (status ≢ Status.Found) × (status ≢ Status.CommandLine)) }
{
    match file_source::open(rt, path.as_bytes()) {
        Ok(file) => Ok(Text::of(read_whole(rt, file, shown(path.as_bytes()), detail)?)),
        Err(fault) => Err(unopened(rt, path, fault, detail)),
    }
}

/// The text of the job that a source gives, or what the process ends with, which is said.
fn text_of_source<R: Input + Files + Eprint + AllocGlobal>(
    rt: &R,
    source: &JobSource,
    detail: Detail,
) -> Result<Text, Status>
    ensures { IfErr result (λ status. (status ≢ Status.Found) × (status ≢ Status.CommandLine)) }
{
    match source {
        JobSource::Input => {
            let input = StandardInput::new(rt.reader());
            Ok(Text::of(read_whole(rt, input, "standard input", detail)?))
        }
        JobSource::File(path) => text_of_file(rt, path, detail),
        JobSource::Apart(paths) => gathered(rt, paths, detail),
    }
}

/// A text with this envelope in place of its own. One of more bytes than a job may have is too long whatever envelope it has.
fn with_envelope<R: Eprint + AllocGlobal>(
    rt: &R,
    text: Text,
    envelope: &Text,
    most: usize,
) -> Result<Text, Status>
    ensures { IfErr result (λ status. (status ≢ Status.Found) × (status ≢ Status.CommandLine)) }
{
    if text.len() > most {
        return Err(refused(rt, RunFault::TooLong));
    }
    match replace_envelope(rt.alloc(), text.as_bytes(), envelope.as_bytes()) {
        Ok(text) => Ok(text),
        Err(_) => Err(refused(rt, RunFault::Memory)),
    }
}

/// The text of a job, which has at most so many bytes, or what the process ends with, which is said.
pub(crate) fn text_of_job<R: Input + Files + Eprint + AllocGlobal>(
    rt: &R,
    job: &NamedJob,
    most: usize,
    detail: Detail,
) -> Result<Text, Status>
    ensures { IfErr result (λ status. (status ≢ Status.Found) × (status ≢ Status.CommandLine)) }
{
    let text = text_of_source(rt, &job.source, detail)?;
    match &job.envelope {
        Some(envelope) => with_envelope(rt, text, envelope, most),
        None => Ok(text),
    }
}
