//! What a job's text says, and what an envelope's says by itself.
ghost use Rattle.std.specs.Prelude.{◌≡◌, ℕ, List, option_map, IsTrue, IfOk, IfErr};
ghost use Rattle.std.specs.Thread.{IsSync};
ghost use Rattle.relay_text.specs.Addresses.{is_origin};
ghost use Rattle.relay_job.specs.JobParts.{first_bad_setting, bad_envelope_at, IsEnvelopeAt, Stops};
ghost use Rattle.relay_job.specs.JobText.{job_of};
ghost use Rattle.relay_job.specs.Jobs.{AreFilesOf};
ghost use Rattle.relay_job.specs.SectionPlaces.{setting_lines_of, ArePartsOf, HasSettings};
ghost use Rattle.relay_job.specs.Tables.{tables_of};
ghost use Rattle.relay_job.specs.Envelopes.{envelope_of};
ghost use Rattle.relay_job.specs.JobAnswers.{Answers};

use crate::envelope::Envelope;
use crate::fault::RunFault;
use crate::job::Job;
use crate::job_files::JobFiles;
use crate::parts::Parts;
use crate::place::Place;
use crate::recipient_reading::workers_for;
use crate::section::Section;
use crate::setting_values::SettingValues;
use crate::settings::Settings;
use relay_text::Seq;
use std::alloc::{AllocError, Global};
use std::thread::{Threads, join};

/// The job that a text is: its settings, the bytes of its mailboxes and tables, and the envelope.
///
/// The first of these faults comes: BadJob at the first line that is no heading of a section, or one of an earlier section, or that
/// stands before the first heading and isn't of white space alone; BadSetting at the first bad line of the settings; BadEnvelope at
/// the first bad line of the envelope, at its heading where it ends too early, at 0 where the job has none. Memory comes where a
/// growth was refused.
pub fn parse_job(alloc: Global, bytes: &[u8]) -> Result<Job, RunFault>
    ensures { Answers result (job_of bytes.now) }
{
    let parts = Parts::find(alloc, bytes)?;
    job_of_parts(alloc, &parts)
}

/// The job of a text's parts. BadSetting and BadEnvelope as from `parse_job`.
fn job_of_parts(alloc: Global, parts: &Parts<'_>) -> Result<Job, RunFault>
    ensures { (text : List ℕ) → ArePartsOf text parts.now → Answers result (job_of text) }
{
    let settings = read_settings(alloc, parts)?;
    let section = parts.sections.section(Section::Envelope);
    let envelope = Envelope::read(alloc, section, settings.origin.as_bytes())?;
    let files = JobFiles::read(alloc, parts)?;
    Ok(Job::of(settings, files, envelope))
}

/// The same, by so many threads, this one among them: the recipients of a long envelope are read by several, while one copies the files
/// and tables. Where a thread can't be started, its work is done in this one.
pub fn parse_job_by<R: Threads + Sync>(
    rt: &R,
    alloc: Global,
    workers: usize,
    bytes: &[u8],
) -> Result<Job, RunFault>
    ensures { Answers result (job_of bytes.now) }
{
    let parts = Parts::find(alloc, bytes)?;
    job_of_parts_by(rt, alloc, workers_for(workers, bytes.len()), &parts)
}

/// The job of a text's parts, by so many threads, this one among them.
fn job_of_parts_by<R: Threads + Sync>(
    rt: &R,
    alloc: Global,
    workers: usize,
    parts: &Parts<'_>,
) -> Result<Job, RunFault>
    ensures { (text : List ℕ) → ArePartsOf text parts.now → Answers result (job_of text) }
{
    let settings = read_settings(alloc, parts)?;
    let section = parts.sections.section(Section::Envelope);
    let origin = settings.origin.as_bytes();
    let (envelope, files) = read_both(rt, alloc, workers, parts, section, origin)?;
    Ok(Job::of(settings, files, envelope))
}

/// The envelope behind a heading, and the files and tables of a job's parts. From three workers on one copies these meanwhile; two read
/// the envelope sooner together, since copying takes much less time than reading.
fn read_both<R: Threads + Sync>(
    rt: &R,
    alloc: Global,
    workers: usize,
    parts: &Parts<'_>,
    section: Place<'_>,
    origin: &[u8],
) -> Result<(Envelope, JobFiles), RunFault>
    requires { IsTrue (is_origin origin.now) }
    ensures ok { IfOk result (λ both. IsEnvelopeAt origin.now section.entry both.0 × AreFilesOf parts.now both.1) }
    ensures err { IfErr result (Stops (bad_envelope_at origin.now section.entry)) }
{
    if workers < 3 {
        let envelope = Envelope::read_by(rt, alloc, workers, section, origin)?;
        return Ok((envelope, JobFiles::read(alloc, parts)?));
    }
    let rest = workers - 1;
    let copy = || -> Result<JobFiles, AllocError>
        ensures { IfOk result (AreFilesOf parts.entry.now) }
    { JobFiles::read(alloc, parts) };
    let read = || -> Result<Envelope, RunFault>
        requires { IsSync R.row × IsTrue (is_origin origin.now) }
        ensures { IfOk result (IsEnvelopeAt origin.entry.now section.entry) × IfErr result (Stops (bad_envelope_at origin.entry.now section.entry)) }
    { Envelope::read_by(rt, alloc, rest, section, origin) };
    let (there, here) = join(rt, copy, read);
    let envelope = here?;
    Ok((envelope, there?))
}

/// The settings of a job's parts. BadSetting as from `parse_job`.
pub(crate) fn read_settings(alloc: Global, parts: &Parts<'_>) -> Result<Settings, RunFault>
    ensures ok { IfOk result (HasSettings parts.now) }
    ensures err { IfErr result (Stops (option_map RunFault.BadSetting (first_bad_setting (setting_lines_of parts.now)))) }
{
    let section = parts.sections.section(Section::Settings);
    let values = SettingValues::read(alloc, section)?;
    Ok(values.settings(alloc)?)
}

/// The settings, files and tables of a text, as the job of a null sender who writes to nobody. An envelope may stand in the text or
/// not: it isn't looked at.
///
/// BadJob and BadSetting come as from `parse_job`, and BadEnvelope never. Memory comes where a growth was refused.
pub fn parse_tables(alloc: Global, bytes: &[u8]) -> Result<Job, RunFault>
    ensures { Answers result (tables_of bytes.now) }
{
    let parts = Parts::find(alloc, bytes)?;
    tables_of_parts(alloc, &parts)
}

/// The settings, files and tables of a text's parts. BadSetting as from `parse_job`.
fn tables_of_parts(alloc: Global, parts: &Parts<'_>) -> Result<Job, RunFault>
    ensures { (text : List ℕ) → ArePartsOf text parts.now → Answers result (tables_of text) }
{
    let settings = read_settings(alloc, parts)?;
    let tables = JobFiles::read(alloc, parts)?;
    let nobody = Envelope {
        sender: None,
        recipients: Seq::of(Vec::new(alloc)),
    };
    Ok(Job::of(settings, tables, nobody))
}

/// What an envelope's section says by itself, without a heading, where addresses without a domain are of this origin. A heading ends
/// it, and what stands behind isn't looked at.
///
/// BadEnvelope comes at the first bad line, from 1, and at 0 where the envelope ends too early, for there is no heading that could
/// stand for it. Memory comes where a growth was refused.
pub fn parse_envelope(alloc: Global, bytes: &[u8], origin: &[u8]) -> Result<Envelope, RunFault>
    requires { IsTrue (is_origin origin.now) }
    ensures { Answers result (envelope_of origin.now bytes.now) }
{
    Envelope::read(alloc, Place::start(bytes), origin)
}
