//! The lines of an envelope's recipients.
ghost use Rattle.std.specs.Prelude.{◌≡◌, ℕ, ◌-◌, List, map, length, Ok, IfOk, IfErr, option_map};
ghost use Rattle.relay_job.specs.declared.job.Job as jobs;
ghost use Rattle.relay_job.specs.JobText.{bad_job, job_of};
ghost use Rattle.relay_job.specs.JobParts.{commands_at, Stops};
ghost use Rattle.relay_job.specs.RecipientLines.{numbers_behind, recipient_lines_of};

use crate::command::Command;
use crate::fault::RunFault;
use crate::parts::Parts;
use crate::place::Place;
use crate::section::Section;
use std::alloc::{AllocError, Global};

/// The numbers of the commands of a section, counted behind the heading of this number.
fn numbers_behind(
    alloc: Global,
    heading: usize,
    section: Place<'_>,
) -> Result<Vec<usize>, AllocError>
    ensures { IfOk result (λ numbers. numbers.items ≡ numbers_behind heading (commands_at section.entry)) }
{
    let mut numbers = Vec::new(alloc);
    let mut place = section;
    while let Some((command, after)) = Command::split_from(&place) {
        numbers.push(command.number.saturating_sub(heading))?;
        place = after;
    }
    Ok(numbers)
}

/// The number of each recipient's line in the envelope's section, from 1, in the order of the recipients. BadJob as from `parse_job`,
/// and Memory where a growth was refused; a bad line of the settings or of the envelope is not regarded.
pub fn recipient_lines(alloc: Global, bytes: &[u8]) -> Result<Vec<usize>, RunFault>
    ensures lines { IfOk result (λ lines. lines.items ≡ recipient_lines_of bytes.now) }
    ensures refused { IfErr result (λ fault. Stops (option_map RunFault.BadJob (bad_job bytes.now)) fault) }
{
    let parts = Parts::find(alloc, bytes)?;
    let section = parts.sections.section(Section::Envelope);
    match Command::split_from(&section) {
        Some((_sender, behind)) => Ok(numbers_behind(alloc, section.line, behind)?),
        None => Ok(Vec::new(alloc)),
    }
}

/// A law, with nothing to run: each recipient of a job has a line.
pub fn each_recipient_has_line()
    ensures { (text : List ℕ) (job : jobs.Job) → job_of text ≡ Ok job → length (recipient_lines_of text) ≡ length job.recipients }
{}
