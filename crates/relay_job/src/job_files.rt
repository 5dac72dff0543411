//! The bytes of a job's files and tables.
ghost use Rattle.std.specs.Prelude.{◌≡◌, IfOk};
ghost use Rattle.relay_job.specs.Jobs.{AreFilesOf};
ghost use Rattle.relay_job.specs.SectionPlaces.{bytes_behind, place_of};

use crate::content::section_bytes;
use crate::include_place::read_includes;
use crate::job::JobInclude;
use crate::parts::Parts;
use crate::section::Section;
use crate::sections::Sections;
use relay_text::{Seq, Text};
use std::alloc::{AllocError, Global};

/// What the sections of files and tables hold.
#[derive(Drop)]
pub struct JobFiles {
    pub aliases: Text,
    pub includes: Seq<JobInclude>,
    pub mailboxes: Text,
    pub transport: Text,
    pub mx: Text,
}

impl JobFiles {
    /// Those of a job's parts, in memory of their own.
    pub(crate) fn read(alloc: Global, parts: &Parts<'_>) -> Result<JobFiles, AllocError>
        ensures { IfOk result (AreFilesOf parts.now) }
    {
        let sections = &parts.sections;
        let (aliases, mailboxes) = two_sections(
            alloc,
            sections,
            Section::Aliases,
            Section::Mailboxes,
        )?;
        let (transport, mx) = two_sections(alloc, sections, Section::Transport, Section::Mx)?;
        let includes = read_includes(alloc, &parts.includes)?;
        Ok(JobFiles {
            aliases,
            includes,
            mailboxes,
            transport,
            mx,
        })
    }
}

/// The bytes of two sections.
fn two_sections(
    alloc: Global,
    sections: &Sections<'_>,
    first: Section,
    second: Section,
) -> Result<(Text, Text), AllocError>
    ensures { IfOk result (λ both. (both.0 ≡ bytes_behind (place_of sections.now first)) × (both.1 ≡ bytes_behind (place_of sections.now second))) }
{
    let first = section_bytes(alloc, sections.section(first))?;
    let second = section_bytes(alloc, sections.section(second))?;
    Ok((first, second))
}
