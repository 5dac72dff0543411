//! The files of names and lists in a job.
use relay_aliasfile::{FaultKind, LineFault};
use relay_text::Text;
use relay_wire::{Finding, LineWord};
use std::alloc::{AllocError, Global};

/// A file of a job, as a finding names it.
#[derive(Clone, Copy)]
pub enum JobFile<'a> {
    Aliases,
    /// The include file of a path.
    Include(&'a [u8]),
    Mailboxes,
}

impl JobFile<'_> {
    ghost use Rattle.std.specs.Prelude.{◌≡◌, IfOk};
    ghost use Rattle.relay_planning.specs.Report.{word_of};
    ghost use Rattle.relay_planning.specs.Texts.{file_finding};

    fn word(kind: FaultKind) -> LineWord
        ensures { result ≡ word_of kind }
    {
        match kind {
            FaultKind::BadLine => LineWord::BadLine,
            FaultKind::BadItem => LineWord::BadItem,
            FaultKind::Duplicate => LineWord::Duplicate,
            FaultKind::Empty => LineWord::Empty,
        }
    }

    /// What is reported of a line of this file that is at fault.
    pub(crate) fn finding(self, alloc: Global, fault: LineFault) -> Result<Finding, AllocError>
        ensures { IfOk result (λ finding. finding ≡ file_finding self.entry fault) }
    {
        let word = JobFile::word(fault.kind);
        match self {
            JobFile::Aliases => Ok(Finding::Aliases(fault.line, word)),
            JobFile::Include(path) => {
                let path = Text::copy_of(alloc, path)?;
                Ok(Finding::Include(path, fault.line, word))
            }
            JobFile::Mailboxes => Ok(Finding::Mailboxes(fault.line, word)),
        }
    }
}
