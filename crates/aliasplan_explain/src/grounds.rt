//! What an explanation rests on.
ghost use Rattle.std.specs.Prelude.{◌≡◌, length};
ghost use Rattle.relay_text.specs.Lines.{logical_lines_of};

use crate::basis::Basis;
use relay_job::Job;
use relay_text::Line;

/// A job and what its plan is made from, the number of each recipient's line in the envelope's section, and the logical lines of the alias
/// file.
#[derive(Drop)]
pub(crate) struct Grounds<'a> {
    pub(crate) job: &'a Job,
    pub(crate) recipient_lines: &'a [usize],
    pub(crate) basis: &'a Basis,
    pub(crate) alias_lines: &'a [Line],
    ghost recipients: { length recipient_lines.now ≡ length job.now.recipients },
    ghost aliases: { alias_lines.now ≡ (logical_lines_of job.now.aliases).lines },
}

impl<'a> Grounds<'a> {
    /// The lines are the logical lines of the job's alias file.
    pub(crate) fn new(
        job: &'a Job,
        recipient_lines: &'a [usize],
        basis: &'a Basis,
        alias_lines: &'a [Line],
    ) -> Grounds<'a>
        requires recipients { length recipient_lines.now ≡ length job.now.recipients }
        requires aliases { alias_lines.now ≡ (logical_lines_of job.now.aliases).lines }
        ensures job { result.job.now ≡ job.now }
        ensures lines { result.recipient_lines.now ≡ recipient_lines.now }
        ensures basis { result.basis.now ≡ basis.now }
    {
        Grounds {
            job,
            recipient_lines,
            basis,
            alias_lines,
        }
    }
}
