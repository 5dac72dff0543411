//! The tables of routes.
use relay_routes::{FaultKind, LineFault};
use relay_wire::{Finding, LineWord};

/// A table of a job.
#[derive(Clone, Copy)]
pub enum Table {
    Transport,
    Mx,
}

impl Table {
    ghost use Rattle.std.specs.Prelude.{◌≡◌};
    ghost use Rattle.relay_planning.specs.Report.{table_word_of};
    ghost use Rattle.relay_planning.specs.Texts.{table_finding};

    fn word(kind: FaultKind) -> LineWord
        ensures { result ≡ table_word_of kind }
    {
        match kind {
            FaultKind::BadLine => LineWord::BadLine,
            FaultKind::Duplicate => LineWord::Duplicate,
        }
    }

    /// What is reported of a line of this table that is at fault.
    pub(crate) fn finding(self, fault: LineFault) -> Finding
        ensures { result ≡ table_finding self fault }
    {
        let word = Table::word(fault.kind);
        match self {
            Table::Transport => Finding::Transport(fault.line, word),
            Table::Mx => Finding::Mx(fault.line, word),
        }
    }
}
