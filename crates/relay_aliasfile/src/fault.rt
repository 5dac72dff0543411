//! What is wrong with the lines of a file.
ghost use Rattle.std.specs.Prelude.{◌≡◌, ◌++◌, ◌∷◌, [], OnOk};
ghost use Rattle.relay_aliasfile.specs.MailboxFiles.{fault};

use std::alloc::AllocError;

/// What is wrong with a line.
#[derive(Clone, Copy, Debug, PartialEq, Eq)]
pub enum FaultKind {
    BadLine,
    BadItem,
    Duplicate,
    Empty,
}

/// A fault, at the number of its line.
#[derive(Clone, Copy, Debug, PartialEq, Eq)]
pub struct LineFault {
    pub line: usize,
    pub kind: FaultKind,
}

/// Adds a fault.
pub(crate) fn add_fault(
    line: usize,
    kind: FaultKind,
    faults: &mut Vec<LineFault>,
) -> Result<(), AllocError>
    ensures { OnOk result (faults.new.items ≡ faults.old.items ++ fault line kind ∷ []) }
{
    faults.push(LineFault { line, kind })?;
    Ok(())
}
