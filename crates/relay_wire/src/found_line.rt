//! A finding in the order of lines.
ghost use Rattle.std.specs.Prelude.{◌≡◌, IfOk};
ghost use Rattle.relay_wire.specs.Findings.{finding_text_of};
ghost use Rattle.relay_wire.specs.FoundLines.{HasOwnLine};

use crate::finding::{Finding, put_finding_line};
use std::alloc::{AllocError, Global};

/// A finding beside its line, by which alone it is compared with others.
#[derive(Drop)]
#[derive_where(PartialEq, Eq, PartialOrd, Ord)]
pub(crate) struct FoundLine {
    pub line: Vec<u8>,
    #[derive_where(skip(EqHashOrd))]
    pub finding: Finding,
}

impl FoundLine {
    /// A finding beside its line.
    pub(crate) fn of(alloc: Global, finding: Finding) -> Result<FoundLine, AllocError>
        ensures own { IfOk result HasOwnLine }
        ensures line { IfOk result (λ found. found.line.items ≡ finding_text_of finding) }
    {
        let mut line = Vec::new(alloc);
        match put_finding_line(&finding, &mut line) {
            Ok(()) => Ok(FoundLine { line, finding }),
            Err(error) => {
                drop(finding);
                Err(error)
            }
        }
    }
}
