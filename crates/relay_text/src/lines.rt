//! Logical lines.
use crate::logical::LogicalLines;
use crate::seq::Seq;
use crate::text::Text;

/// A logical line under the number of its first physical line (aliases(5), transport(5)).
#[derive(Drop)]
pub struct Line {
    /// The number of its first physical line, from 1; ignored lines count too.
    pub number: usize,
    /// Its physical lines in a row, without their ends; white space at their starts and ends stays.
    pub text: Text,
}

/// The logical lines of a text, and the lines that continue none.
#[derive(Drop)]
pub struct Lines {
    /// The logical lines, in order.
    pub lines: Seq<Line>,
    /// The numbers of the physical lines that continue no logical line, ascending.
    pub orphans: Seq<usize>,
}

ghost use Rattle.std.specs.Prelude.{◌≡◌, IfOk};
ghost use Rattle.relay_text.specs.Lines.{logical_lines_of};

use std::alloc::{AllocError, Global};

/// The logical lines of a text, each joined as its physical lines stand, without their ends; a line that begins with white space
/// continues the one before, past ignored lines too (aliases(5), transport(5)). An orphan is a kept line that begins with white space
/// where no logical line stands before it. `Err` where memory runs out.
pub fn logical_lines(alloc: Global, bytes: &[u8]) -> Result<Lines, AllocError>
    ensures { IfOk result (λ lines. lines ≡ logical_lines_of bytes.now) }
{
    let mut left = LogicalLines::new(alloc, bytes)?;
    let mut lines = Vec::new(alloc);
    let mut joined = Vec::new(alloc);
    while let Some(line) = left.next_line(&mut joined)? {
        lines.push(Line {
            number: line.number,
            text: Text::copy_of(alloc, line.text)?,
        })?;
    }
    Ok(Lines {
        lines: Seq::of(lines),
        orphans: left.into_orphans(),
    })
}
