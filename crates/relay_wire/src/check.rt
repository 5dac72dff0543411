//! Checks of files and tables, written.
ghost use Rattle.std.specs.Prelude.{◌≡◌, ◌++◌, length, IfOk, OnOk};
ghost use Rattle.relay_wire.specs.CheckText.{check_line, check_text_of};
ghost use Rattle.relay_wire.specs.PlanText.{line};

use crate::words::{end_line, put_count, put_lines, text_put};
use relay_text::Text;
use std::alloc::{AllocError, Global};

// Writes the line that counts.
fn put_check_line(findings: usize, notes: usize, out: &mut Vec<u8>) -> Result<(), AllocError>
    ensures { OnOk result (out.new.items ≡ out.old.items ++ line (check_line findings notes)) }
{
    out.extend_from_slice(b"check")?;
    put_count(findings, b"findings", out)?;
    put_count(notes, b"notes", out)?;
    end_line(out)
}

// Writes a check.
fn put_check(findings: &[Text], notes: &[Text], out: &mut Vec<u8>) -> Result<(), AllocError>
    ensures { OnOk result (out.new.items ≡ out.old.items ++ check_text_of findings.now notes.now) }
{
    put_check_line(findings.len(), notes.len(), out)?;
    put_lines(findings, out)?;
    put_lines(notes, out)?;
    out.extend_from_slice(b"end\n")
}

/// The text of a check: a line of counts, the lines of findings, those of notes, and `end`. `Err` where memory runs out.
pub fn check_text(alloc: Global, findings: &[Text], notes: &[Text]) -> Result<Text, AllocError>
    ensures { IfOk result (λ text. text ≡ check_text_of findings.now notes.now) }
{
    let mut out = Vec::new(alloc);
    let put = put_check(findings, notes, &mut out);
    text_put(put, out)
}
