//! The lines that stand round the plans of envelopes.
ghost use Rattle.std.specs.Prelude.{◌≡◌, ◌++◌, OnOk};
ghost use Rattle.relay_wire.specs.PlanText.{line};
ghost use Rattle.relay_envelopes.specs.EachText.{tables_text_of, tables_line, envelope_line, refusal_line, done_line};

use crate::counts::EnvelopeCounts;
use crate::refusal::Refusal;
use relay_text::Text;
use relay_wire::{put_count, put_lines};
use std::alloc::AllocError;

// Puts the line that counts the findings of files and tables at the end.
fn put_tables_line(findings: usize, out: &mut Vec<u8>) -> Result<(), AllocError>
    ensures { OnOk result (out.new.items ≡ out.old.items ++ line (tables_line findings)) }
{
    out.extend_from_slice(b"tables")?;
    put_count(findings, b"findings\n", out)
}

/// Puts the first lines of an answer at the end: how many findings the files and tables have, and each of these. `Err` where memory runs
/// out, as in the calls below; then some front of what was to come stands behind what was there.
pub fn put_tables(findings: &[Text], out: &mut Vec<u8>) -> Result<(), AllocError>
    ensures { OnOk result (out.new.items ≡ out.old.items ++ tables_text_of findings.now) }
{
    put_tables_line(findings.len(), out)?;
    put_lines(findings, out)
}

/// Puts the line before an envelope's plan or refusal at the end.
pub fn put_envelope(id: &[u8], out: &mut Vec<u8>) -> Result<(), AllocError>
    ensures { OnOk result (out.new.items ≡ out.old.items ++ line (envelope_line id.now)) }
{
    out.extend_from_slice(b"envelope ")?;
    out.extend_from_slice(id)?;
    out.push(b'\n')?;
    Ok(())
}

// Puts the line of an envelope that is refused for a line of its own at the end.
fn put_bad_envelope(number: usize, out: &mut Vec<u8>) -> Result<(), AllocError>
    ensures { OnOk result (out.new.items ≡ out.old.items ++ line (refusal_line (Refusal.BadEnvelope number))) }
{
    out.extend_from_slice(b"refused line")?;
    put_count(number, b"bad envelope\n", out)
}

/// Puts the line of a refused envelope at the end.
pub fn put_refusal(refusal: Refusal, out: &mut Vec<u8>) -> Result<(), AllocError>
    ensures { OnOk result (out.new.items ≡ out.old.items ++ line (refusal_line refusal)) }
{
    match refusal {
        Refusal::BadEnvelope(number) => put_bad_envelope(number, out),
        Refusal::TooManyNames => out.extend_from_slice(b"refused too many names\n"),
        Refusal::TooManyOwners => out.extend_from_slice(b"refused too many owners\n"),
        Refusal::TooManyPairs => out.extend_from_slice(b"refused too many pairs\n"),
        Refusal::TooLong => out.extend_from_slice(b"refused too long\n"),
    }
}

/// Puts the last line of an answer at the end, without which the answer was cut off.
pub fn put_done(counts: &EnvelopeCounts, out: &mut Vec<u8>) -> Result<(), AllocError>
    ensures { OnOk result (out.new.items ≡ out.old.items ++ line (done_line counts.now)) }
{
    out.extend_from_slice(b"done")?;
    put_count(counts.envelopes, b"envelopes", out)?;
    put_count(counts.planned, b"planned", out)?;
    put_count(counts.refused, b"refused", out)?;
    put_count(counts.findings, b"findings\n", out)
}
