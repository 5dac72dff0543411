//! Findings as values, in the order of their lines.
ghost use Rattle.std.specs.Prelude.{◌≡◌, List, ℕ, map, IfOk};
ghost use Rattle.std.specs.List.{All};
ghost use Rattle.relay_text.specs.Bytes.{has_text};
ghost use Rattle.relay_text.specs.TextSets.{IsAscendingBy, text_cmp};
ghost use Rattle.relay_wire.specs.Findings.{finding_text_of};
ghost use Rattle.relay_wire.specs.FoundLines.{findings_beside, lines_beside, HasOwnLine};

use crate::finding::Finding;
use crate::found_line::FoundLine;
use relay_text::{Seq, Text};
use std::alloc::{AllocError, Global};

/// What is found, as lines and as values.
#[derive(Drop)]
pub struct Found {
    /// Each once, in the order of their bytes, and each without its end.
    pub lines: Seq<Text>,
    /// Of each line the finding that has it, at the same place. Where several have one line, as paths with spaces may, it is one of them.
    pub findings: Vec<Finding>,
}

/// Findings beside their lines.
fn found_lines(alloc: Global, findings: Vec<Finding>) -> Result<Vec<FoundLine>, AllocError>
    ensures lines { IfOk result (λ found. lines_beside found.items ≡ map finding_text_of findings.items) }
    ensures own { IfOk result (λ found. All HasOwnLine found.items) }
{
    let mut found = Vec::new(alloc);
    for finding in findings {
        found.push(FoundLine::of(alloc, finding)?)?;
    }
    Ok(found)
}

/// The lines without their findings.
fn lines_alone(alloc: Global, found: &[FoundLine]) -> Result<Vec<Text>, AllocError>
    ensures { IfOk result (λ lines. lines.items ≡ lines_beside found.now) }
{
    let mut lines = Vec::with_capacity(alloc, found.len())?;
    for one in found {
        lines.push_reserved(Text::copy_of(alloc, &one.line)?);
    }
    Ok(lines)
}

/// The findings without their lines.
fn findings_alone(alloc: Global, found: Vec<FoundLine>) -> Result<Vec<Finding>, AllocError>
    ensures { IfOk result (λ findings. findings.items ≡ findings_beside found.items) }
{
    found.into_iter().map(|one| one.finding).collect(alloc)
}

/// What stands in lines beside their findings, each by itself.
fn lines_and_findings(alloc: Global, found: Vec<FoundLine>) -> Result<Found, AllocError>
    ensures lines { IfOk result (λ parts. parts.lines ≡ lines_beside found.items) }
    ensures findings { IfOk result (λ parts. parts.findings.items ≡ findings_beside found.items) }
{
    let Ok(lines) = lines_alone(alloc, &found) else {
        drop(found);
        return Err(AllocError);
    };
    match findings_alone(alloc, found) {
        Ok(findings) => Ok(Found {
            lines: Seq::of(lines),
            findings,
        }),
        Err(error) => {
            drop(lines);
            Err(error)
        }
    }
}

impl Found {
    /// What is found where these findings are, of which some may be the same or have the same line.
    pub(crate) fn of(alloc: Global, findings: Vec<Finding>) -> Result<Found, AllocError>
        ensures all { IfOk result (λ found. (q : List ℕ) → has_text found.lines q ≡ has_text (map finding_text_of findings.items) q) }
        ensures ascending { IfOk result (λ found. IsAscendingBy text_cmp found.lines) }
        ensures findings { IfOk result (λ found. map finding_text_of found.findings.items ≡ found.lines) }
    {
        let mut found = found_lines(alloc, findings)?;
        found.sort_unstable();
        found.dedup();
        lines_and_findings(alloc, found)
    }
}
