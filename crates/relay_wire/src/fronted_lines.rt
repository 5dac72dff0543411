//! Lines beside numbers, of the bytes in which they stand one behind the other.
ghost use Rattle.std.specs.Prelude.{◌≡◌, IfOk};
ghost use Rattle.std.specs.List.{All};
ghost use Rattle.relay_wire.specs.FindingLines.{AreLines, lines_cut};
ghost use Rattle.relay_wire.specs.FrontedLines.{IsFronted, lines_in};
ghost use Rattle.relay_wire.specs.SharedFronts.{AllBegin};

use crate::fronted_line::FrontedLine;
use std::alloc::{AllocError, Global};

/// The lines that these bytes are, by how many bytes each of them has, beside the numbers of what stands behind a front that they share.
pub(crate) fn fronted_lines<'t>(
    alloc: Global,
    front: &[u8],
    bytes: &'t [u8],
    lengths: &[usize],
) -> Result<Vec<FrontedLine<'t>>, AllocError>
    requires whole { AreLines lengths.now bytes.now }
    requires begin { AllBegin front.now (lines_cut lengths.now bytes.now) }
    ensures lines { IfOk result (λ lines. lines_in lines.items ≡ lines_cut lengths.now bytes.now) }
    ensures fronts { IfOk result (λ lines. All (IsFronted front.now) lines.items) }
{
    let mut lines = Vec::with_capacity(alloc, lengths.len())?;
    let mut rest = bytes;
    for length in lengths {
        let (line, behind) = rest.split_at(*length);
        lines.push_reserved(FrontedLine::of(line, front));
        rest = behind;
    }
    Ok(lines)
}
