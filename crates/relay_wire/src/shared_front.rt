//! What all lines begin with.
ghost use Rattle.std.specs.Prelude.{◌≡◌};
ghost use Rattle.std.specs.Thread.{IsSync};
ghost use Rattle.relay_wire.specs.FindingLines.{AreLines, lines_cut};
ghost use Rattle.relay_wire.specs.SharedFronts.{common_front, shared_front, AllBegin};

use std::thread::{Threads, join};

/// The longest front of a text that another one begins with too.
fn common_front<'t>(text: &'t [u8], other: &[u8]) -> &'t [u8]
    ensures { result.now ≡ common_front text.now other.now }
{
    // Most often it's the whole text, and then no byte is looked at alone.
    if other.starts_with(text) {
        return text;
    }
    let mut len = 0;
    while len < text.len() && len < other.len() && text[len] == other[len] {
        len += 1;
    }
    &text[..len]
}

/// What all the lines begin with that these bytes are, by how many bytes each of them has: the longest such front.
pub(crate) fn shared_front<'t>(bytes: &'t [u8], lengths: &[usize]) -> &'t [u8]
    requires { AreLines lengths.now bytes.now }
    ensures { result.now ≡ shared_front bytes.now (lines_cut lengths.now bytes.now) }
{
    // The bytes begin with the first line.
    let mut front = bytes;
    let mut rest = bytes;
    for length in lengths {
        let (line, behind) = rest.split_at(*length);
        front = common_front(front, line);
        rest = behind;
    }
    front
}

/// What all the lines begin with, though maybe not the longest such front, by so many threads, this one among them.
#[cycle(fronts)]
pub(crate) fn front_by<'t, R: Threads + Sync>(
    rt: &R,
    threads: usize,
    bytes: &'t [u8],
    lengths: &[usize],
) -> &'t [u8]
    requires { AreLines lengths.now bytes.now }
    ensures { AllBegin result.now (lines_cut lengths.now bytes.now) }
{
    if threads < 2 {
        return shared_front(bytes, lengths);
    }
    let others = threads - 1;
    let (lengths, last_lengths) = lengths.split_at(lengths.len() - lengths.len() / threads);
    let (bytes, last_bytes) = bytes.split_at(lengths.iter().sum());
    let (there, here) = join(
        rt,
        || -> &[u8]
            requires { AreLines last_lengths.now last_bytes.now }
            ensures { AllBegin result.now (lines_cut last_lengths.entry.now last_bytes.entry.now) }
        { shared_front(last_bytes, last_lengths) },
        || -> &[u8]
            requires { IsSync R.row × AreLines lengths.now bytes.now }
            ensures { AllBegin result.now (lines_cut lengths.entry.now bytes.entry.now) }
        { front_by(rt, others, bytes, lengths) },
    );
    common_front(here, there)
}
