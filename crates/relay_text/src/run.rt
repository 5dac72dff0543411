//! Runs of bytes joined by dots.
ghost use Rattle.std.specs.Prelude.{◌≡◌};
ghost use Rattle.relay_text.specs.Runs.{part_byte, run_len, run_in, is_joined};

use crate::class::{is_atext, is_label_byte};

/// The parts of an address that has no quotes.
#[derive(Clone, Copy)]
pub(crate) enum Part {
    Local,
    Domain,
}

/// The bytes at the front of a text that may stand in a part, dots among them.
#[derive(Clone, Copy)]
pub(crate) struct Run {
    pub(crate) len: usize,
    /// Whether the dots join runs that aren't empty, as in a Dot-string and in a domain name.
    pub(crate) is_joined: bool,
}

impl Part {
    /// Whether a byte may stand in this part beside the dots.
    fn has(self, byte: u8) -> bool
        ensures { result ≡ part_byte self byte }
    {
        match self {
            Part::Local => is_atext(byte),
            Part::Domain => is_label_byte(byte),
        }
    }
}

/// The longest run of a part at the front of a text, in one pass.
pub(crate) fn run_at(part: Part, text: &[u8]) -> Run
    ensures len { result.len ≡ run_len part text.now }
    ensures joined { result.is_joined ≡ is_joined part (run_in part text.now) }
{
    let mut is_sound = true;
    // Where the bytes behind the last dot begin.
    let mut start = 0;
    for (len, byte) in text.iter().enumerate() {
        if part.has(*byte) {
            continue;
        }
        is_sound = is_sound && start < len;
        if *byte != b'.' {
            return Run {
                len,
                is_joined: is_sound,
            };
        }
        start = len + 1;
    }
    Run {
        len: text.len(),
        is_joined: is_sound && start < text.len(),
    }
}
