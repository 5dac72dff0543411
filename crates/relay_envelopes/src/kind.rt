//! What a line is where envelopes come one after another.
ghost use Rattle.std.specs.Prelude.{◌≡◌};
ghost use Rattle.relay_job.specs.Places.{line_of};
ghost use Rattle.relay_envelopes.specs.Headings.{is_tables};
ghost use Rattle.relay_envelopes.specs.Kinds.{kind_of};

use crate::heading::{is_end, is_envelope_word};
use relay_job::RawLine;
use relay_text::{same_bytes, trimmed_end};

/// What a line is, whatever stands before it.
#[derive(Clone, Copy, Debug, PartialEq, Eq)]
pub enum LineKind {
    /// `%tables`, which asks for the tables to be read anew.
    Tables,
    /// `%envelope`, with an ID or without.
    Envelope,
    /// `%end`.
    End,
    /// White space alone.
    Blank,
    /// Any other line, and one with too many bytes.
    Other,
}

/// Whether a heading is `%tables`, and white space may stand behind it.
fn is_tables(text: &[u8]) -> bool
    ensures { result ≡ is_tables text.now }
{
    same_bytes(trimmed_end(text), b"%tables")
}

/// What a line is, of which no more than `max` bytes are read as a heading or as white space.
pub fn line_kind(line: &RawLine<'_>, max: usize) -> LineKind
    ensures { result ≡ kind_of max (line_of line.now) }
{
    if line.raw.len() > max {
        return LineKind::Other;
    }
    let text = line.text();
    if is_tables(text) {
        LineKind::Tables
    } else if is_envelope_word(text) {
        LineKind::Envelope
    } else if is_end(text) {
        LineKind::End
    } else if line.is_blank() {
        LineKind::Blank
    } else {
        LineKind::Other
    }
}
