//! The lines of a transport table.
use relay_text::Text;

/// A pattern in lower case and its one spelling, and its result as it is written (transport(5), "TABLE FORMAT").
#[derive(Drop)]
pub struct TransportLine {
    pub pattern: Text,
    pub result: Text,
}

ghost use Rattle.std.specs.Prelude.{◌≡◌, ◌&&◌, not, drop, Some, None, option_map, IfOk, if◌then◌else◌, codes};
ghost use Rattle.std.specs.List.{list_all};
ghost use Rattle.relay_text.specs.Bytes.{is_white, begins_with};
ghost use Rattle.relay_routes.specs.Transports.{line_of, is_result, is_result_byte};

use crate::field::Field;
use crate::pattern::pattern_of;
use relay_text::trimmed;
use std::alloc::{AllocError, Global};

/// The line that a logical line's text is: a pattern without white space, and a result. `None` where it is no such line.
pub(crate) fn line_of(alloc: Global, line: &[u8]) -> Result<Option<TransportLine>, AllocError>
    ensures { IfOk result (λ read. read ≡ line_of line.now) }
{
    let field = Field::at_front(line);
    let text = trimmed(&line[field.text().len()..]);
    if !is_result(text) {
        return Ok(None);
    }
    match pattern_of(alloc, &field)? {
        Some(pattern) => {
            let Ok(result) = Text::copy_of(alloc, text) else {
                drop(pattern);
                return Err(AllocError);
            };
            Ok(Some(TransportLine { pattern, result }))
        }
        None => Ok(None),
    }
}

/// What follows `error:` in a result.
pub(crate) fn refusal(text: &[u8]) -> Option<&[u8]>
    ensures { option_map (λ rest. rest.now) result ≡ (if begins_with (codes "error:") text.now then Some (drop 6 text.now) else None) }
{
    text.strip_prefix(b"error:")
}

/// Whether a text may be a result: bytes that print, and tabs; white space only where it begins with `error:`.
fn is_result(text: &[u8]) -> bool
    ensures { result ≡ is_result text.now }
{
    !text.is_empty() && (all_visible(text) || (refusal(text).is_some() && all_result_bytes(text)))
}

/// Whether every byte prints and is no white space, as in nearly every result.
fn all_visible(text: &[u8]) -> bool
    ensures { result ≡ list_all (λ b. is_result_byte b && not (is_white b)) text.now }
{
    for byte in text {
        if *byte <= b' ' || *byte > 126 {
            return false;
        }
    }
    true
}

/// Whether every byte prints, or is white space.
fn all_result_bytes(text: &[u8]) -> bool
    ensures { result ≡ list_all is_result_byte text.now }
{
    for byte in text {
        if *byte != b'\t' && (*byte < 32 || *byte > 126) {
            return false;
        }
    }
    true
}
