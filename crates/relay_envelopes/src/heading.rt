//! The headings that begin and end envelopes.
ghost use Rattle.std.specs.Prelude.{◌≡◌, option_map};
ghost use Rattle.std.specs.List.{list_all};
ghost use Rattle.relay_envelopes.specs.Headings.{is_envelope_word, is_id_byte, is_id, id_of, is_end};

use relay_text::{same_bytes, trimmed, trimmed_end};

/// Whether a heading has the word `%envelope`, alone or with white space behind it.
pub(crate) fn is_envelope_word(text: &[u8]) -> bool
    ensures { result ≡ is_envelope_word text.now }
{
    match text.strip_prefix(b"%envelope") {
        Some([]) | Some([b' ' | b'\t', ..]) => true,
        _ => false,
    }
}

// Whether each byte can be seen: it is no white space and no control.
fn all_id_bytes(text: &[u8]) -> bool
    ensures { result ≡ list_all is_id_byte text.now }
{
    text.iter().all(|byte| *byte >= 33 && *byte <= 126)
}

// Whether a text can be an envelope's ID.
#[tactic(auto, using(crate::proofs::HeadingFacts::is_id_some))]
fn is_id(text: &[u8]) -> bool
    ensures { result ≡ is_id text.now }
{
    !text.is_empty() && all_id_bytes(text)
}

/// The ID of the envelope whose heading a line without its end is: what stands behind `%envelope` and white space, where it is of bytes 33
/// to 126 alone; white space behind it is dropped.
pub fn envelope_id(text: &[u8]) -> Option<&[u8]>
    ensures { option_map (λ id. id.now) result ≡ id_of text.now }
{
    if !is_envelope_word(text) {
        return None;
    }
    let id = trimmed(&text[9..]);
    if is_id(id) { Some(id) } else { None }
}

/// Whether a heading ends an envelope: it is `%end`, and white space may stand behind it.
pub(crate) fn is_end(text: &[u8]) -> bool
    ensures { result ≡ is_end text.now }
{
    same_bytes(trimmed_end(text), b"%end")
}
