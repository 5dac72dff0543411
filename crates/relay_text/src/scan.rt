//! Bytes and physical lines, read in place.
ghost use Rattle.std.specs.Prelude.{◌≡◌, ◌<◌, ◌++◌, ◌∷◌, [], length, IfSome, IfNone};
ghost use Rattle.relay_text.specs.Bytes.{is_white, folded, trimmed, trimmed_start, trimmed_end, begins_with_word};
ghost use Rattle.relay_text.specs.Lines.{raw_lines, physical_lines, line_text, without_cr, is_ignored};

use bstr::ByteSlice;

/// Puts ASCII capitals into lower case, in place. Other bytes stay, as do those past 127.
pub fn fold(bytes: &mut [u8])
    ensures { bytes.new ≡ folded bytes.old }
{
    bytes.make_ascii_lowercase();
}

/// Whether a byte is white space: space or tab.
pub(crate) fn is_white(byte: u8) -> bool
    ensures { result ≡ is_white byte }
{
    byte == b' ' || byte == b'\t'
}

/// A text without the white space (space and tab) at its start.
pub fn trimmed_start(text: &[u8]) -> &[u8]
    ensures { result.now ≡ trimmed_start text.now }
{
    let mut start = 0;
    while start < text.len() && is_white(text[start]) {
        start += 1;
    }
    &text[start..]
}

/// A text without the white space (space and tab) at its end.
pub fn trimmed_end(text: &[u8]) -> &[u8]
    ensures { result.now ≡ trimmed_end text.now }
{
    let mut end = text.len();
    while end > 0 && is_white(text[end - 1]) {
        end -= 1;
    }
    &text[..end]
}

/// A text without the white space (space and tab) at its ends.
pub fn trimmed(text: &[u8]) -> &[u8]
    ensures { result.now ≡ trimmed text.now }
{
    trimmed_end(trimmed_start(text))
}

/// Whether a text begins with a word, which is given in lower case; the text's ASCII letters may be in any case. A word with a
/// capital begins no text.
pub fn begins_with_word(word: &[u8], text: &[u8]) -> bool
    ensures { result ≡ begins_with_word word.now text.now }
{
    word.len() <= text.len()
        && text
            .iter()
            .zip(word)
            .all(|(byte, wanted)| byte.to_ascii_lowercase() == *wanted)
}

/// The first line of a text, with the LF that ends it, and the rest; `None` where the text is empty. The last line may lack its LF.
///
/// Each call reads the first line alone, so that a loop over all lines is linear in the text.
pub fn split_line(bytes: &[u8]) -> Option<(&[u8], &[u8])>
    ensures none { IfNone result (bytes.now ≡ []) }
    ensures lines { IfSome result (λ split. raw_lines bytes.now ≡ split.0.now ∷ raw_lines split.1.now) }
    ensures bytes { IfSome result (λ split. bytes.now ≡ split.0.now ++ split.1.now) }
    ensures shorter { IfSome result (λ split. length split.1.now < length bytes.now) }
{
    if bytes.is_empty() {
        return None;
    }
    match bytes.find_byte(b'\n') {
        Some(end) => Some(bytes.split_at(end + 1)),
        None => Some(bytes.split_at(bytes.len())),
    }
}

/// A line without its end: the LF, and one CR before it or at the end of the text. Another CR stays.
pub fn line_text(raw: &[u8]) -> &[u8]
    ensures { result.now ≡ line_text raw.now }
{
    let line = match raw.find_byte(b'\n') {
        Some(end) => &raw[..end],
        None => raw,
    };
    without_cr(line)
}

/// The text of the first line of a text, without its end, and the rest; `None` where the text is empty. Each byte is read once.
pub(crate) fn cut_line(bytes: &[u8]) -> Option<(&[u8], &[u8])>
    ensures none { IfNone result (bytes.now ≡ []) }
    ensures lines { IfSome result (λ cut. physical_lines bytes.now ≡ cut.0.now ∷ physical_lines cut.1.now) }
    ensures shorter { IfSome result (λ cut. length cut.1.now < length bytes.now) }
{
    if bytes.is_empty() {
        return None;
    }
    match bytes.find_byte(b'\n') {
        Some(end) => Some((without_cr(&bytes[..end]), &bytes[end + 1..])),
        None => Some((without_cr(bytes), &bytes[bytes.len()..])),
    }
}

/// A line without one CR at its end.
fn without_cr(line: &[u8]) -> &[u8]
    ensures { result.now ≡ without_cr line.now }
{
    let len = line.len();
    if len == 0 || line[len - 1] != b'\r' {
        return line;
    }
    &line[..len - 1]
}

/// Whether a line is ignored: empty, of white space alone, or with `#` as its first byte that isn't white (aliases(5)).
pub fn is_ignored(text: &[u8]) -> bool
    ensures { result ≡ is_ignored text.now }
{
    match trimmed_start(text).first() {
        Some(byte) => *byte == b'#',
        None => true,
    }
}
