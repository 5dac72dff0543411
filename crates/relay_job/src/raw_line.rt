//! Lines of a job.
ghost use Rattle.std.specs.Prelude.{◌+◌, ◌≤◌, ◌==◌, length};
ghost use Rattle.std.specs.List.{position_or_len};

/// A line of a job: its number, from 1, and its bytes with its end.
#[derive(Clone, Copy)]
pub struct RawLine<'a> {
    pub number: usize,
    pub raw: &'a [u8],
    ghost ends_once: { length raw.now ≤ position_or_len (λ b. b == 10) raw.now + 1 },
}

impl<'a> RawLine<'a> {
    ghost use Rattle.std.specs.Prelude.{◌≡◌, codes};
    ghost use Rattle.std.specs.List.{list_all};
    ghost use Rattle.relay_text.specs.Bytes.{is_white, begins_with};
    ghost use Rattle.relay_text.specs.Lines.{line_text};
    ghost use Rattle.relay_job.specs.JobText.{is_heading, text_of, content_of};
    ghost use Rattle.relay_job.specs.Places.{line_of};

    /// The line without its end.
    pub fn text(&self) -> &'a [u8]
        ensures { result.now ≡ text_of (line_of self.now) }
    {
        without_end(self.raw)
    }

    /// Whether the line is a heading: its first byte is `%` and its second isn't. Few lines begin with `%`, and the end of no other is
    /// looked for.
    #[inline]
    pub fn is_heading(&self) -> bool
        ensures { result ≡ is_heading (line_of self.now) }
    {
        let [b'%', ..] = self.raw else {
            return false;
        };
        let text = self.text();
        text.starts_with(b"%") && !text.starts_with(b"%%")
    }

    /// Whether the line is of white space alone.
    pub fn is_blank(&self) -> bool
        ensures { result ≡ list_all is_white (text_of (line_of self.now)) }
    {
        self.text()
            .iter()
            .all(|byte| *byte == b' ' || *byte == b'\t')
    }

    /// The line as it stands for itself, without its end.
    #[inline]
    pub(crate) fn content_text(&self) -> &'a [u8]
        ensures { result.now ≡ line_text (content_of self.now.raw.now) }
    {
        without_end(self.content())
    }

    /// The line's bytes as they stand for themselves: without the first `%` of a leading `%%`.
    pub(crate) fn content(&self) -> &'a [u8]
        ensures bytes { result.now ≡ content_of self.now.raw.now }
        ensures ends_once { length result.now ≤ position_or_len (λ b. b == 10) result.now + 1 }
    {
        if is_doubled(self.raw) {
            &self.raw[1..]
        } else {
            self.raw
        }
    }
}

ghost use Rattle.std.specs.Prelude.{◌≡◌, ◌-◌, codes, take, slice_index, if◌then◌else◌};
ghost use Rattle.relay_text.specs.Bytes.{begins_with};
ghost use Rattle.relay_text.specs.Lines.{line_text};

/// Whether a text begins with `%%`, and so its first line stands for another.
pub(crate) fn is_doubled(text: &[u8]) -> bool
    ensures { result ≡ begins_with (codes "%%") text.now }
{
    matches!(text, [b'%', b'%', ..])
}

/// A line without its end, where an LF stands at the line's end or nowhere: no more than the last two bytes are looked at.
fn without_end(line: &[u8]) -> &[u8]
    requires { length line.now ≤ position_or_len (λ b. b == 10) line.now + 1 }
    ensures { result.now ≡ line_text line.now }
{
    without_byte(b'\r', without_byte(b'\n', line))
}

/// A text without its last byte, where it is this one.
fn without_byte(byte: u8, text: &[u8]) -> &[u8]
    ensures { result.now ≡ (if slice_index text.now (length text.now - 1) == byte then take (length text.now - 1) text.now else text.now) }
{
    let len = text.len();
    if len == 0 || text[len - 1] != byte {
        return text;
    }
    &text[..len - 1]
}
