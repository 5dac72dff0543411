//! Lines that begin with `%`.
ghost use Rattle.std.specs.Prelude.{◌≡◌, ◌+◌, ◌≤◌, ◌<◌, true, false, length, take, drop};
ghost use Rattle.relay_job.specs.Envelopes.{EndsWithLine};
ghost use Rattle.relay_job.specs.PercentLines.{begins_line, percent_place};

use bstr::ByteSlice;

/// The place of the first line that begins with `%`, or the length where there is none. Few texts have a `%` at all: it is looked for,
/// and not the end of each line. Of a line with a `%` inside it the end is, so that many of them cost no more than one.
pub(crate) fn percent_line_place(bytes: &[u8]) -> usize
    ensures len { result ≡ percent_place true bytes.now }
    ensures begins { result < length bytes.now → EndsWithLine (take result bytes.now) }
    ensures within { result ≤ length bytes.now }
{
    let mut rest = bytes;
    while let Some(place) = rest.find_byte(b'%') {
        if begins_line(rest, place) {
            return bytes.len() - rest.len() + place;
        }
        rest = rest.split_at(next_line_place(rest, place)).1;
    }
    bytes.len()
}

/// The place of the line behind the one that a byte stands in, or the length where there is none.
pub(crate) fn next_line_place(bytes: &[u8], place: usize) -> usize
    requires { place < length bytes.now }
    ensures passed { place + percent_place false (drop place bytes.now) ≡ result + percent_place true (drop result bytes.now) }
    ensures begins { result < length bytes.now → EndsWithLine (take result bytes.now) }
    ensures further { place < result }
    ensures within { result ≤ length bytes.now }
{
    match (&bytes[place..]).find_byte(b'\n') {
        Some(len) => place + len + 1,
        None => bytes.len(),
    }
}

/// Whether a byte stands at a line's start.
fn begins_line(bytes: &[u8], place: usize) -> bool
    requires { place < length bytes.now }
    ensures { result ≡ begins_line bytes.now place }
{
    place == 0 || bytes[place - 1] == b'\n'
}
