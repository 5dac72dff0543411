//! Where a file's text is cut in two, for two threads to read.
ghost use Rattle.std.specs.Prelude.{◌≡◌, ◌≤◌, ◌+◌, ◌*◌, ◌++◌, true, length, IfSome};
ghost use Rattle.relay_text.specs.Lines.{raw_lines};
ghost use Rattle.relay_halves.specs.Halves.{feeds_of, EndsWithLine, BeginsLogicalLine};

use bstr::ByteSlice;

/// A half has about so many bytes at least: starting a thread takes as long as reading some kilobytes, a small part of this.
pub const LEAST_HALF: usize = 65_536;

// So many lines at most are looked at for a place. Where more stand between two places, they are mostly the list of one entry. It is long,
// so several threads read it anyway.
const MOST_LINES: usize = 65_536;

// So many bytes at most are counted in a byte: the processor counts sixteen of them at once and more.
const BLOCK: usize = 224;

// So many bytes at the front of a text tell about how many lines it has.
const SAMPLE: usize = 65_536;

// A line is taken to have so many bytes at least, so that what is made ready for lines stays within some times their text.
const SHORTEST: usize = 16;

/// Whether a text has bytes enough for two of so many threads.
pub fn is_long(workers: usize, text: &[u8]) -> bool
    ensures workers { result ≡ true → 2 ≤ workers }
    ensures len { result ≡ true → 2 * LEAST_HALF ≤ length text.now }
{
    workers >= 2 && text.len() / 2 >= LEAST_HALF
}

/// Both parts of a text for so many threads, cut at the first place behind its middle where a line begins that is kept and continues
/// no other (aliases(5)). `None` where one thread is to read it: there is no second one, the text is short, or no such place is near.
pub fn halves(workers: usize, bytes: &[u8]) -> Option<(&[u8], &[u8])>
    ensures workers { IfSome result (λ parts. 2 ≤ workers) }
    ensures bytes { IfSome result (λ parts. bytes.now ≡ parts.0.now ++ parts.1.now) }
    ensures len { IfSome result (λ parts. length parts.0.now + length parts.1.now ≡ length bytes.now) }
    ensures front { IfSome result (λ parts. EndsWithLine parts.0.now) }
    ensures back { IfSome result (λ parts. BeginsLogicalLine parts.1.now) }
{
    if !is_long(workers, bytes) {
        return None;
    }
    let mut place = bytes.len() / 2;
    for _ in 0..MOST_LINES {
        let feed = place + (&bytes[place..]).find_byte(b'\n')?;
        place = feed + 1;
        let (front, back) = bytes.split_at(place);
        if begins_logical_line(back) {
            return Some((front, back));
        }
    }
    None
}

/// Whether a text begins with a line that is kept and continues no other.
fn begins_logical_line(text: &[u8]) -> bool
    ensures { result ≡ true → BeginsLogicalLine text.now }
{
    match text.first() {
        Some(byte) => !matches!(*byte, b' ' | b'\t' | b'#' | b'\r' | b'\n'),
        None => false,
    }
}

/// How many line feeds a block has.
fn feeds_in(block: &[u8]) -> u8
    requires { length block.now ≤ BLOCK }
    ensures { result ≡ feeds_of block.now }
{
    let mut feeds: u8 = 0;
    for byte in block {
        feeds += u8::from(*byte == b'\n');
    }
    feeds
}

/// How many line feeds a text has.
fn feed_count(text: &[u8]) -> usize
    ensures feeds { result ≡ feeds_of text.now }
    ensures most { result ≤ length text.now }
{
    let mut count = 0;
    let mut rest = text;
    while !rest.is_empty() {
        let (block, behind) = rest.split_at(rest.len().min(BLOCK));
        count += usize::from(feeds_in(block));
        rest = behind;
    }
    count
}

/// How many lines a text has that ends with one.
pub fn line_count(text: &[u8]) -> usize
    requires { EndsWithLine text.now }
    ensures lines { result ≡ length (raw_lines text.now) }
    ensures most { result ≤ length text.now }
{
    feed_count(text)
}

/// About how many lines a text has, by those at its front. A guess, on which only hangs what room is made for entries at once.
pub fn about_lines(text: &[u8]) -> usize {
    let front = &text[..text.len().min(SAMPLE)];
    let fronts = text.len() / SAMPLE + 1;
    feed_count(front)
        .saturating_mul(fronts)
        .min(text.len() / SHORTEST)
}
