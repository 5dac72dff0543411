//! Where a byte stands in a text.
ghost use Rattle.std.specs.Prelude.{◌≡◌, ◌≤◌, ◌==◌, length, position};
ghost use Rattle.std.specs.List.{position_or_len};

use bstr::ByteSlice;

/// The place of the first such byte.
pub(crate) fn place_of(byte: u8, text: &[u8]) -> Option<usize>
    ensures { result ≡ position (λ b. b == byte) text.now }
{
    text.find_byte(byte)
}

/// The same, or the length where there is none.
pub(crate) fn place_or_len(byte: u8, text: &[u8]) -> usize
    ensures place { result ≡ position_or_len (λ b. b == byte) text.now }
    ensures within { result ≤ length text.now }
{
    place_of(byte, text).unwrap_or(text.len())
}
