//! The first bytes of a text as a number, by which most texts are ordered without a comparison of their bytes.
ghost use Rattle.std.specs.Prelude.{◌≡◌, ◌<◌, ℕ, drop, slice_index};
ghost use Rattle.relay_wire.specs.Fronts.{front_number};

/// The first eight bytes of a text as a number, the first byte counting most and with noughts where the text is shorter, and what stands
/// behind them. Of two texts whose numbers differ, the one of the lower number is the lower by its bytes.
#[inline]
pub fn split_front(text: &[u8]) -> (u64, &[u8])
    ensures number { result.0 ≡ front_number 8 text.now }
    ensures rest { result.1.now ≡ drop 8 text.now }
    ensures bytes { (k : ℕ) → slice_index text.now k < 256 }
{
    match text.split_first_chunk::<8>() {
        Some((front, rest)) => (u64::from_be_bytes(*front), rest),
        None => (short_front(text), &[]),
    }
}

/// The same number, byte by byte. Most texts have eight bytes or more.
#[cold]
fn short_front(text: &[u8]) -> u64
    ensures { result ≡ front_number 8 text.now }
{
    let mut number: u64 = 0;
    for place in 0..8 {
        let byte = text.get(place).copied().unwrap_or(0);
        number = number * 256 + u64::from(byte);
    }
    number
}
