//! The LFs of a text, counted.
ghost use Rattle.std.specs.Prelude.{◌≡◌, ◌<◌, ◌==◌, length, count_by};

use std::simd::prelude::*;

/// How many LFs a text has. Sixty-four of its bytes are looked at at once.
pub(crate) fn line_feeds(bytes: &[u8]) -> usize
    ensures { result ≡ count_by (λ b. b == 10) bytes.now }
{
    let mut count = 0;
    let mut rest = bytes;
    while let Some((group, more)) = rest.split_first_chunk::<64>() {
        count += group_feeds(*group);
        rest = more;
    }
    count + short_feeds(rest)
}

/// The same of sixty-four bytes.
fn group_feeds(group: [u8; 64]) -> usize
    ensures { result ≡ count_by (λ b. b == 10) group }
{
    let ends = u8x64::from_array(group)
        .simd_eq(u8x64::splat(b'\n'))
        .to_bitmask();
    ends.count_ones() as usize
}

/// The same, byte by byte.
fn short_feeds(bytes: &[u8]) -> usize
    ensures { result ≡ count_by (λ b. b == 10) bytes.now }
{
    bytes.iter().filter(|byte| **byte == b'\n').count()
}
