//! Texts beside their hashes.
ghost use Rattle.std.specs.Prelude.{◌≡◌};
ghost use Rattle.relay_text.specs.HashedTexts.{text_hash};

use crate::equality::same_bytes;

/// The hash of no bytes.
const OFFSET: u64 = 0xcbf2_9ce4_8422_2325;

const PRIME: u64 = 0x0000_0100_0000_01b3;

/// A text among others. It is compared by its hash, which stands in the value itself, and only where the hashes are the same by its
/// bytes and then by its place.
#[derive(Clone, Copy, PartialEq, Eq, PartialOrd, Ord)]
pub(crate) struct HashedText<'a> {
    hash: u64,
    pub(crate) bytes: &'a [u8],
    pub(crate) place: usize,
    ghost hash_of_bytes: { hash ≡ text_hash bytes.now },
}

/// The hash of a text (FNV-1a). Who chooses texts can choose many of one hash: their order then costs more, since their bytes are
/// compared.
fn hash_of(text: &[u8]) -> u64
    ensures { result ≡ text_hash text.now }
{
    let mut hash = OFFSET;
    for byte in text {
        hash = (hash ^ u64::from(*byte)).wrapping_mul(PRIME);
    }
    hash
}

impl<'a> HashedText<'a> {
    ghost use Rattle.std.specs.Prelude.{◌↔◌, IsTrue};

    pub(crate) fn new(bytes: &'a [u8], place: usize) -> HashedText<'a>
        ensures bytes { result.bytes.now ≡ bytes.now }
        ensures place { result.place ≡ place }
    {
        HashedText {
            hash: hash_of(bytes),
            bytes,
            place,
        }
    }

    /// Whether this text and another have the same bytes.
    pub(crate) fn is_same_as(&self, other: &HashedText<'a>) -> bool
        ensures { IsTrue result ↔ (self.now.bytes.now ≡ other.now.bytes.now) }
    {
        self.hash == other.hash && same_bytes(self.bytes, other.bytes)
    }
}
