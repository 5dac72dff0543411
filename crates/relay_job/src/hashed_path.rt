//! Paths beside their hashes.
ghost use Rattle.std.specs.Prelude.{◌≡◌};
ghost use Rattle.relay_chains.specs.TextHash.{fixed_key, text_hash};

use relay_chains::{FIXED_KEY, hash_text};

/// A path among others. It is compared by its hash, and only where the hashes are the same by its bytes: paths of one job mostly begin
/// with the same folders.
#[derive(Clone, Copy, PartialEq, Eq, PartialOrd, Ord)]
pub struct HashedPath<'a> {
    hash: u32,
    path: &'a [u8],
    ghost hash_of_path: { hash ≡ text_hash fixed_key path.now },
}

impl<'a> HashedPath<'a> {
    pub(crate) fn new(path: &'a [u8]) -> HashedPath<'a>
        ensures { result.path.now ≡ path.now }
    {
        HashedPath {
            hash: hash_text(FIXED_KEY, path),
            path,
        }
    }
}
