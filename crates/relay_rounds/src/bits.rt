//! Words of 64 bits as sets of numbers below 64.
ghost use Rattle.std.specs.Prelude.{◌≡◌, ◌≢◌, ℕ, ◌+◌, ◌<◌, ◌≤◌, ◌^◌, ◌++◌, ◌∷◌, true, map, OnOk};
ghost use Rattle.relay_rounds.specs.Bits.{is_set, bits_of};

use relay_chains::Key;
use std::alloc::AllocError;

/// Whether a bit is set.
pub(crate) fn has_bit(word: u64, bit: u64) -> bool
    requires { bit < 64 }
    ensures { result ≡ is_set word bit }
{
    (word >> bit) & 1 == 1
}

/// The word with one more bit.
pub(crate) fn with_bit(word: u64, bit: u64) -> u64
    requires { bit < 64 }
    ensures set { is_set result bit ≡ true }
    ensures others { (i : ℕ) → i ≢ bit → is_set result i ≡ is_set word i }
{
    word | (1 << bit)
}

// The lowest bit of a word, and the word without it.
fn split_lowest(word: u64) -> (u64, u64)
    requires { 0 < word }
    ensures bits { bits_of word ≡ result.0 ∷ bits_of result.1 }
    ensures below { result.0 < 64 }
{
    let bit = u64::from(word.trailing_zeros());
    (bit, word & !(1 << bit))
}

/// Puts the base and each bit that is set, ascending, behind what is there.
pub(crate) fn push_bits(word: u64, base: u64, keys: &mut Vec<Key>) -> Result<(), AllocError>
    requires { base + 64 ≤ 2 ^ 64 }
    ensures { OnOk result (keys.new.items ≡ keys.old.items ++ map (λ bit. base + bit) (bits_of word)) }
{
    let mut left = word;
    while left != 0 {
        let (bit, rest) = split_lowest(left);
        keys.push(base + bit)?;
        left = rest;
    }
    Ok(())
}
