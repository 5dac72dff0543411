//! Blocks of keys.

/// How many keys, one after another, share a word of bits.
pub(crate) const BLOCK: u64 = 64;

/// Some of 64 keys one after another: bit `i` of the word stands for the key `number * 64 + i`.
#[derive(Clone, Copy)]
pub(crate) struct Block {
    pub(crate) number: u64,
    pub(crate) word: u64,
}
