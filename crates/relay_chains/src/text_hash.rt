//! Hashes of texts, under a key.
ghost use Rattle.std.specs.Prelude.{◌≡◌, ◌<◌, ◌^◌, ◌*◌, ◌/◌};
ghost use Rattle.relay_chains.specs.TextHash.{folded, last_word, short_word, text_hash};

/// A key for the hashes of texts: 128 bits, drawn from the system's source of random bytes and told to nobody who writes the texts.
pub type TextKey = u128;

/// A key for hashes that only say which texts have to be compared: who writes many of one hash gets them sorted, and no more.
pub const FIXED_KEY: TextKey = 0x9e37_79b9_7f4a_7c15_0000_0000_0000_0000;

// An odd number whose bits look drawn at random: the golden ratio's first 64 bits.
const MULTIPLIER: u64 = 0x9e37_79b9_7f4a_7c15;

/// The hash of a text under a key.
///
/// Its lower half is what the state begins with, and its upper half what the state is multiplied by when eight bytes were joined to it by
/// xor; the halves of the 128 bits of each product are joined alike. The text's last eight bytes come last, of which some may have come
/// before; a text of fewer bytes is one word. So who doesn't know the key knows no word that takes the state away.
pub fn hash_text(key: TextKey, text: &[u8]) -> u32
    ensures { result ≡ text_hash key text.now }
{
    let multiplier = (key >> 64) as u64 | 1;
    let mut state = ((key & 0xFFFF_FFFF_FFFF_FFFF) as u64).wrapping_add(text.len() as u64);
    let mut rest = text;
    'words: while let Some((word, behind)) = rest.split_first_chunk::<8>() {
        if behind.is_empty() {
            break;
        }
        state = mixed(state ^ u64::from_le_bytes(*word), multiplier);
        rest = behind;
    }
    let last = mixed(state ^ last_word(text), multiplier);
    (mixed(last, MULTIPLIER) >> 32) as u32
}

// Each bit of both has a part in each bit of this.
#[tactic(auto, unfolding(crate::specs::TextHash::folded))]
fn mixed(state: u64, multiplier: u64) -> u64
    ensures { result ≡ folded multiplier state }
{
    let product = state as u128 * multiplier as u128;
    (product & 0xFFFF_FFFF_FFFF_FFFF) as u64 ^ (product >> 64) as u64
}

// The last eight bytes as one number, or all of a text that has fewer.
fn last_word(text: &[u8]) -> u64
    ensures { result ≡ last_word text.now }
{
    match text.last_chunk::<8>() {
        Some(word) => u64::from_le_bytes(*word),
        None => short_word(text),
    }
}

// Up to seven bytes as one number.
fn short_word(bytes: &[u8]) -> u64
    ensures { result ≡ short_word bytes.now }
{
    bytes.iter().fold(
        0u64,
        |word, byte| word.wrapping_mul(256).wrapping_add(*byte as u64),
    )
}
