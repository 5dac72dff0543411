//! Equal texts.
ghost use Rattle.std.specs.Prelude.{◌≡◌, length};
ghost use Rattle.std.specs.Str.{bytes_eq};

/// Whether two texts have the same bytes. Eight of them are compared at once.
pub fn same_bytes(first: &[u8], second: &[u8]) -> bool
    ensures { result ≡ bytes_eq first.now second.now }
{
    if first.len() != second.len() {
        return false;
    }
    let mut left = first;
    let mut right = second;
    while let Some((left_word, left_rest)) = left.split_first_chunk::<8>() {
        let Some((right_word, right_rest)) = right.split_first_chunk::<8>() else {
            return false;
        };
        if !is_same_word(*left_word, *right_word) {
            return false;
        }
        left = left_rest;
        right = right_rest;
    }
    same_few(left, right)
}

/// The same of eight bytes each, which are compared as numbers.
fn is_same_word(first: [u8; 8], second: [u8; 8]) -> bool
    ensures { result ≡ bytes_eq first second }
{
    u64::from_le_bytes(first) == u64::from_le_bytes(second)
}

/// The same, byte by byte.
fn same_few(first: &[u8], second: &[u8]) -> bool
    requires { length first.now ≡ length second.now }
    ensures { result ≡ bytes_eq first.now second.now }
{
    first
        .iter()
        .zip(second)
        .all(|(left, right)| *left == *right)
}
