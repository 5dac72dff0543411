//! What stands between a first and a last byte.
ghost use Rattle.std.specs.Prelude.{◌≡◌, ◌∷◌, ◌++◌, [], Some, None, option_map, if◌then◌else◌};
ghost use Rattle.std.specs.Str.{bytes_eq};
ghost use Rattle.relay_text.specs.Addresses.{inside};

/// What stands between these two bytes, `None` where a text doesn't begin with the one and end with the other.
pub(crate) fn inside(text: &[u8], first: u8, last: u8) -> Option<&[u8]>
    ensures { option_map (λ t. t.now) result ≡ (if bytes_eq text.now (first ∷ [] ++ inside text.now ++ last ∷ []) then Some (inside text.now) else None) }
{
    let len = text.len();
    if len < 2 || text[0] != first || text[len - 1] != last {
        return None;
    }
    Some(&text[1..len - 1])
}
