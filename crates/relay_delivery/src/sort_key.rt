//! What senders, routes and recipients are sorted by.
ghost use Rattle.std.specs.Prelude.{◌≡◌, ◌<◌, ℕ, drop, slice_index};
ghost use Rattle.relay_wire.specs.Fronts.{front_number};

use relay_wire::split_front;

/// A group and a text, whose bytes order what is in one group, beside the number of what they stand for.
#[derive(Clone, Copy, Drop)]
#[derive_where(PartialEq, Eq, PartialOrd, Ord)]
pub struct SortKey<'t> {
    pub group: u32,
    #[derive_where(skip)]
    pub number: u32,
    /// The numbers of the text's first and second eight bytes. Where either differs, a comparison reads no memory but the two values.
    first: u64,
    second: u64,
    pub text: &'t [u8],
    ghost first_of_text: { first ≡ front_number 8 text.now },
    ghost second_of_text: { second ≡ front_number 8 (drop 8 text.now) },
    ghost bytes: { (k : ℕ) → slice_index text.now k < 256 },
}

impl<'t> SortKey<'t> {
    pub(crate) fn new(group: u32, text: &'t [u8], number: u32) -> SortKey<'t>
        ensures group { result.group ≡ group }
        ensures text { result.text.now ≡ text.now }
        ensures number { result.number ≡ number }
    {
        let (first, rest) = split_front(text);
        let (second, _) = split_front(rest);
        SortKey {
            group,
            number,
            first,
            second,
            text,
        }
    }
}
