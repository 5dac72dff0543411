//! Bytes that stand outside quotes.
ghost use Rattle.std.specs.Prelude.{◌≡◌, ◌<◌, ◌%◌, ◌==◌, None, length, IfSome, slice_get, Some};
ghost use Rattle.std.specs.List.{last_or};
ghost use Rattle.relay_text.specs.Quotes.{places_outside, quote_count};
ghost use Rattle.relay_aliasfile.specs.QuoteStates.{at_start, past};

/// Where a reader of a text stands, as far as quoted strings go (RFC 5321 section 4.1.2, Quoted-string).
#[derive(Clone, Copy)]
struct QuoteState {
    /// The byte before is a `\` that isn't escaped itself.
    escaped: bool,
    /// An even number of unescaped `"` stands before.
    outside: bool,
}

impl QuoteState {
    /// The start of a text.
    fn at_start() -> QuoteState
        ensures { result ≡ at_start }
    {
        QuoteState {
            escaped: false,
            outside: true,
        }
    }

    /// Past one more byte.
    fn past(self, byte: u8) -> QuoteState
        ensures { result ≡ past self byte }
    {
        QuoteState {
            escaped: !self.escaped && byte == b'\\',
            outside: self.outside != (byte == b'"' && !self.escaped),
        }
    }
}

/// The place of the first such byte that stands outside quotes, in one pass.
pub(crate) fn first_outside(wanted: u8, text: &[u8]) -> Option<usize>
    ensures place { result ≡ slice_get (places_outside wanted text.now) 0 }
    ensures within { IfSome result (λ place. place < length text.now) }
{
    let mut state = QuoteState::at_start();
    for (place, byte) in text.iter().enumerate() {
        if *byte == wanted && state.outside {
            return Some(place);
        }
        state = state.past(*byte);
    }
    None
}

/// The place of the last such byte that stands outside quotes, in one pass.
pub(crate) fn last_outside(wanted: u8, text: &[u8]) -> Option<usize>
    ensures place { result ≡ last_or None (places_outside wanted text.now) }
    ensures byte { IfSome result (λ place. slice_get text.now place ≡ Some wanted) }
{
    let mut state = QuoteState::at_start();
    let mut last = None;
    for (place, byte) in text.iter().enumerate() {
        if *byte == wanted && state.outside {
            last = Some(place);
        }
        state = state.past(*byte);
    }
    last
}

/// Whether an even number of unescaped `"` stands in a text, in one pass.
pub(crate) fn closes_quotes(text: &[u8]) -> bool
    ensures { result ≡ (quote_count text.now % 2 == 0) }
{
    let mut state = QuoteState::at_start();
    for byte in text {
        state = state.past(*byte);
    }
    state.outside
}
