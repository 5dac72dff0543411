//! The bytes before a text's first white space, read in one pass.
ghost use Rattle.std.specs.Prelude.{◌≡◌, ◌≤◌, false, length};
ghost use Rattle.std.specs.List.{position_or_len};
ghost use Rattle.relay_text.specs.Bytes.{is_white, folded};
ghost use Rattle.relay_text.specs.Addresses.{is_domain_name};
ghost use Rattle.relay_routes.specs.FieldReadings.{is_small};
ghost use Rattle.relay_routes.specs.Fields.{front_field};

/// How many bytes stand before a text's first white space, and what they are.
#[derive(Clone, Copy)]
pub(crate) struct FieldReading {
    pub(crate) len: usize,
    /// Whether they are labels joined by single dots, as a domain name is.
    pub(crate) is_joined: bool,
    /// Whether an ASCII capital is among them.
    pub(crate) has_capital: bool,
}

/// For each byte a digit: 1 for the small letters, digits, `-` and `_`, of which the labels of most domain names are made.
static CLASS: [u8; 256] = *b"\
    00000000000000000000000000000000\
    00000000000001001111111111000000\
    00000000000000000000000000000001\
    01111111111111111111111111100000\
    00000000000000000000000000000000\
    00000000000000000000000000000000\
    00000000000000000000000000000000\
    00000000000000000000000000000000";

impl FieldReading {
    /// The bytes before the first white space of a text.
    pub(crate) fn at_front(text: &[u8]) -> FieldReading
        ensures len { result.len ≡ position_or_len is_white text.now }
        ensures within { result.len ≤ length text.now }
        ensures joined { result.is_joined ≡ is_domain_name (front_field text.now) }
        ensures small { result.has_capital ≡ false → folded (front_field text.now) ≡ front_field text.now }
    {
        let mut is_joined = true;
        let mut has_capital = false;
        // Where the bytes behind the last one that stands in no label begin.
        let mut start = 0;
        for (len, byte) in text.iter().enumerate() {
            if is_small(*byte) {
                continue;
            }
            if *byte == b' ' || *byte == b'\t' {
                return FieldReading {
                    len,
                    is_joined: is_joined && start < len,
                    has_capital,
                };
            }
            if byte.is_ascii_uppercase() {
                has_capital = true;
                continue;
            }
            is_joined = is_joined && *byte == b'.' && start < len;
            start = len + 1;
        }
        FieldReading {
            len: text.len(),
            is_joined: is_joined && start < text.len(),
            has_capital,
        }
    }
}

/// Whether a byte may stand in a label and is no capital.
fn is_small(byte: u8) -> bool
    ensures { result ≡ is_small byte }
{
    CLASS[usize::from(byte)] & 1 != 0
}
