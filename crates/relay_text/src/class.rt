//! Which bytes may stand in which part of an address, in one table.
ghost use Rattle.std.specs.Prelude.{◌≡◌, ◌==◌, ◌||◌};
ghost use Rattle.std.specs.Char.{is_ascii_alphanumeric};
ghost use Rattle.relay_text.specs.Addresses.{is_atext};

const ATEXT: u8 = 1;

const LABEL: u8 = 2;

/// For each byte a digit, whose low two bits are the flags above.
static CLASS: [u8; 256] = *b"\
    00000000000000000000000000000000\
    01011111001103013333333333000101\
    03333333333333333333333333300013\
    13333333333333333333333333311110\
    00000000000000000000000000000000\
    00000000000000000000000000000000\
    00000000000000000000000000000000\
    00000000000000000000000000000000";

/// Whether a byte may stand in a Dot-string beside the dots (RFC 5321 section 4.1.2, Dot-string).
pub(crate) fn is_atext(byte: u8) -> bool
    ensures { result ≡ is_atext byte }
{
    CLASS[usize::from(byte)] & ATEXT != 0
}

/// Whether a byte may stand in a label of a domain name.
pub(crate) fn is_label_byte(byte: u8) -> bool
    ensures { result ≡ (is_ascii_alphanumeric byte || (byte == 45) || (byte == 95)) }
{
    CLASS[usize::from(byte)] & LABEL != 0
}
