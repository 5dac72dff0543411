//! Local parts, and how they are written (RFC 5321 section 4.1.2: Local-part, Dot-string, Quoted-string).
ghost use Rattle.std.specs.Prelude.{◌≡◌, ◌+◌, ◌^◌, ◌<◌, ◌≤◌, ◌==◌, ◌||◌, length, flat_map, count_by, IfSome, IfNone};
ghost use Rattle.relay_text.specs.Addresses.{is_dot_string, quoted_byte, local_text_of};

use crate::class::is_atext;

/// Whether a local part is written as it is.
pub(crate) fn is_dot_string(local: &[u8]) -> bool
    ensures { result ≡ is_dot_string local.now }
{
    let mut fresh = true;
    for byte in local {
        if *byte == b'.' {
            if fresh {
                return false;
            }
            fresh = true;
        } else if is_atext(*byte) {
            fresh = false;
        } else {
            return false;
        }
    }
    !fresh
}

/// Whether a byte is written with a `\` before it between quotes.
pub(crate) fn needs_escape(byte: u8) -> bool
    ensures { result ≡ ((byte == 34) || (byte == 92)) }
{
    byte == b'"' || byte == b'\\'
}

/// How many bytes of a local part are written with a `\` between quotes.
fn escape_count(local: &[u8]) -> usize
    ensures { result ≡ count_by (λ b. (b == 34) || (b == 92)) local.now }
{
    local.iter().filter(|byte| needs_escape(**byte)).count()
}

/// How long a local part is between quotes, with them; `None` where no text is as long as that.
pub(crate) fn quoted_len(local: &[u8]) -> Option<usize>
    ensures some { IfSome result (λ len. len ≡ length (flat_map quoted_byte local.now) + 2) }
    ensures none { IfNone result (2 ^ 64 ≤ length (flat_map quoted_byte local.now) + 2) }
{
    local.len().checked_add(escape_count(local))?.checked_add(2)
}

/// `local_text_len`, where it's known whether the local part is a Dot-string.
pub(crate) fn written_len(local: &[u8], is_plain: bool) -> usize
    requires short { length local.now < 2 ^ 62 }
    requires plain { is_plain ≡ is_dot_string local.now }
    ensures { result ≡ length (local_text_of local.now) }
{
    if is_plain {
        local.len()
    } else {
        quoted_len(local).unwrap()
    }
}

/// How many octets `write_local` writes of a local part: those of a Dot-string as it is; otherwise quotes and escapes count too
/// (RFC 5321 section 4.1.2). This is what the limit of 64 octets is about (RFC 5321 section 4.5.3.1.1).
pub fn local_text_len(local: &[u8]) -> usize
    requires { length local.now < 2 ^ 62 }
    ensures { result ≡ length (local_text_of local.now) }
{
    written_len(local, is_dot_string(local))
}
