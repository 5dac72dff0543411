//! What the values of settings say.
ghost use Rattle.std.specs.Prelude.{◌≡◌, IfOk};
ghost use Rattle.relay_text.specs.Addresses.{is_atext};
ghost use Rattle.relay_job.specs.Settings.{host_value, delimiter_value, limit_value, seed_value, choice_value};

use relay_text::{Text, is_domain_name, number_within};
use std::alloc::{AllocError, Global};

/// The host name that a value is, folded; `None` where it isn't a domain without literal, of at most 189 octets.
pub(crate) fn read_host(alloc: Global, text: &[u8]) -> Result<Option<Text>, AllocError>
    ensures { IfOk result (λ host. host ≡ host_value text.now) }
{
    if !is_domain_name(text) || text.len() > 189 {
        return Ok(None);
    }
    Ok(Some(Text::folded_copy_of(alloc, text)?))
}

/// Whether a byte is atext (RFC 5321 section 4.1.2).
fn is_atext(byte: u8) -> bool
    ensures { result ≡ is_atext byte }
{
    byte.is_ascii_alphanumeric() || b"!#$%&'*+-/=?^_`{|}~".contains(&byte)
}

/// The delimiter that a value names, if any; `None` where it's neither empty nor one byte of atext.
pub(crate) fn read_delimiter(text: &[u8]) -> Option<Option<u8>>
    ensures { result ≡ delimiter_value text.now }
{
    match text {
        [] => Some(None),
        [byte] if is_atext(*byte) => Some(Some(*byte)),
        _ => None,
    }
}

/// How many recipients a value allows.
pub(crate) fn read_limit(text: &[u8]) -> Option<u32>
    ensures { result ≡ limit_value text.now }
{
    let limit = number_within(1, 65_535, text)?;
    Some(limit as u32)
}

/// The seed that a value gives.
pub(crate) fn read_seed(text: &[u8]) -> Option<u64>
    ensures { result ≡ seed_value text.now }
{
    number_within(0, u64::MAX, text)
}

/// What `yes` or `no` says.
pub(crate) fn read_choice(text: &[u8]) -> Option<bool>
    ensures { result ≡ choice_value text.now }
{
    match text {
        b"yes" => Some(true),
        b"no" => Some(false),
        _ => None,
    }
}
