//! The host name of a greeting.
ghost use Rattle.std.specs.Prelude.{◌≡◌};
ghost use Rattle.std.specs.Str.{bytes_eq};
ghost use Rattle.relay_text.specs.Bytes.{folded};
ghost use Rattle.relay_wire.specs.Script.{is_hostname};

use relay_text::is_domain;

/// The most octets of a domain (RFC 5321 section 4.5.3.1.2).
const MAX_DOMAIN: usize = 255;

/// Whether a text may stand as the host name of a greeting: a domain or an address literal in brackets, in lower case, of at most
/// 255 octets (RFC 5321 sections 4.1.1.1 and 4.5.3.1.2). It is what `script` asks of its host name.
pub fn is_hostname(text: &[u8]) -> bool
    ensures { result ≡ is_hostname text.now }
{
    is_domain(text) && is_folded(text) && text.len() <= MAX_DOMAIN
}

// Whether a text has no ASCII capital.
fn is_folded(text: &[u8]) -> bool
    ensures { result ≡ bytes_eq (folded text.now) text.now }
{
    text.iter().all(|byte| byte.to_ascii_lowercase() == *byte)
}
