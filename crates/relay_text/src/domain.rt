//! Domains.
ghost use Rattle.std.specs.Prelude.{◌≡◌, ◌==◌, ◌&&◌, not, codes};
ghost use Rattle.std.specs.List.{list_all, list_any};
ghost use Rattle.std.specs.Char.{is_ascii_graphic};
ghost use Rattle.relay_text.specs.Addresses.{is_domain, is_domain_name, is_literal, is_literal_content, is_run_of};

use crate::inside::inside;
use crate::run::{Part, run_at};

/// Whether a text has the form of a domain: labels of letters, digits, hyphens and underscores joined by single dots, or an address
/// literal in brackets (RFC 5321 sections 4.1.2 and 4.1.3). The length is not judged.
#[tactic(auto, unfolding(crate::specs::Addresses::is_domain))]
pub fn is_domain(bytes: &[u8]) -> bool
    ensures { result ≡ is_domain bytes.now }
{
    is_domain_name(bytes) || is_literal(bytes)
}

/// Whether a text is labels joined by single dots, each at least one ASCII letter, digit, hyphen or underscore (RFC 5321 section
/// 4.1.2, Domain). A hyphen may stand at a label's ends, and no length is judged.
pub fn is_domain_name(text: &[u8]) -> bool
    ensures { result ≡ is_domain_name text.now }
{
    let run = run_at(Part::Domain, text);
    run.len == text.len() && run.is_joined
}

/// An address literal in its brackets (RFC 5321 section 4.1.3).
fn is_literal(text: &[u8]) -> bool
    ensures { result ≡ is_literal text.now }
{
    match inside(text, b'[', b']') {
        Some(content) => is_literal_content(content),
        None => false,
    }
}

/// Whether a text may stand between the brackets of an address literal: at least one byte, each of which prints and is none of `@`,
/// `[`, `]` and `\` (RFC 5321 section 4.1.3). Whether it is an IP address is not judged.
#[tactic(auto, using(crate::proofs::Domains::is_run_of_some))]
pub fn is_literal_content(content: &[u8]) -> bool
    ensures { result ≡ is_literal_content content.now }
{
    !content.is_empty() && all_literal_bytes(content)
}

/// Whether every byte prints and is none of `@`, `[`, `]` and `\`.
fn all_literal_bytes(text: &[u8]) -> bool
    ensures { result ≡ list_all (λ b. is_ascii_graphic b && not (list_any (λ c. c == b) (codes "@[]\\"))) text.now }
{
    text.iter()
        .all(|byte| byte.is_ascii_graphic() && !b"@[]\\".contains(byte))
}
