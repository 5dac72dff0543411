//! Patterns of a transport table, and addresses as its keys.
ghost use Rattle.std.specs.Prelude.{◌≡◌, IfOk};
ghost use Rattle.relay_text.specs.Addresses.{is_literal, spelling_of};
ghost use Rattle.relay_routes.specs.Transports.{address_key, address_pattern, pattern_of};
ghost use Rattle.relay_routes.specs.TableSteps.{names_domain};

use crate::copies::folded_text;
use crate::field::Field;
use relay_text::{Text, TextFault, is_literal_content, parse_address, parse_name, write_local};
use std::alloc::{AllocError, Global};

/// An address as a key or a pattern: folded, in its one spelling.
pub(crate) fn address_key(alloc: Global, local: &[u8], domain: &[u8]) -> Result<Text, AllocError>
    ensures { IfOk result (λ key. key ≡ address_key local.now domain.now) }
{
    let room = local.len().saturating_add(domain.len()).saturating_add(3);
    let mut key = Vec::with_capacity(alloc, room)?;
    write_local(local, &mut key)?;
    key.push(b'@')?;
    key.extend_from_slice(domain)?;
    Ok(folded_text(key))
}

/// The pattern that a field spells (transport(5), "TABLE FORMAT"): `*`, `.` and a domain name, a domain, or an address with a
/// domain. Patterns are folded, and an address has its one spelling.
#[tactic(auto, unfolding(relay_text::specs::Addresses::is_domain))]
pub(crate) fn pattern_of(alloc: Global, field: &Field<'_>) -> Result<Option<Text>, AllocError>
    ensures { IfOk result (λ pattern. pattern ≡ pattern_of field.now) }
{
    let text = field.text();
    if field.is_parent() || field.is_domain_name() || text == b"*".as_slice() || is_literal(text) {
        return Ok(Some(field.folded_copy(alloc)?));
    }
    address_pattern(alloc, text)
}

/// The pattern of an address with a domain.
#[tactic(auto, unfolding(relay_text::specs::Addresses::is_origin, relay_text::specs::Addresses::is_domain))]
fn address_pattern(alloc: Global, text: &[u8]) -> Result<Option<Text>, AllocError>
    ensures { IfOk result (λ pattern. pattern ≡ address_pattern (spelling_of text.now)) }
{
    if !names_domain(alloc, text)? {
        return Ok(None);
    }
    match parse_address(alloc, text, b"localhost") {
        Ok(address) => Ok(Some(address_key(alloc, address.local(), address.domain())?)),
        Err(TextFault::Memory) => Err(AllocError),
        Err(_) => Ok(None),
    }
}

/// Whether a text has a local part without fault, and a domain behind it, whatever that is.
fn names_domain(alloc: Global, text: &[u8]) -> Result<bool, AllocError>
    ensures { IfOk result (λ named. named ≡ names_domain text.now) }
{
    match parse_name(alloc, text) {
        Err(TextFault::BadDomain) => Ok(true),
        Err(TextFault::Memory) => Err(AllocError),
        _ => Ok(false),
    }
}

/// Whether a domain is an address literal.
pub(crate) fn is_literal(domain: &[u8]) -> bool
    ensures { result ≡ is_literal domain.now }
{
    let len = domain.len();
    if len < 2 || domain[0] != b'[' || domain[len - 1] != b']' {
        return false;
    }
    is_literal_content(&domain[1..len - 1])
}
