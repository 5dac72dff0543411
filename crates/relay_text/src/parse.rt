//! What texts spell.
ghost use Rattle.std.specs.Prelude.{◌≡◌, ◌<◌, ◌+◌, ◌^◌, ◌++◌, ◌∷◌, length, false, true, IsTrue, IfSome, IfOk, IfErr, unwrap_or};
ghost use Rattle.relay_text.specs.Addresses.{Answers, is_address, is_origin, address_of, path_of, name_of, spelled_domain, is_bad_domain, local_of};
ghost use Rattle.relay_text.specs.Bytes.{folded};
ghost use Rattle.relay_text.specs.declared.fault.TextFault.TheVariants.{BadDomain};

use crate::address::Address;
use crate::cut::Cut;
use crate::domain::is_domain;
use crate::fault::TextFault;
use crate::inline_bytes::InlineBytes;
use crate::inside::inside;
use crate::local::{is_dot_string, local_text_len, written_len};
use crate::plain::PlainText;
use crate::text::Text;
use std::alloc::{AllocError, Global};

/// The most octets of a local part as it is written (RFC 5321 section 4.5.3.1.1).
pub(crate) const MAX_LOCAL: usize = 64;

/// The most octets of a domain (RFC 5321 section 4.5.3.1.2).
pub(crate) const MAX_DOMAIN: usize = 255;

/// The most octets of a path as it is written (RFC 5321 section 4.5.3.1.3).
pub(crate) const MAX_PATH: usize = 256;

/// The address that a text spells: a local part, plain or between quotes, and `@` with a domain, which is folded; without these
/// two it is at the origin (RFC 5321 section 4.1.2, Mailbox). Nothing stands around it, not even white space.
///
/// Of several faults the first in this order is answered. `Empty`: there is no local part, or `""` is. `BadByte`: outside quotes
/// a byte other than atext and `.`, between quotes one that neither prints nor is a space. `BadQuote`: the closing `"` is missing,
/// or something other than `@` follows it. `BadDomain`: what follows the `@` is no domain. `TooLong`: the local part has more than
/// 64 octets as it is written (see `write_local`), the domain more than 255, or the path with `<`, `@` and `>` more than 256
/// (RFC 5321 section 4.5.3.1). `Memory`: memory ran out; however long the text, no more than 64 and 255 octets are asked for.
///
/// The origin is a folded domain of at most 189 octets, so a local part within its limit always has a path within its own.
pub fn parse_address(alloc: Global, bytes: &[u8], origin: &[u8]) -> Result<Address, TextFault>
    requires { IsTrue (is_origin origin.now) }
    ensures spelled { Answers result (address_of origin.now bytes.now) }
    ensures valid { IfOk result (λ a. IsTrue (is_address a)) }
{
    if let Some(front) = PlainText::at_front(bytes) {
        if front.text().len() < bytes.len() {
            return Err(front.fault_of_longer());
        }
        return front.address(alloc, origin);
    }
    let cut = Cut::of(bytes);
    cut.check()?;
    let domain = domain_in(cut.rest(), origin)?;
    let local_len = cut.local_len();
    if local_len > MAX_LOCAL || domain.len() > MAX_DOMAIN {
        return Err(TextFault::TooLong);
    }
    let Ok(text) = joined(alloc, &cut, domain) else {
        return Err(TextFault::Memory);
    };
    let local = &text.as_slice()[..local_len];
    let is_plain = is_dot_string(local);
    let written_len = written_len(local, is_plain);
    if written_len > MAX_LOCAL || written_len + domain.len() + 3 > MAX_PATH {
        drop(text);
        return Err(TextFault::TooLong);
    }
    Ok(Address::from_joined(text, local_len, is_plain))
}

/// The address that a path spells, `<`, an address text and `>`; `None` for the null path `<>` (RFC 5321 section 4.1.2, Path).
///
/// The faults are those of `parse_address` for what stands between the brackets, and `Empty` where there is no text at all and
/// `BadByte` where it doesn't begin with `<` and end with `>`.
pub fn parse_path(alloc: Global, bytes: &[u8], origin: &[u8]) -> Result<Option<Address>, TextFault>
    requires { IsTrue (is_origin origin.now) }
    ensures spelled { Answers result (path_of origin.now bytes.now) }
    ensures valid { IfOk result (λ path. IfSome path (λ a. IsTrue (is_address a))) }
{
    if bytes.is_empty() {
        return Err(TextFault::Empty);
    }
    let Some(text) = inside(bytes, b'<', b'>') else {
        return Err(TextFault::BadByte);
    };
    if text.is_empty() {
        return Ok(None);
    }
    let address = parse_address(alloc, text, origin)?;
    Ok(Some(address))
}

/// The local part that an entry's name spells, plain or between quotes, in the case as spelled (aliases(5)).
///
/// The faults are those of `parse_address` for the local part, at most 64 octets as it is written; `BadDomain` where an `@`
/// follows it, whatever stands after that.
pub fn parse_name(alloc: Global, bytes: &[u8]) -> Result<Text, TextFault>
    ensures spelled { Answers result (name_of bytes.now) }
{
    if let Some(front) = PlainText::at_front(bytes) {
        if front.text().len() < bytes.len() {
            return Err(front.fault_of_longer());
        }
        return front.name(alloc);
    }
    let cut = Cut::of(bytes);
    cut.check()?;
    if !cut.rest().is_empty() {
        return Err(TextFault::BadDomain);
    }
    if cut.local_len() > MAX_LOCAL {
        return Err(TextFault::TooLong);
    }
    let Ok(local) = cut.local(alloc) else {
        return Err(TextFault::Memory);
    };
    if local_text_len(local.as_slice()) > MAX_LOCAL {
        drop(local);
        return Err(TextFault::TooLong);
    }
    Ok(Text::of_inline(local))
}

/// The domain that follows a local part, before it is folded, or else the origin.
fn domain_in<'a>(rest: &'a [u8], origin: &'a [u8]) -> Result<&'a [u8], TextFault>
    requires { folded origin.now ≡ origin.now }
    ensures ok { IfOk result (λ domain. (is_bad_domain (spelled_domain rest.now) ≡ false) × (unwrap_or (spelled_domain rest.now) origin.now ≡ folded domain.now)) }
    ensures err { IfErr result (λ fault. (is_bad_domain (spelled_domain rest.now) ≡ true) × (fault ≡ BadDomain)) }
{
    match rest {
        [] => Ok(origin),
        [_, domain @ ..] if is_domain(domain) => Ok(domain),
        _ => Err(TextFault::BadDomain),
    }
}

/// The local part that is spelled, `@` and a domain, folded, in a row.
fn joined(alloc: Global, cut: &Cut, domain: &[u8]) -> Result<InlineBytes<(), 44>, AllocError>
    ensures { IfOk result (λ text. text.bytes ≡ local_of cut.now ++ 64 ∷ folded domain.now) }
{
    let local: InlineBytes<(), 44> = cut.local(alloc)?;
    let row = InlineBytes::joined_folded_of(alloc, (), local.as_slice(), b'@', domain);
    drop(local);
    row
}
