//! The lines of an MX table.
ghost use Rattle.std.specs.Prelude.{◌≡◌, ◌≤◌, length, [], ◌∷◌, IfOk, IfSome, IfNone};
ghost use Rattle.std.specs.List.{position_or_len};
ghost use Rattle.relay_text.specs.Bytes.{is_white, is_word};
ghost use Rattle.relay_text.specs.Numbers.{number_within};
ghost use Rattle.relay_routes.specs.Exchanges.{fields_of, record_of, exchange_of, is_exchange_host};

use crate::exchange::Exchange;
use crate::field::Field;
use crate::mx_record::MxRecord;
use bstr::ByteSlice;
use relay_text::{begins_with_word, number_within, trimmed_start};
use std::alloc::{AllocError, Global};

/// The record that a line spells, `None` where it spells none. `Err` where memory runs out.
pub(crate) fn record_in(alloc: Global, line: &[u8]) -> Result<Option<MxRecord>, AllocError>
    ensures { IfOk result (λ r. r ≡ record_of (fields_of line.now)) }
{
    let Some((domain, rest)) = Field::split(line) else {
        return Ok(None);
    };
    let Some((word, rest)) = split_field(rest) else {
        return Ok(None);
    };
    let Some((number, rest)) = split_field(rest) else {
        return address_record(alloc, &domain, word);
    };
    let Some((host, rest)) = Field::split(rest) else {
        return Ok(None);
    };
    if split_field(rest).is_some() {
        return Ok(None);
    }
    exchange_record(alloc, &domain, word, number, &host)
}

/// The record of a line `domain A`.
fn address_record(
    alloc: Global,
    domain: &Field<'_>,
    word: &[u8],
) -> Result<Option<MxRecord>, AllocError>
    ensures { IfOk result (λ r. r ≡ record_of (domain.now ∷ word.now ∷ [])) }
{
    if is_word(b"a", word) && domain.is_domain_name() {
        Ok(Some(MxRecord::Address(domain.folded_copy(alloc)?)))
    } else {
        Ok(None)
    }
}

/// The record of a line `domain MX number host`.
fn exchange_record(
    alloc: Global,
    domain: &Field<'_>,
    word: &[u8],
    number: &[u8],
    host: &Field<'_>,
) -> Result<Option<MxRecord>, AllocError>
    ensures { IfOk result (λ r. r ≡ record_of (domain.now ∷ word.now ∷ number.now ∷ host.now ∷ [])) }
{
    if !is_word(b"mx", word) {
        return Ok(None);
    }
    match preference_of(number) {
        Some(preference) if domain.is_domain_name() && is_exchange_host(preference, host) => {
            let domain = domain.folded_copy(alloc)?;
            let Ok(host) = host.folded_copy(alloc) else {
                drop(domain);
                return Err(AllocError);
            };
            Ok(Some(MxRecord::Mx(Exchange {
                domain,
                preference,
                host,
            })))
        }
        _ => Ok(None),
    }
}

/// The preference that decimal digits spell, where it takes no more than 16 bits.
fn preference_of(digits: &[u8]) -> Option<u16>
    ensures { result ≡ number_within 0 65535 digits.now }
{
    let number = number_within(0, 65535, digits)?;
    u16::try_from(number).ok()
}

/// Whether a text is a domain name, or the `.` of the null MX, whose preference is 0 (RFC 7505 section 3).
fn is_exchange_host(preference: u16, host: &Field<'_>) -> bool
    ensures { result ≡ is_exchange_host preference host.now }
{
    host.is_domain_name() || (host.text() == b".".as_slice() && preference == 0)
}

/// Whether a text is a word, which is given in lower case; its letters may be in any case.
fn is_word(word: &[u8], text: &[u8]) -> bool
    ensures { result ≡ is_word word.now text.now }
{
    text.len() == word.len() && begins_with_word(word, text)
}

/// The first field of a text, behind white space, and what follows it; `None` where there is none.
fn split_field(text: &[u8]) -> Option<(&[u8], &[u8])>
    ensures none { IfNone result (fields_of text.now ≡ []) }
    ensures some { IfSome result (λ split. fields_of text.now ≡ split.0.now ∷ fields_of split.1.now) }
{
    let start = trimmed_start(text);
    if start.is_empty() {
        return None;
    }
    Some(start.split_at(field_len(start)))
}

/// How many bytes stand before the first white space.
fn field_len(text: &[u8]) -> usize
    ensures place { result ≡ position_or_len is_white text.now }
    ensures within { result ≤ length text.now }
{
    text.find_byteset(b" \t").unwrap_or(text.len())
}
