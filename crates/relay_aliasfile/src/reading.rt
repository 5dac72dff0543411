//! What the text of an item is.
ghost use Rattle.std.specs.Prelude.{◌≡◌, ◌∷◌, ◌&&◌, [], Err, not, IfOk, option_map};
ghost use Rattle.std.specs.List.{list_all};
ghost use Rattle.relay_text.specs.Bytes.{ends_with};
ghost use Rattle.relay_text.specs.Addresses.{Fails, name_of, is_quotable, is_local_too_long, is_empty};
ghost use Rattle.relay_text.specs.declared.fault.TextFault.TheVariants.{BadDomain};
ghost use Rattle.relay_aliasfile.specs.Items.{item_of, is_well_quoted, is_item_byte, content_item, named_item, address_item};
ghost use Rattle.relay_aliasfile.specs.Specials.{plain_item, is_local_part};
ghost use Rattle.relay_aliasfile.specs.ItemReasons.{in_brackets};

use crate::item::Item;
use crate::quotes::{closes_quotes, last_outside};
use crate::special::Special;
use relay_text::{Text, TextFault, local_text_len, parse_address, parse_name, quoted_content};
use std::alloc::{AllocError, Global};

/// The most octets of a local part as it is written (RFC 5321 section 4.5.3.1.1).
const MAX_LOCAL: usize = 64;

/// The item that a text is, the first kind that fits (aliases(5), local(8)); `None` where it is none.
pub(crate) fn item_in(alloc: Global, text: &[u8]) -> Result<Option<Item>, AllocError>
    ensures { IfOk result (λ item. item ≡ item_of text.now) }
{
    if !is_well_quoted(text) {
        return Ok(None);
    }
    match quoted_content(alloc, text)? {
        Some(content) => content_item(alloc, content),
        None => plain_item(alloc, text),
    }
}

/// Whether a text has tabs, spaces and bytes that print alone, and closes its quotes.
fn is_well_quoted(text: &[u8]) -> bool
    ensures { result ≡ is_well_quoted text.now }
{
    all_item_bytes(text) && closes_quotes(text)
}

pub(crate) fn all_item_bytes(text: &[u8]) -> bool
    ensures { result ≡ list_all is_item_byte text.now }
{
    text.iter()
        .all(|byte| *byte == b'\t' || (*byte >= 32 && *byte <= 126))
}

/// What the content of a quoted string stands for.
fn content_item(alloc: Global, content: Text) -> Result<Option<Item>, AllocError>
    ensures { IfOk result (λ item. item ≡ content_item content) }
{
    match Special::of(content.as_bytes()) {
        Some(special) => Ok(Some(special.moved(alloc, content)?)),
        None => named_item(alloc, content),
    }
}

/// The same where the content is no file, command or include file: an address where it has an `@`, else a bare name.
fn named_item(alloc: Global, content: Text) -> Result<Option<Item>, AllocError>
    ensures { IfOk result (λ item. item ≡ named_item content) }
{
    if content.as_bytes().contains(&b'@') {
        let item = address_item(alloc, content.as_bytes());
        drop(content);
        return item;
    }
    if is_local_part(content.as_bytes()) {
        Ok(Some(Item::Bare(content)))
    } else {
        drop(content);
        Ok(None)
    }
}

/// Whether a text may be a local part between quotes.
fn is_local_part(text: &[u8]) -> bool
    ensures { result ≡ is_local_part text.now }
{
    !text.is_empty() && all_quotable(text) && fits_local_part(text)
}

pub(crate) fn all_quotable(text: &[u8]) -> bool
    ensures { result ≡ list_all is_quotable text.now }
{
    text.iter().all(|byte| *byte >= 32 && *byte <= 126)
}

/// Whether a local part has at most 64 octets as it is written.
pub(crate) fn fits_local_part(local: &[u8]) -> bool
    ensures { result ≡ not (is_local_too_long local.now) }
{
    local.len() <= MAX_LOCAL && local_text_len(local) <= MAX_LOCAL
}

/// What a text that isn't one quoted string stands for.
fn plain_item(alloc: Global, text: &[u8]) -> Result<Option<Item>, AllocError>
    ensures { IfOk result (λ item. item ≡ plain_item text.now) }
{
    if let Some(special) = Special::of(text) {
        return Ok(Some(special.copied(alloc, text)?));
    }
    if let Some(address) = in_brackets(text)
        && let Some(item) = address_item(alloc, address)?
    {
        return Ok(Some(item));
    }
    address_item(alloc, text)
}

/// What stands between the last `<` outside quotes and a `>` at the end.
pub(crate) fn in_brackets(text: &[u8]) -> Option<&[u8]>
    ensures { option_map (λ inner. inner.now) result ≡ in_brackets text.now }
{
    if !ends_with(b'>', text) {
        return None;
    }
    let place = last_outside(b'<', text)?;
    Some(&text[place + 1..text.len() - 1])
}

/// Whether a text ends with this byte.
fn ends_with(byte: u8, text: &[u8]) -> bool
    ensures { result ≡ ends_with (byte ∷ []) text.now }
{
    match text.last() {
        Some(last) => *last == byte,
        None => false,
    }
}

/// The address that a text spells: a bare name where it has no domain.
fn address_item(alloc: Global, text: &[u8]) -> Result<Option<Item>, AllocError>
    ensures { IfOk result (λ item. item ≡ address_item text.now) }
{
    match parse_name(alloc, text) {
        Ok(local) => Ok(Some(Item::Bare(local))),
        Err(fault) => unnamed_item(alloc, text, fault),
    }
}

/// What a text stands for that spells no name for this fault: an address where a domain follows the name, else nothing.
fn unnamed_item(alloc: Global, text: &[u8], fault: TextFault) -> Result<Option<Item>, AllocError>
    requires { Fails fault (name_of text.now) }
    ensures { IfOk result (λ item. item ≡ address_item text.now) }
{
    match fault {
        TextFault::BadDomain => full_item(alloc, text),
        TextFault::Memory => Err(AllocError),
        TextFault::Empty | TextFault::BadByte | TextFault::BadQuote | TextFault::TooLong => {
            Ok(None)
        }
    }
}

/// The address that a text with an `@` spells. It names its domain itself, so any origin serves.
fn full_item(alloc: Global, text: &[u8]) -> Result<Option<Item>, AllocError>
    requires { name_of text.now ≡ Err BadDomain }
    ensures { IfOk result (λ item. item ≡ address_item text.now) }
{
    match parse_address(alloc, text, b"localhost") {
        Ok(address) => Ok(Some(Item::Full(address))),
        Err(TextFault::Memory) => Err(AllocError),
        Err(_) => Ok(None),
    }
}
