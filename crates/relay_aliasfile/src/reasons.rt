//! Why the text of an item is none.
ghost use Rattle.std.specs.Prelude.{◌≡◌, None, IfOk};
ghost use Rattle.relay_aliasfile.specs.Items.{item_of};
ghost use Rattle.relay_aliasfile.specs.ItemReasons.{HasReason, form_reason, address_in, content_fault, name_fault, spelling_fault};

use crate::quotes::closes_quotes;
use crate::reading::{all_item_bytes, all_quotable, fits_local_part, in_brackets};
use crate::reason::ItemReason;
use crate::special::is_relative_include;
use relay_text::{TextFault, parse_address, quoted_content};
use std::alloc::{AllocError, Global};

/// The rule that the text of an item breaks, where it is none: the first in the order of `ItemReason`. What stands in brackets or
/// between quotes that are all of the text is judged by itself. Of a text that is an item nothing is said. `Err` where memory runs out.
pub fn item_reason(alloc: Global, text: &[u8]) -> Result<Option<ItemReason>, AllocError>
    ensures { IfOk result (λ reason. item_of text.now ≡ None → HasReason text.now reason) }
{
    if !all_item_bytes(text) {
        return Ok(Some(ItemReason::Unprintable));
    }
    if !closes_quotes(text) {
        return Ok(Some(ItemReason::OpenQuote));
    }
    match quoted_content(alloc, text)? {
        Some(content) => {
            let Ok(fault) = content_fault(alloc, content.as_bytes()) else {
                drop(content);
                return Err(AllocError);
            };
            let reason = form_reason(content.as_bytes(), fault);
            drop(content);
            Ok(reason)
        }
        None => {
            let fault = spelling_fault(alloc, address_in(text))?;
            Ok(form_reason(text, fault))
        }
    }
}

/// What stands in a text's brackets, where it has them, else the text.
fn address_in(text: &[u8]) -> &[u8]
    ensures { result.now ≡ address_in text.now }
{
    match in_brackets(text) {
        Some(address) => address,
        None => text,
    }
}

/// The rule that a text breaks which is no file, command or include file, where as an address or a name it has this fault.
fn form_reason(text: &[u8], fault: Option<TextFault>) -> Option<ItemReason>
    ensures { result ≡ form_reason text.now fault }
{
    if is_relative_include(text) {
        return Some(ItemReason::RelativePath);
    }
    ItemReason::of_fault(fault?)
}

/// The fault of a quoted string's content: of an address where it has an `@`, else of a name.
fn content_fault(alloc: Global, content: &[u8]) -> Result<Option<TextFault>, AllocError>
    ensures { IfOk result (λ fault. fault ≡ content_fault content.now) }
{
    if content.contains(&b'@') {
        spelling_fault(alloc, content)
    } else {
        Ok(name_fault(content))
    }
}

/// The fault of a name that stood between quotes.
fn name_fault(content: &[u8]) -> Option<TextFault>
    ensures { result ≡ name_fault content.now }
{
    if content.is_empty() {
        Some(TextFault::Empty)
    } else if !all_quotable(content) {
        Some(TextFault::BadByte)
    } else if !fits_local_part(content) {
        Some(TextFault::TooLong)
    } else {
        None
    }
}

/// The fault of an address's spelling. Without a domain any origin serves.
fn spelling_fault(alloc: Global, text: &[u8]) -> Result<Option<TextFault>, AllocError>
    ensures { IfOk result (λ fault. fault ≡ spelling_fault text.now) }
{
    match parse_address(alloc, text, b"localhost") {
        Ok(address) => {
            drop(address);
            Ok(None)
        }
        Err(TextFault::Memory) => Err(AllocError),
        Err(fault) => Ok(Some(fault)),
    }
}
