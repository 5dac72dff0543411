//! What the text of an item without quotes is.
ghost use Rattle.std.specs.Prelude.{◌≡◌, ◌∷◌, ◌||◌, [], Err, false, IfOk};
ghost use Rattle.relay_text.specs.Bytes.{begins_with};
ghost use Rattle.relay_text.specs.Addresses.{name_of};
ghost use Rattle.relay_text.specs.declared.fault.TextFault.TheVariants.{BadDomain};
ghost use Rattle.relay_aliasfile.specs.Items.{item_of, address_item};

use crate::item::Item;
use crate::reading::item_in;
use relay_text::{PlainText, TextFault};
use std::alloc::{AllocError, Global};

/// The item that a text without quotes is, the first kind that fits; `None` where it is none.
#[tactic(auto, using(crate::proofs::OpenTexts::item_of_open))]
pub(crate) fn unquoted_item(alloc: Global, text: &PlainText<'_>) -> Result<Option<Item>, AllocError>
    ensures { IfOk result (λ item. item ≡ item_of text.now) }
{
    if is_special(text.text()) {
        item_in(alloc, text.text())
    } else {
        address_item(alloc, text)
    }
}

/// Whether a text begins as a file or a command does.
fn is_special(text: &[u8]) -> bool
    ensures { result ≡ (begins_with (47 ∷ []) text.now || begins_with (124 ∷ []) text.now) }
{
    match text.first() {
        Some(first) => *first == b'/' || *first == b'|',
        None => false,
    }
}

/// The address that a text spells: a bare name where it has no domain.
fn address_item(alloc: Global, text: &PlainText<'_>) -> Result<Option<Item>, AllocError>
    ensures { IfOk result (λ item. item ≡ address_item text.now) }
{
    if text.has_domain() {
        return full_item(alloc, text);
    }
    match text.name(alloc) {
        Ok(local) => Ok(Some(Item::Bare(local))),
        Err(TextFault::Memory) => Err(AllocError),
        Err(_) => Ok(None),
    }
}

/// The address that a text with an `@` spells. It names its domain itself, so any origin serves.
fn full_item(alloc: Global, text: &PlainText<'_>) -> Result<Option<Item>, AllocError>
    requires { name_of text.now ≡ Err BadDomain }
    ensures { IfOk result (λ item. item ≡ address_item text.now) }
{
    match text.address(alloc, b"localhost") {
        Ok(address) => Ok(Some(Item::Full(address))),
        Err(TextFault::Memory) => Err(AllocError),
        Err(_) => Ok(None),
    }
}
