//! Items that are no addresses.
ghost use Rattle.std.specs.Prelude.{◌≡◌, ◌∷◌, [], IfOk, option_map};
ghost use Rattle.relay_text.specs.Bytes.{begins_with};
ghost use Rattle.relay_aliasfile.specs.Items.{include_path, special_item};
ghost use Rattle.relay_aliasfile.specs.Specials.{special_as, is_include};
ghost use Rattle.relay_aliasfile.specs.ItemReasons.{is_relative_include};

use crate::item::Item;
use relay_text::{Text, begins_with_word, trimmed_end};
use std::alloc::{AllocError, Global};

/// The kinds of items that are no addresses (aliases(5)).
#[derive(Clone, Copy)]
pub(crate) enum Special {
    /// `/path`
    Path,
    /// `|` and at least one more byte
    Program,
    /// `:include:/path`, its letters in any case
    Members,
}

impl Special {
    /// The kind of an item that is no address.
    pub(crate) fn of(text: &[u8]) -> Option<Special>
        ensures { option_map (special_as text.now) result ≡ special_item text.now }
    {
        if begins_with(b'/', text) {
            return Some(Special::Path);
        }
        if begins_with(b'|', text) && text.len() > 1 {
            return Some(Special::Program);
        }
        if is_include(text) {
            return Some(Special::Members);
        }
        None
    }

    /// The item that a text of this kind is, which keeps a copy.
    pub(crate) fn copied(self, alloc: Global, text: &[u8]) -> Result<Item, AllocError>
        ensures { IfOk result (λ item. item ≡ special_as text.now self) }
    {
        match self {
            Special::Path => Ok(Item::File(Text::copy_of(alloc, text)?)),
            Special::Program => Ok(Item::Command(Text::copy_of(alloc, text)?)),
            Special::Members => Ok(Item::Include(Text::copy_of(alloc, include_path(text))?)),
        }
    }

    /// The item that a text of this kind is, which keeps the text itself, or of an include item a copy of the path.
    pub(crate) fn moved(self, alloc: Global, text: Text) -> Result<Item, AllocError>
        ensures { IfOk result (λ item. item ≡ special_as text self) }
    {
        match self {
            Special::Path => Ok(Item::File(text)),
            Special::Program => Ok(Item::Command(text)),
            Special::Members => {
                let path = Text::copy_of(alloc, include_path(text.as_bytes()));
                drop(text);
                Ok(Item::Include(path?))
            }
        }
    }
}

/// Whether a text begins with this byte.
fn begins_with(byte: u8, text: &[u8]) -> bool
    ensures { result ≡ begins_with (byte ∷ []) text.now }
{
    match text.first() {
        Some(first) => *first == byte,
        None => false,
    }
}

/// Whether a text is `:include:` and a path from the root.
fn is_include(text: &[u8]) -> bool
    ensures { result ≡ is_include text.now }
{
    begins_with_word(b":include:", text) && begins_with(b'/', include_path(text))
}

/// Whether a text is `:include:` and a path that doesn't begin with `/`.
pub(crate) fn is_relative_include(text: &[u8]) -> bool
    ensures { result ≡ is_relative_include text.now }
{
    if !begins_with_word(b":include:", text) {
        return false;
    }
    !begins_with(b'/', include_path(text))
}

/// The path in an include item.
fn include_path(text: &[u8]) -> &[u8]
    ensures { result.now ≡ include_path text.now }
{
    let word_len = text.len().min(b":include:".len());
    trimmed_end(&text[word_len..])
}
