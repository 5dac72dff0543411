//! The text of an item.
use crate::item::Item;
use crate::reading::item_in;
use crate::unquoted::unquoted_item;
use relay_text::PlainText;
use std::alloc::{AllocError, Global};

/// The text of an item, as a list has it.
#[derive(Drop)]
pub(crate) enum ItemText<'a> {
    /// A name or an address without quotes, or a file or command that looks like one.
    Plain(PlainText<'a>),
    /// Any other text.
    Other(&'a [u8]),
}

impl<'a> ItemText<'a> {
    ghost use Rattle.std.specs.Prelude.{◌≡◌, IfOk};
    ghost use Rattle.relay_aliasfile.specs.Items.{item_of, is_bad};
    ghost use Rattle.relay_aliasfile.specs.ItemTexts.{bytes_in};

    /// Its bytes.
    pub(crate) fn bytes(&self) -> &'a [u8]
        ensures { result.now ≡ bytes_in self.now }
    {
        match self {
            ItemText::Plain(text) => text.text(),
            ItemText::Other(text) => *text,
        }
    }

    /// The item that it is; `None` where it is none.
    pub(crate) fn item(&self, alloc: Global) -> Result<Option<Item>, AllocError>
        ensures { IfOk result (λ item. item ≡ item_of (bytes_in self.now)) }
    {
        match self {
            ItemText::Plain(text) => unquoted_item(alloc, text),
            ItemText::Other(text) => item_in(alloc, *text),
        }
    }

    /// Whether it is no item.
    pub(crate) fn is_bad(&self, alloc: Global) -> Result<bool, AllocError>
        ensures { IfOk result (λ bad. bad ≡ is_bad (bytes_in self.now)) }
    {
        match self.item(alloc)? {
            Some(item) => {
                drop(item);
                Ok(false)
            }
            None => Ok(true),
        }
    }
}
