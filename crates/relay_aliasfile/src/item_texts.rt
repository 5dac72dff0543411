//! The texts of a list's items.
ghost use Rattle.std.specs.Prelude.{◌≡◌, ◌∷◌, ◌++◌, ◌≤◌, ◌<◌, [], length, filter, option_map, IfSome, IfNone};
ghost use Rattle.relay_text.specs.Bytes.{trimmed};
ghost use Rattle.relay_aliasfile.specs.Items.{item_texts, is_text};
ghost use Rattle.relay_aliasfile.specs.ItemTexts.{behind_comma, bytes_in, texts_left};

use crate::item_text::ItemText;
use crate::quotes::first_outside;
use relay_text::{PlainText, trimmed, trimmed_start};

/// A reader over the texts of a list's items: what stands between the commas outside quotes, trimmed, unless it is empty (aliases(5)).
/// It lends them in place, takes no memory and reads each byte once.
#[derive(Clone, Copy)]
pub(crate) struct ItemTexts<'a> {
    rest: &'a [u8],
}

impl<'a> ItemTexts<'a> {
    /// A reader that begins at the first item.
    pub(crate) fn new(list: &'a [u8]) -> Self
        ensures { texts_left result ≡ item_texts list.now }
    {
        ItemTexts { rest: list }
    }

    /// The next item's text; `None` at the end, and again from then on.
    pub(crate) fn next_text(&mut self) -> Option<ItemText<'a>>
        ensures none { IfNone result (texts_left self.old ≡ []) }
        ensures some { IfSome result (λ text. texts_left self.old ≡ bytes_in text ∷ texts_left self.new) }
    {
        if self.rest.is_empty() {
            return None;
        }
        if let Some(text) = self.next_plain() {
            return Some(ItemText::Plain(text));
        }
        let text = self.next_cut()?;
        Some(ItemText::Other(text))
    }

    /// The next item's text where it has no quotes and a comma or the end follows it at once, in one pass; else nothing is read.
    fn next_plain(&mut self) -> Option<PlainText<'a>>
        ensures none { IfNone result (texts_left self.new ≡ texts_left self.old) }
        ensures some { IfSome result (λ text. texts_left self.old ≡ text ∷ texts_left self.new) }
    {
        let rest = trimmed_start(self.rest);
        let text = PlainText::at_front(rest)?;
        let more = behind_comma(&rest[text.text().len()..])?;
        self.rest = more;
        Some(text)
    }

    /// The next item's text, cut out before it is read.
    fn next_cut(&mut self) -> Option<&'a [u8]>
        ensures none { IfNone result (texts_left self.old ≡ []) }
        ensures some { IfSome result (λ text. texts_left self.old ≡ text.now ∷ texts_left self.new) }
    {
        while !self.rest.is_empty() {
            let text = trimmed(self.next_piece());
            if !text.is_empty() {
                return Some(text);
            }
        }
        None
    }

    /// What stands before the next comma outside quotes, or all that is left.
    fn next_piece(&mut self) -> &'a [u8]
        requires { 1 ≤ length self.old.rest.now }
        ensures texts { texts_left self.old ≡ filter is_text (trimmed result.now ∷ []) ++ texts_left self.new }
        ensures shorter { length self.new.rest.now < length self.old.rest.now }
    {
        let rest = self.rest;
        match first_outside(b',', rest) {
            Some(place) => {
                self.rest = &rest[place + 1..];
                &rest[..place]
            }
            None => {
                self.rest = &rest[rest.len()..];
                rest
            }
        }
    }
}

/// What follows a comma at the front of a text; at its end nothing.
fn behind_comma(text: &[u8]) -> Option<&[u8]>
    ensures { option_map (λ more. more.now) result ≡ behind_comma text.now }
{
    if text.is_empty() {
        return Some(text);
    }
    if text[0] == b',' {
        Some(&text[1..])
    } else {
        None
    }
}
