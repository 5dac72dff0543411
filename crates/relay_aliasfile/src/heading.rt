//! The name of an entry, and its list.
ghost use Rattle.std.specs.Prelude.{◌≡◌, ◌∷◌, IfSome, IfOk, option_map};
ghost use Rattle.relay_aliasfile.specs.AliasFiles.{heading_of, heading_with};
ghost use Rattle.relay_aliasfile.specs.Headings.{heading_list, heading_value};
ghost use Rattle.relay_aliasfile.specs.MailboxFiles.{folded_name_of};

use crate::names::{folded_name, folded_plain_name};
use crate::quotes::first_outside;
use relay_text::{PlainText, Text, trimmed_end};
use std::alloc::{AllocError, Global};

/// The name of an entry, folded, and its list in place.
#[derive(Drop)]
pub(crate) struct Heading<'a> {
    pub(crate) name: Text,
    pub(crate) list: &'a [u8],
}

/// What stands before and after the first colon outside quotes; `None` where there is no colon, or no name before it (aliases(5)).
#[tactic(auto, unfolding(crate::specs::AliasFiles::heading_of))]
pub(crate) fn heading_in<'a>(
    alloc: Global,
    text: &'a [u8],
) -> Result<Option<Heading<'a>>, AllocError>
    ensures { IfOk result (λ heading. option_map heading_value heading ≡ heading_of text.now) }
{
    if let Some((name, list)) = plain_cut(text) {
        return Ok(named(folded_plain_name(alloc, &name)?, list));
    }
    let Some(colon) = first_outside(b':', text) else {
        return Ok(None);
    };
    let name = folded_name(alloc, trimmed_end(&text[..colon]))?;
    Ok(named(name, &text[colon + 1..]))
}

/// The heading of a name, where there is one.
fn named(name: Option<Text>, list: &[u8]) -> Option<Heading<'_>>
    ensures { option_map heading_value result ≡ option_map (heading_with list.now) name }
{
    match name {
        Some(name) => Some(Heading { name, list }),
        None => None,
    }
}

/// A text without quotes, and what follows a colon right behind it; `None` where the line doesn't begin so.
fn plain_cut(text: &[u8]) -> Option<(PlainText<'_>, &[u8])>
    ensures { IfSome result (λ cut. heading_of text.now ≡ option_map (heading_with cut.1.now) (folded_name_of cut.0)) }
{
    let name = PlainText::at_front(text)?;
    let list = behind_colon(&text[name.text().len()..])?;
    Some((name, list))
}

/// What follows a colon at the front of a text.
fn behind_colon(text: &[u8]) -> Option<&[u8]>
    ensures { IfSome result (λ more. text.now ≡ 58 ∷ more.now) }
{
    match text {
        [b':', more @ ..] => Some(more),
        _ => None,
    }
}

/// The list of the entry on a logical line, in place; `None` where the line has no colon, or no name before it (aliases(5)). `Err`
/// where memory runs out.
pub fn entry_list<'a>(alloc: Global, text: &'a [u8]) -> Result<Option<&'a [u8]>, AllocError>
    ensures { IfOk result (λ list. option_map (λ list. list.now) list ≡ option_map heading_list (heading_of text.now)) }
{
    match heading_in(alloc, text)? {
        Some(heading) => {
            drop(heading.name);
            Ok(Some(heading.list))
        }
        None => Ok(None),
    }
}
