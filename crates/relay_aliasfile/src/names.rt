//! Names of entries and mailboxes.
ghost use Rattle.std.specs.Prelude.{◌≡◌, ◌≢◌, Err, IfOk, option_map};
ghost use Rattle.std.specs.Result.{result_ok};
ghost use Rattle.relay_text.specs.Bytes.{folded};
ghost use Rattle.relay_text.specs.declared.fault.TextFault.TheVariants.{Memory};
ghost use Rattle.relay_aliasfile.specs.MailboxFiles.{folded_name_of};

use relay_text::{PlainText, Text, TextFault, parse_name};
use std::alloc::{AllocError, Global};

/// The name that a text spells, folded; `None` where it spells none.
pub(crate) fn folded_name(alloc: Global, text: &[u8]) -> Result<Option<Text>, AllocError>
    ensures { IfOk result (λ name. name ≡ folded_name_of text.now) }
{
    folded_answer(parse_name(alloc, text))
}

/// The same of a text without quotes.
pub(crate) fn folded_plain_name(
    alloc: Global,
    text: &PlainText<'_>,
) -> Result<Option<Text>, AllocError>
    ensures { IfOk result (λ name. name ≡ folded_name_of text.now) }
{
    folded_answer(text.name(alloc))
}

/// A name that was read, folded; `None` where the text spells none.
fn folded_answer(name: Result<Text, TextFault>) -> Result<Option<Text>, AllocError>
    ensures name { IfOk result (λ answer. answer ≡ option_map folded (result_ok name)) }
    ensures known { IfOk result (λ _. name ≢ Err Memory) }
{
    match name {
        Ok(mut name) => {
            name.fold();
            Ok(Some(name))
        }
        Err(TextFault::Memory) => Err(AllocError),
        Err(_) => Ok(None),
    }
}
