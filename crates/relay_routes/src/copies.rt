//! Copies of bytes.
ghost use Rattle.std.specs.Prelude.{◌≡◌, ◌++◌, IfOk};
ghost use Rattle.relay_text.specs.Bytes.{folded};

use relay_text::{Text, fold};
use std::alloc::{AllocError, Global};

/// A text, folded in place.
pub(crate) fn folded_text(mut text: Vec<u8>) -> Text
    ensures { result ≡ folded text.items }
{
    fold(&mut text);
    Text::of(text)
}

/// Two texts in one.
pub(crate) fn joined(alloc: Global, first: &[u8], second: &[u8]) -> Result<Vec<u8>, AllocError>
    ensures { IfOk result (λ text. text.items ≡ first.now ++ second.now) }
{
    let mut text = Vec::with_capacity(alloc, first.len().saturating_add(second.len()))?;
    text.extend_from_slice(first)?;
    text.extend_from_slice(second)?;
    Ok(text)
}
