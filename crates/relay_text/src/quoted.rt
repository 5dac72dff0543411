//! Quoted strings.
ghost use Rattle.std.specs.Prelude.{◌≡◌, IfOk};
ghost use Rattle.relay_text.specs.QuotedStrings.{string_content};

use crate::cut::Cut;
use crate::text::Text;
use std::alloc::{AllocError, Global};

/// The content of a text that is wholly one quoted string, with `\x` read as `x`; `None` for any other text (RFC 5321 section 4.1.2,
/// Quoted-string). The closing `"` is the text's last byte. Which bytes stand between the quotes, and how many, is not judged. `Err`
/// where memory runs out.
pub fn quoted_content(alloc: Global, text: &[u8]) -> Result<Option<Text>, AllocError>
    ensures { IfOk result (λ content. content ≡ string_content text.now) }
{
    let cut = Cut::of(text);
    if !cut.is_whole_string() {
        return Ok(None);
    }
    let content = Text::of_inline(cut.local(alloc)?);
    Ok(Some(content))
}
