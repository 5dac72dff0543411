//! The bytes of sections.
ghost use Rattle.std.specs.Prelude.{◌≡◌, flat_map, IfOk};
ghost use Rattle.relay_job.specs.JobText.{content_of};
ghost use Rattle.relay_job.specs.Places.{content_at};

use crate::place::Place;
use relay_text::Text;
use std::alloc::{AllocError, Global};

/// The bytes of the section behind a place, each line as it stands for itself. Most sections have no line that begins with `%%`, and
/// are copied in one piece.
pub(crate) fn section_bytes(alloc: Global, section: Place<'_>) -> Result<Text, AllocError>
    ensures { IfOk result (λ bytes. bytes ≡ flat_map (λ l. content_of l.raw) (content_at section.entry)) }
{
    match section.plain() {
        Some(plain) => Text::copy_of(alloc, plain.rest),
        None => undone_bytes(alloc, section),
    }
}

/// The same, line by line.
fn undone_bytes(alloc: Global, section: Place<'_>) -> Result<Text, AllocError>
    ensures { IfOk result (λ bytes. bytes ≡ flat_map (λ l. content_of l.raw) (content_at section.entry)) }
{
    let mut bytes = Vec::new(alloc);
    let mut place = section;
    while let Some((line, after)) = place.split_content() {
        place = after;
        bytes.extend_from_slice(line.content())?;
    }
    Ok(Text::of(bytes))
}
