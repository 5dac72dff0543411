//! A job's text with another envelope.
ghost use Rattle.std.specs.Prelude.{◌≡◌, ◌++◌, ◌∷◌, [], false, IfOk, OnOk, if◌then◌else◌};
ghost use Rattle.relay_job.specs.JobText.{job_lines};
ghost use Rattle.relay_job.specs.Places.{line_of};
ghost use Rattle.relay_envelopes.specs.Replaced.{is_own, emptied, replaced_text};

use relay_job::{Place, RawLine};
use relay_text::{Text, same_bytes, trimmed_end};
use std::alloc::{AllocError, Global};

/// Whether a line is of a job's envelope, where the one before it is or isn't.
fn is_own(before: bool, line: &RawLine<'_>) -> bool
    ensures { result ≡ is_own before (line_of line.now) }
{
    if line.is_heading() {
        same_bytes(trimmed_end(line.text()), b"%envelope")
    } else {
        before
    }
}

/// Puts a line at the end, or an empty one in its place.
fn put_line(line: &RawLine<'_>, is_empty: bool, out: &mut Vec<u8>) -> Result<(), AllocError>
    ensures { OnOk result (out.new.items ≡ out.old.items ++ (if is_empty then 10 ∷ [] else line.now.raw.now)) }
{
    if is_empty {
        out.push(b'\n')?;
        Ok(())
    } else {
        out.extend_from_slice(line.raw)
    }
}

/// Puts the lines of a job at the end, those of its envelope as empty lines.
fn put_emptied(text: &[u8], out: &mut Vec<u8>) -> Result<(), AllocError>
    ensures { OnOk result (out.new.items ≡ out.old.items ++ emptied false (job_lines text.now)) }
{
    let mut place = Place::start(text);
    let mut is_within = false;
    while let Some((line, after)) = place.split() {
        is_within = is_own(is_within, &line);
        put_line(&line, is_within, out)?;
        place = after;
    }
    Ok(())
}

/// The text of a job with this section of an envelope in place of its own, if it has one. Its own lines are empty, so that all others keep
/// their numbers, and the new section stands behind the last line.
pub fn replace_envelope(alloc: Global, text: &[u8], section: &[u8]) -> Result<Text, AllocError>
    ensures { IfOk result (λ replaced. replaced ≡ replaced_text text.now section.now) }
{
    let mut out = Vec::new(alloc);
    put_emptied(text, &mut out)?;
    out.push(b'\n')?;
    out.extend_from_slice(b"%envelope\n")?;
    out.extend_from_slice(section)?;
    Ok(Text::of(out))
}
