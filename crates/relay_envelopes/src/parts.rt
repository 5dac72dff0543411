//! Where the parts of a text of many envelopes stand.
ghost use Rattle.std.specs.Prelude.{◌≡◌, ◌≤◌, ◌++◌, ℕ, List, [], true, false, None, Some, length, map, flat_map, option_map, IfOk, IfErr};
ghost use Rattle.relay_job.specs.JobParts.{Stops};
ghost use Rattle.relay_job.specs.Places.{lines_at, content_at};
ghost use Rattle.relay_envelopes.specs.Sections.{front_of, lines_behind, envelopes_of, bad_envelopes};
ghost use Rattle.relay_envelopes.specs.Envelopes.{section_in, bad_behind};

use crate::heading::{envelope_id, is_end, is_envelope_word};
use crate::section::EnvelopeSection;
use relay_job::{Place, RunFault};
use relay_text::TextSet;
use std::alloc::Global;

/// The place before the first heading of an envelope, or the end of a text without one. What stands before it are settings, files and
/// tables.
pub fn envelopes_place(text: &[u8]) -> Place<'_>
    ensures front { text.now ≡ front_of text.now ++ result.rest.now }
    ensures lines { lines_at result ≡ lines_behind text.now }
{
    let mut place = Place::start(text);
    while let Some((line, after)) = place.split() {
        if line.is_heading() && is_envelope_word(line.text()) {
            return place;
        }
        place = after;
    }
    place
}

/// The place before the first heading behind a place, or the text's end. BadJob has the first line before it that isn't of white space
/// alone.
fn first_heading(place: Place<'_>) -> Result<Place<'_>, RunFault>
    ensures heading { IfOk result (λ first. content_at first ≡ []) }
    ensures no_longer { IfOk result (λ first. length first.rest.now ≤ length place.entry.rest.now) }
    ensures sections { IfOk result (λ first. envelopes_of (lines_at place.entry) ≡ envelopes_of (lines_at first)) }
    ensures unbroken { IfOk result (λ first. (ids : List (List ℕ)) → bad_behind false ids (lines_at place.entry) ≡ bad_behind false ids (lines_at first)) }
    ensures refused { IfErr result (λ fault. (ids : List (List ℕ)) → option_map RunFault.BadJob (bad_behind false ids (lines_at place.entry)) ≡ Some fault) }
{
    let mut first = place;
    while let Some((line, after)) = first.split() {
        if line.is_heading() {
            return Ok(first);
        }
        if !line.is_blank() {
            return Err(RunFault::BadJob(line.number));
        }
        first = after;
    }
    Ok(first)
}

/// The place before the next heading behind a place, or the text's end.
fn next_heading(place: Place<'_>) -> Place<'_>
    ensures heading { content_at result ≡ [] }
    ensures lines { lines_at place.entry ≡ content_at place.entry ++ lines_at result }
    ensures bytes { place.entry.rest.now ≡ flat_map (λ l. l.raw) (content_at place.entry) ++ result.rest.now }
{
    let mut next = place;
    while let Some((line, after)) = next.split() {
        if line.is_heading() {
            return next;
        }
        next = after;
    }
    next
}

/// The place of the next heading behind that of an envelope's end, where `%end` stands there, else this place. BadJob has the first line
/// behind `%end` that is no heading and isn't of white space alone.
fn behind_end(place: Place<'_>) -> Result<Place<'_>, RunFault>
    requires { content_at place ≡ [] }
    ensures heading { IfOk result (λ next. content_at next ≡ []) }
    ensures no_longer { IfOk result (λ next. length next.rest.now ≤ length place.entry.rest.now) }
    ensures sections { IfOk result (λ next. envelopes_of (lines_at place.entry) ≡ envelopes_of (lines_at next)) }
    ensures unbroken { IfOk result (λ next. (ids : List (List ℕ)) → bad_behind true ids (lines_at place.entry) ≡ bad_behind false ids (lines_at next)) }
    ensures refused { IfErr result (λ fault. (ids : List (List ℕ)) → option_map RunFault.BadJob (bad_behind true ids (lines_at place.entry)) ≡ Some fault) }
{
    let Some((line, after)) = place.split() else {
        return Ok(place);
    };
    if is_end(line.text()) {
        first_heading(after)
    } else {
        Ok(place)
    }
}

/// The section of each envelope behind a place, in order. BadJob has the first line that is a heading without an ID or with that of an
/// earlier one, or that stands where no envelope has begun or it has ended and is `%end`, or no heading and not of white space alone;
/// Memory comes where a growth was refused.
pub fn find_envelopes<'a>(
    alloc: Global,
    place: Place<'a>,
) -> Result<Vec<EnvelopeSection<'a>>, RunFault>
    ensures sections { IfOk result (λ sections. map section_in sections.items ≡ envelopes_of (lines_at place.entry)) }
    ensures unbroken { IfOk result (λ sections. bad_envelopes (lines_at place.entry) ≡ None) }
    ensures refused { IfErr result (λ fault. Stops (option_map RunFault.BadJob (bad_envelopes (lines_at place.entry))) fault) }
{
    let mut sections = Vec::new(alloc);
    let mut ids = TextSet::new(alloc);
    let mut behind = first_heading(place)?;
    while let Some((heading, after)) = behind.split() {
        let Some(id) = envelope_id(heading.text()) else {
            return Err(RunFault::BadJob(heading.number));
        };
        if !ids.insert(Vec::from_slice(alloc, id)?)? {
            return Err(RunFault::BadJob(heading.number));
        }
        let next = next_heading(after);
        sections.push(EnvelopeSection {
            line: heading.number,
            id,
            bytes: &after.rest[..after.rest.len() - next.rest.len()],
        })?;
        behind = behind_end(next)?;
    }
    Ok(sections)
}
