//! What `--verbose` says of bad items, behind a plan or a check that has findings.
use crate::bad_lists::BadLists;
use relay_aliasfile::{bad_items, item_reason};
use relay_job::{Job, parse_tables};
use relay_text::logical_lines;
use std::alloc::{AllocError, Global};

/// Each bad item of a job's alias file and include files and the rule that it breaks, in the order of their findings. Where memory
/// runs out no more is said.
pub(crate) fn explain_items<R: Eprint + AllocGlobal>(rt: &R, bytes: &[u8]) {
    let Ok(job) = parse_tables(rt.alloc(), bytes) else {
        return;
    };
    let _ = explain_files(rt, &job);
}

fn explain_files<R: Eprint + AllocGlobal>(rt: &R, job: &Job) -> Result<(), AllocError> {
    let alloc = rt.alloc();
    let lines = logical_lines(alloc, job.aliases.as_bytes())?;
    let lists = BadLists::of(alloc, job, lines.lines.as_slice())?;
    for (place, list) in lists.into_places() {
        explain_list(rt, place.as_slice(), list)?;
    }
    Ok(())
}

/// A text as a terminal can show it: U+FFFD stands for bytes that aren't UTF-8, and for control characters other than tabs.
fn shown_text(alloc: Global, bytes: &[u8]) -> Result<String, AllocError> {
    let text = String::from_utf8_lossy(alloc, bytes)?;
    let mut shown = String::new(alloc);
    for character in text.chars() {
        if character.is_control() && character != '\t' {
            shown.push(char::REPLACEMENT_CHARACTER)?;
        } else {
            shown.push(character)?;
        }
    }
    Ok(shown)
}

/// The bad items of the list at a place.
fn explain_list<R: Eprint + AllocGlobal>(
    rt: &R,
    place: &[u8],
    list: &[u8],
) -> Result<(), AllocError> {
    let alloc = rt.alloc();
    let place = shown_text(alloc, place)?;
    for text in bad_items(alloc, list)? {
        let item = shown_text(alloc, text)?;
        if let Some(reason) = item_reason(alloc, text)? {
            let _ = eprintln!(rt; "aliasplan: {place}: {item}: {reason}");
        }
    }
    Ok(())
}
