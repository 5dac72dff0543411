//! What `--verbose` says of a fault, behind the line that names it.
use crate::file_source::{MOST, open_file};
use relay_aliasfile::entry_list;
use relay_job::{
    LocatedLine, Place, RawLine, Reason, RunFault, envelope_reason, job_line_reason, setting_reason,
};
use relay_text::is_ignored;
use std::alloc::Global;
use std::io::Read;
use std::rt::Files;
use std::str;

/// Bytes as a message has them.
pub(crate) fn shown(text: &[u8]) -> &str {
    match str::from_utf8(text) {
        Ok(text) => text,
        Err(_) => "(not UTF-8)",
    }
}

/// The key that a line sets, or the whole of a line that sets none.
fn key_of(line: &[u8]) -> &[u8] {
    match line.split(|byte| *byte == b'=').next() {
        Some(key) => key.trim_ascii(),
        None => line,
    }
}

/// The line of a job that has this fault, and the rule that it breaks.
pub(crate) fn explain_job<R: Eprint + AllocGlobal>(rt: &R, job: &[u8], fault: RunFault) {
    match fault {
        RunFault::BadJob(number) => explain_job_line(rt, job, number),
        RunFault::BadSetting(number) => explain_setting(rt, job, number),
        RunFault::BadEnvelope(number) => explain_envelope(rt, job, number),
        _ => {}
    }
}

fn explain_job_line<R: Eprint>(rt: &R, job: &[u8], number: usize) {
    if let Some(line) = LocatedLine::find(job, number) {
        let reason = job_line_reason(line.text());
        let text = shown(line.text());
        let _ = eprintln!(rt; "aliasplan: line {number}: {reason}: {text}");
    }
}

fn explain_setting<R: Eprint + AllocGlobal>(rt: &R, job: &[u8], number: usize) {
    let Some(line) = LocatedLine::find(job, number) else {
        return;
    };
    let Ok(reason) = setting_reason(rt.alloc(), line.content()) else {
        return;
    };
    say_setting(rt, line.own_number, line.content(), reason);
    if reason == Reason::UnknownKey {
        explain_unknown_keys(rt, job, number, number.saturating_sub(line.own_number));
    }
}

fn say_setting<R: Eprint>(rt: &R, own: usize, line: &[u8], reason: Reason) {
    let key = shown(key_of(line));
    let _ = eprintln!(rt; "aliasplan: settings line {own}: {key}: {reason}");
}

/// The lines with unknown keys behind one in the settings, whose heading has this number: those of `postconf -n` may be many.
fn explain_unknown_keys<R: Eprint + AllocGlobal>(
    rt: &R,
    job: &[u8],
    number: usize,
    heading: usize,
) {
    let mut place = Place::start(job);
    while let Some((line, after)) = place.split() {
        place = after;
        if line.number > number {
            if line.is_heading() {
                return;
            }
            explain_unknown_key(rt, &line, heading);
        }
    }
}

fn explain_unknown_key<R: Eprint + AllocGlobal>(rt: &R, line: &RawLine<'_>, heading: usize) {
    if is_ignored(line.text()) {
        return;
    }
    if let Ok(Reason::UnknownKey) = setting_reason(rt.alloc(), line.text()) {
        let own = line.number.saturating_sub(heading);
        say_setting(rt, own, line.text(), Reason::UnknownKey);
    }
}

/// Whether the first line from that of this number on which isn't ignored in an alias file begins an entry there (aliases(5)).
fn begins_entry(alloc: Global, text: &[u8], number: usize) -> bool {
    let mut place = Place::start(text);
    while let Some((line, after)) = place.split() {
        place = after;
        if line.number >= number && !is_ignored(line.text()) {
            return !line.is_heading() && matches!(entry_list(alloc, line.text()), Ok(Some(_)));
        }
    }
    false
}

/// Says of a text that has this fault where it looks like an alias file in place of a job.
pub(crate) fn explain_alias_file<R: Eprint + AllocGlobal>(rt: &R, text: &[u8], fault: RunFault) {
    if let RunFault::BadJob(number) = fault {
        if begins_entry(rt.alloc(), text, number) {
            let _ = eprintln!(rt; "aliasplan: it looks like an alias file, which --aliases names");
        }
    }
}

fn explain_envelope<R: Eprint + AllocGlobal>(rt: &R, job: &[u8], number: usize) {
    let Ok(reason) = envelope_reason(rt.alloc(), job) else {
        return;
    };
    match LocatedLine::find(job, number) {
        Some(line) if line.own_number > 0 => {
            let own = line.own_number;
            let text = shown(line.content());
            let _ = eprintln!(rt; "aliasplan: envelope line {own}: {reason}: {text}");
        }
        _ => {
            let _ = eprintln!(rt; "aliasplan: envelope: {reason}");
        }
    }
}

/// Why the file of a path can't be read, as the system says it when it is asked again.
pub(crate) fn explain_file<R: Files + Eprint + AllocGlobal>(rt: &R, path: &[u8]) {
    let name = shown(path);
    let mut bytes = Vec::new(rt.alloc());
    let answer = match open_file(rt, path) {
        Ok(file) => file.take(MOST).read_to_end(&mut bytes),
        Err(error) => Err(error),
    };
    if let Err(error) = answer {
        let _ = eprintln!(rt; "aliasplan: {name}: {error}");
    }
}
