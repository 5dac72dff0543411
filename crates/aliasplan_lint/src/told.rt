//! What is told, counted, and as text in its order.
use crate::kind::Kind;
use crate::lint::Lint;
use crate::options::LintCounts;
use crate::places::{FilePlace, file_place};
use crate::severity::Severity;
use itoa::Buffer;
use relay_gather::Origins;
use relay_text::{Text, same_bytes};
use std::alloc::{AllocError, Global};

/// The line of a lint, behind what it is sorted by: file, line, column and kind, and last the order in which it was found.
#[derive(PartialEq, Eq, PartialOrd, Ord, Drop)]
pub(crate) struct LintLine<'a> {
    file: FilePlace<'a>,
    column: usize,
    kind: Kind,
    place: usize,
    pub(crate) text: Vec<u8>,
}

ghost use Rattle.std.specs.Prelude.{◌≡◌, ◌++◌, ◌∷◌, [], length, map, filter, decimal, option_map, IfOk, OnOk};
ghost use Rattle.std.specs.List.{concat};
ghost use Rattle.aliasplan_lint.specs.Lints.{has_severity, severity_in, AreCounts};
ghost use Rattle.aliasplan_lint.specs.Texts.{column_text, lint_line, place_text, place_value, shown, text_at, words_text, IsLintText};

/// How many of these are so bad.
fn count_of(lints: &[Lint<'_>], severity: Severity) -> usize
    ensures { result ≡ length (filter (has_severity severity) lints.now) }
{
    let mut count = 0;
    for lint in lints {
        if same_bytes(lint.severity().word(), severity.word()) {
            count += 1;
        }
    }
    count
}

/// How many there are of each severity.
pub(crate) fn counts(lints: &[Lint<'_>]) -> LintCounts
    ensures { AreCounts result lints.now }
{
    LintCounts {
        errors: count_of(lints, Severity::Error),
        warnings: count_of(lints, Severity::Warning),
        notes: count_of(lints, Severity::Note),
    }
}

/// Puts a colon and a number.
fn put_number(number: usize, out: &mut Vec<u8>) -> Result<(), AllocError>
    ensures { OnOk result (out.new.items ≡ out.old.items ++ 58 ∷ decimal number) }
{
    out.push(b':')?;
    out.extend_from_slice(Buffer::new().format(number).as_bytes())
}

/// Puts a text as a terminal can show it: `?` stands for control characters other than tabs.
fn put_shown(text: &[u8], out: &mut Vec<u8>) -> Result<(), AllocError>
    ensures { OnOk result (out.new.items ≡ out.old.items ++ shown text.now) }
{
    for byte in text {
        if (*byte < 32 && *byte != b'\t') || *byte == 127 {
            out.push(b'?')?;
        } else {
            out.push(*byte)?;
        }
    }
    Ok(())
}

/// Puts a place in a file.
fn put_place(
    place: &FilePlace<'_>,
    column: Option<usize>,
    out: &mut Vec<u8>,
) -> Result<(), AllocError>
    ensures { OnOk result (out.new.items ≡ out.old.items ++ place_text (place_value place.now) column) }
{
    out.extend_from_slice(place.before)?;
    put_shown(place.path, out)?;
    put_number(place.line, out)?;
    match column {
        Some(column) => put_number(column, out),
        None => Ok(()),
    }
}

/// Puts words behind a colon, where there are some.
fn put_words(words: &[u8], out: &mut Vec<u8>) -> Result<(), AllocError>
    ensures { OnOk result (out.new.items ≡ out.old.items ++ words_text words.now) }
{
    if words.is_empty() {
        return Ok(());
    }
    out.extend_from_slice(b": ")?;
    put_shown(words, out)
}

/// The line of a lint at a place in a file.
fn text_at(alloc: Global, file: &FilePlace<'_>, lint: &Lint<'_>) -> Result<Vec<u8>, AllocError>
    ensures { IfOk result (λ text. text.items ≡ text_at (place_value file.now) lint.now) }
{
    let mut out = Vec::new(alloc);
    put_place(file, lint.spot.column, &mut out)?;
    out.extend_from_slice(b": ")?;
    out.extend_from_slice(lint.severity().word())?;
    out.extend_from_slice(b": ")?;
    out.extend_from_slice(lint.kind.word())?;
    put_words(lint.subject.as_bytes(), &mut out)?;
    put_words(lint.reason.as_bytes(), &mut out)?;
    out.push(b'\n')?;
    Ok(out)
}

/// The line of a lint, which is found as the one of this place.
fn line_of<'a>(
    alloc: Global,
    origins: Option<&'a Origins>,
    lint: &'a Lint<'a>,
    place: usize,
) -> Result<LintLine<'a>, AllocError>
    ensures { IfOk result (λ line. line.text.items ≡ lint_line (option_map (λ o. o.now) origins.entry) lint.now) }
{
    let file = file_place(origins, lint.spot.section, lint.spot.line);
    let text = text_at(alloc, &file, lint)?;
    Ok(LintLine {
        file,
        column: lint.spot.column.unwrap_or(0),
        kind: lint.kind,
        place,
        text,
    })
}

/// The lines of lints.
fn lint_lines<'a>(
    alloc: Global,
    origins: Option<&'a Origins>,
    lints: &'a [Lint<'a>],
) -> Result<Vec<LintLine<'a>>, AllocError>
    ensures { IfOk result (λ lines. map (λ line. line.text.items) lines.items ≡ map (lint_line (option_map (λ o. o.now) origins.entry)) lints.now) }
{
    let mut lines = Vec::with_capacity(alloc, lints.len())?;
    for lint in lints {
        let place = lines.len();
        lines.push(line_of(alloc, origins, lint, place)?)?;
    }
    Ok(lines)
}

/// Lines one behind the other.
fn joined(alloc: Global, lines: &[LintLine<'_>]) -> Result<Vec<u8>, AllocError>
    ensures { IfOk result (λ text. text.items ≡ concat (map (λ line. line.text.items) lines.now)) }
{
    let mut out = Vec::new(alloc);
    for line in lines {
        out.extend_from_slice(line.text.as_slice())?;
    }
    Ok(out)
}

/// The text of these in their order: by files, lines, columns and kinds.
pub(crate) fn lint_text(
    alloc: Global,
    origins: Option<&Origins>,
    lints: &[Lint<'_>],
) -> Result<Text, AllocError>
    ensures { IfOk result (λ text. IsLintText (option_map (λ o. o.now) origins.entry) lints.now text) }
{
    let mut lines = lint_lines(alloc, origins, lints)?;
    lines.sort_unstable();
    Ok(Text::of(joined(alloc, lines.as_slice())?))
}
