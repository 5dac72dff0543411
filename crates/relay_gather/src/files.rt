//! Files that one section has, one behind the other.
ghost use Rattle.std.specs.Prelude.{◌≡◌, ◌++◌, ℕ, List, IfOk, IfErr, OnOk};
ghost use Rattle.relay_job.specs.declared.fault.RunFault.TheVariants.{Read};
ghost use Rattle.relay_gather.specs.Source.{Tells, Refuses, file};
ghost use Rattle.relay_gather.specs.Fetching.{IsNoFile};
ghost use Rattle.relay_gather.specs.Sections.{with_end};
ghost use Rattle.relay_gather.specs.JoinedFiles.{begins_white, is_beginning, is_continuing, apart_line, apart, joined_files};

use crate::fetching::fetched_file;
use crate::source::Source;
use relay_job::RunFault;
use relay_text::{Text, is_ignored, line_text, split_line};
use std::alloc::{AllocError, Global};

fn begins_white(line: &[u8]) -> bool
    ensures { result ≡ begins_white line.now }
{
    line.starts_with(b" ") || line.starts_with(b"\t")
}

/// Whether a physical line is the first of a logical line.
fn is_beginning(line: &[u8]) -> bool
    ensures { result ≡ is_beginning line.now }
{
    !begins_white(line) && !is_ignored(line_text(line))
}

/// Whether a physical line continues the logical line before it.
fn is_continuing(line: &[u8]) -> bool
    ensures { result ≡ is_continuing line.now }
{
    begins_white(line) && !is_ignored(line_text(line))
}

/// Puts the LF at the end that the last line may lack.
fn put_end(text: &mut Vec<u8>) -> Result<(), AllocError>
    ensures { OnOk result (text.new.items ≡ with_end text.old.items) }
{
    if !text.is_empty() && !text.ends_with(b"\n") {
        text.push(b'\n')?;
    }
    Ok(())
}

/// Puts a line at the end, as a comment where it would continue a line that stands there.
fn put_line(text: &mut Vec<u8>, line: &[u8]) -> Result<(), AllocError>
    ensures { OnOk result (text.new.items ≡ text.old.items ++ apart_line line.now) }
{
    if is_continuing(line) {
        text.push(b'#')?;
    }
    text.extend_from_slice(line)
}

/// Puts the lines of a file at the end; those that would continue a line of a file before are comments there.
fn put_lines(text: &mut Vec<u8>, file: &[u8]) -> Result<(), AllocError>
    ensures { OnOk result (text.new.items ≡ text.old.items ++ apart file.now) }
{
    let mut rest = file;
    while let Some((line, after)) = split_line(rest) {
        if is_beginning(line) {
            return text.extend_from_slice(rest);
        }
        put_line(text, line)?;
        rest = after;
    }
    Ok(())
}

/// The contents of the files of these paths, each of which is to be there: the later ones behind the first. Each has the LF that its last
/// line may lack, but for the last of them; a line that begins a later file and would continue a line of a file before is a comment.
pub(crate) fn joined_file<D: Source>(
    alloc: Global,
    source: &mut D,
    first: &Text,
    later: &[Text],
) -> Result<Vec<u8>, RunFault>
    ensures file { IfOk result (λ bytes. Tells (D.answer source.old) → joined_files (D.answer source.old) (D.answer source.old first.now) later.now ≡ file bytes.items) }
    ensures err { IfErr result (Refuses (D.answer source.old) (λ fault. (fault ≡ Read) × IsNoFile (joined_files (D.answer source.old) (D.answer source.old first.now) later.now))) }
    ensures alike { (p : List ℕ) → D.answer source.new p ≡ D.answer source.old p }
{
    let mut text = fetched_file(alloc, source, first.as_bytes())?;
    for path in later {
        let next = fetched_file(alloc, source, path.as_bytes())?;
        put_end(&mut text)?;
        put_lines(&mut text, next.as_slice())?;
    }
    Ok(text)
}
