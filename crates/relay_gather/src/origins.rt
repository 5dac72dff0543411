//! Which lines of a section are those of which file.
ghost use Rattle.std.specs.Prelude.{◌≡◌, ◌≤◌, ◌+◌, ℕ, List, length, map, option_map, option_to_list, IfOk, IfErr};
ghost use Rattle.relay_text.specs.Lines.{raw_lines};
ghost use Rattle.relay_gather.specs.Source.{Tells, Refuses};
ghost use Rattle.relay_gather.specs.Origins.{counted_in, origin_in, AreOrigins, IsUncounted};

use crate::fetching::fetched_file;
use crate::file_lines::FileLines;
use crate::paths::Paths;
use crate::source::Source;
use relay_job::RunFault;
use relay_text::{Seq, Text, split_line};
use std::alloc::{AllocError, Global};

/// The files of each section that is made of named files, in the order in which they stand there. An include file's section is that file.
#[derive(Drop)]
pub struct Origins {
    pub settings: Seq<FileLines>,
    pub aliases: Seq<FileLines>,
    pub mailboxes: Seq<FileLines>,
    pub transport: Seq<FileLines>,
    pub mx: Seq<FileLines>,
}

/// How many lines a text has; the last may lack its end.
fn line_count(text: &[u8]) -> usize
    ensures { result ≡ length (raw_lines text.now) }
{
    let mut rest = text;
    let mut count = 0;
    while let Some((_, after)) = split_line(rest) {
        rest = after;
        count += 1;
    }
    count
}

/// How many lines the file of a path has.
fn counted<D: Source>(alloc: Global, source: &mut D, path: &Text) -> Result<FileLines, RunFault>
    ensures lines { IfOk result (λ file. Tells (D.answer source.old) → file ≡ counted_in (D.answer source.old) path.now) }
    ensures err { IfErr result (Refuses (D.answer source.old) (IsUncounted (D.answer source.old))) }
    ensures alike { (p : List ℕ) → D.answer source.new p ≡ D.answer source.old p }
{
    let file = fetched_file(alloc, source, path.as_bytes())?;
    Ok(FileLines {
        path: Text::copy_of(alloc, path.as_bytes())?,
        lines: line_count(file.as_slice()),
    })
}

/// How many lines each file has of those that one section has.
fn counted_all<D: Source>(
    alloc: Global,
    source: &mut D,
    paths: &[Text],
) -> Result<Seq<FileLines>, RunFault>
    ensures lines { IfOk result (λ files. Tells (D.answer source.old) → files ≡ map (counted_in (D.answer source.old)) paths.now) }
    ensures err { IfErr result (Refuses (D.answer source.old) (IsUncounted (D.answer source.old))) }
    ensures alike { (p : List ℕ) → D.answer source.new p ≡ D.answer source.old p }
{
    let mut files = Vec::with_capacity(alloc, paths.len())?;
    for path in paths {
        files.push(counted(alloc, source, path)?)?;
    }
    Ok(Seq::of(files))
}

/// The same of a section of one file, or of none.
fn counted_one<D: Source>(
    alloc: Global,
    source: &mut D,
    path: &Option<Text>,
) -> Result<Seq<FileLines>, RunFault>
    ensures lines { IfOk result (λ files. Tells (D.answer source.old) → files ≡ map (counted_in (D.answer source.old)) (option_to_list path.now)) }
    ensures err { IfErr result (Refuses (D.answer source.old) (IsUncounted (D.answer source.old))) }
    ensures alike { (p : List ℕ) → D.answer source.new p ≡ D.answer source.old p }
{
    let mut files = Vec::new(alloc);
    if let Some(path) = path {
        files.push(counted(alloc, source, path)?)?;
    }
    Ok(Seq::of(files))
}

/// Of each section that is made of named files, which lines are those of which file, where `gathered_text` makes the text of these
/// paths. The source is asked again for each named file, so it has to keep what may change.
///
/// `Read` where a named file is absent or fails, `Memory` where memory runs out.
pub fn gathered_origins<D: Source>(
    alloc: Global,
    source: &mut D,
    paths: &Paths,
) -> Result<Origins, RunFault>
    ensures origins { IfOk result (λ origins. Tells (D.answer source.old) → AreOrigins (D.answer source.old) paths.now origins) }
    ensures refused { IfErr result (Refuses (D.answer source.old) (IsUncounted (D.answer source.old))) }
{
    let settings = counted_one(alloc, source, &paths.settings)?;
    let aliases = counted_all(alloc, source, paths.aliases.as_slice())?;
    let mailboxes = counted_one(alloc, source, &paths.mailboxes)?;
    let transport = counted_all(alloc, source, paths.transport.as_slice())?;
    let mx = counted_one(alloc, source, &paths.mx)?;
    Ok(Origins {
        settings,
        aliases,
        mailboxes,
        transport,
        mx,
    })
}

/// The file of a line of a section, and the line's number there, from 1; of the section's lines so many stand before it. `None` where the
/// section has fewer.
pub fn origin_of(files: &[FileLines], before: usize) -> Option<(&[u8], usize)>
    ensures { option_map (λ origin. (origin.0.now, origin.1)) result ≡ origin_in files.now before }
{
    let mut left = before;
    for file in files {
        if left < file.lines {
            return Some((file.path.as_bytes(), left + 1));
        }
        left -= file.lines;
    }
    None
}
