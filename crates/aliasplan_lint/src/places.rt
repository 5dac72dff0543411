//! Places in files.
use crate::section::Section;
use relay_gather::{FileLines, Origins, origin_of};

/// A line of a file, or of a section of a job that has no files, named by the section's words: what stands before a path, and the path.
#[derive(Clone, Copy, Debug, PartialEq, Eq, PartialOrd, Ord)]
pub(crate) struct FilePlace<'a> {
    pub(crate) before: &'a [u8],
    pub(crate) path: &'a [u8],
    pub(crate) line: usize,
}

ghost use Rattle.std.specs.Prelude.{◌≡◌, option_map};
ghost use Rattle.aliasplan_lint.specs.Texts.{file_place_in, place_in_files, place_in_text, place_value, placed_in};

/// A line of a section that has these files, and else these words.
fn placed<'a>(words: &'a [u8], files: &'a [FileLines], line: usize) -> FilePlace<'a>
    ensures { place_value result ≡ placed_in words.now files.now line }
{
    match origin_of(files, line.saturating_sub(1)) {
        Some((path, line)) => named(b"", path, line),
        None => named(words, b"", line),
    }
}

/// The line of the file where a line of a section stands, of a job whose files are known.
fn place_in_files<'a>(origins: &'a Origins, section: Section<'a>, line: usize) -> FilePlace<'a>
    ensures { place_value result ≡ place_in_files origins.now section.entry line }
{
    match section {
        Section::Settings => placed(b"settings", origins.settings.as_slice(), line),
        Section::Aliases => placed(b"aliases", origins.aliases.as_slice(), line),
        Section::Include(path) => named(b"", path, line),
        Section::Mailboxes => placed(b"mailboxes", origins.mailboxes.as_slice(), line),
        Section::Transport => placed(b"transport", origins.transport.as_slice(), line),
        Section::Mx => placed(b"mx", origins.mx.as_slice(), line),
    }
}

/// A line of a section or an include file, by its name and number in a job.
fn named<'a>(before: &'a [u8], path: &'a [u8], line: usize) -> FilePlace<'a>
    ensures { place_value result ≡ record { before = before.now; path = path.now; line = line } }
{
    FilePlace { before, path, line }
}

/// The line of a section of a job that is one text.
fn place_in_text(section: Section<'_>, line: usize) -> FilePlace<'_>
    ensures { place_value result ≡ place_in_text section.entry line }
{
    match section {
        Section::Settings => named(b"settings", b"", line),
        Section::Aliases => named(b"aliases", b"", line),
        Section::Include(path) => named(b"include ", path, line),
        Section::Mailboxes => named(b"mailboxes", b"", line),
        Section::Transport => named(b"transport", b"", line),
        Section::Mx => named(b"mx", b"", line),
    }
}

/// The line where a line of a section stands: that of its file, where the files are known.
pub(crate) fn file_place<'a>(
    origins: Option<&'a Origins>,
    section: Section<'a>,
    line: usize,
) -> FilePlace<'a>
    ensures { place_value result ≡ file_place_in (option_map (λ o. o.now) origins.entry) section.entry line }
{
    match origins {
        Some(origins) => place_in_files(origins, section, line),
        None => place_in_text(section, line),
    }
}
