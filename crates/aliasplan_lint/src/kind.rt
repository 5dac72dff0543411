//! Kinds of what is told of files.

/// What is told of a place in a file, in the order of the words that say it (docs/FORMATS.md, "The lines of findings").
#[derive(Clone, Copy, Debug, PartialEq, Eq, PartialOrd, Ord)]
pub enum Kind {
    BadItem,
    BadLine,
    Command,
    Duplicate,
    Empty,
    File,
    Loop,
    Missing,
    NoInclude,
    /// A setting that Postfix reads otherwise, which is no finding.
    Setting,
    Unrouted,
}

ghost use Rattle.std.specs.Prelude.{◌≡◌};
ghost use Rattle.relay_text.specs.Bytes.{begins_with};
ghost use Rattle.aliasplan_lint.specs.Kinds.{kind_word, severity_of, severity_where, line_kind, kind_of, kind_in, fault_kind, later_kind, last_kind, words_in, is_kind};

use crate::severity::Severity;
use relay_text::same_bytes;
use relay_wire::{Finding, LineWord};

/// Whether words begin with a text.
fn begins(front: &[u8], words: &[u8]) -> bool
    ensures { result ≡ begins_with front.now words.now }
{
    words.starts_with(front)
}

/// What stands behind `finding ` in a line.
fn words_in(line: &[u8]) -> &[u8]
    ensures { result.now ≡ words_in line.now }
{
    match line.strip_prefix(b"finding ") {
        Some(words) => words,
        None => line,
    }
}

impl Kind {
    /// The word that says it.
    pub fn word(self) -> &'static [u8]
        ensures { result.now ≡ kind_word self }
    {
        match self {
            Kind::BadItem => b"baditem",
            Kind::BadLine => b"badline",
            Kind::Command => b"command",
            Kind::Duplicate => b"duplicate",
            Kind::Empty => b"empty",
            Kind::File => b"file",
            Kind::Loop => b"loop",
            Kind::Missing => b"missing",
            Kind::NoInclude => b"noinclude",
            Kind::Setting => b"setting",
            Kind::Unrouted => b"unrouted",
        }
    }

    /// Whether a kind is another, which is the one of its word.
    pub(crate) fn is(self, other: Kind) -> bool
        ensures { result ≡ is_kind self other }
    {
        same_bytes(self.word(), other.word())
    }

    /// How bad it is, but for a name that a later alias file has again, which is a note.
    pub fn severity(self) -> Severity
        ensures { result ≡ severity_of self }
    {
        match self {
            Kind::BadItem
            | Kind::BadLine
            | Kind::Loop
            | Kind::Missing
            | Kind::NoInclude
            | Kind::Unrouted => Severity::Error,
            Kind::Duplicate | Kind::Empty => Severity::Warning,
            Kind::Command | Kind::File | Kind::Setting => Severity::Note,
        }
    }

    /// The same where what is told may be only noted: a duplicate of a name that stands in another file.
    pub(crate) fn severity_where(self, is_noted: bool) -> Severity
        ensures { result ≡ severity_where self is_noted }
    {
        match self {
            Kind::Duplicate if is_noted => Severity::Note,
            _ => self.severity(),
        }
    }

    /// The kind that the line of a finding says: its first word, or of the fault of a line its last.
    pub(crate) fn of_line(line: &[u8]) -> Kind
        ensures { result ≡ kind_in line.now }
    {
        let words = words_in(line);
        if begins(b"command ", words) {
            Kind::Command
        } else if begins(b"empty ", words) {
            Kind::Empty
        } else if begins(b"file ", words) {
            Kind::File
        } else {
            Kind::of_later(words)
        }
    }

    /// The same of words that begin with none of these.
    fn of_later(words: &[u8]) -> Kind
        ensures { result ≡ later_kind words.now }
    {
        if begins(b"loop ", words) {
            Kind::Loop
        } else if begins(b"missing ", words) {
            Kind::Missing
        } else {
            Kind::of_last(words)
        }
    }

    /// The same of words that begin with none of these either.
    fn of_last(words: &[u8]) -> Kind
        ensures { result ≡ last_kind words.now }
    {
        if begins(b"noinclude ", words) {
            Kind::NoInclude
        } else if begins(b"unrouted ", words) {
            Kind::Unrouted
        } else {
            Kind::of_fault(words)
        }
    }

    /// The kind that the last word of the fault of a line says.
    fn of_fault(words: &[u8]) -> Kind
        ensures { result ≡ fault_kind words.now }
    {
        if words.ends_with(b" baditem") {
            Kind::BadItem
        } else if words.ends_with(b" duplicate") {
            Kind::Duplicate
        } else if words.ends_with(b" empty") {
            Kind::Empty
        } else {
            Kind::BadLine
        }
    }

    /// The kind of a fault of a line.
    fn of_word(word: LineWord) -> Kind
        ensures { result ≡ line_kind word }
    {
        match word {
            LineWord::BadLine => Kind::BadLine,
            LineWord::BadItem => Kind::BadItem,
            LineWord::Duplicate => Kind::Duplicate,
            LineWord::Empty => Kind::Empty,
        }
    }

    /// The kind of a finding.
    pub(crate) fn of(finding: &Finding) -> Kind
        ensures { result ≡ kind_of finding.now }
    {
        match finding {
            Finding::Missing(_, _) => Kind::Missing,
            Finding::NoInclude(_, _) => Kind::NoInclude,
            Finding::File(_, _) => Kind::File,
            Finding::Command(_, _) => Kind::Command,
            Finding::EmptyAlias(_) | Finding::EmptyInclude(_) => Kind::Empty,
            Finding::LoopAlias(_) | Finding::LoopInclude(_) => Kind::Loop,
            Finding::Unrouted(_, _) => Kind::Unrouted,
            Finding::Aliases(_, word) | Finding::Mailboxes(_, word) => Kind::of_word(*word),
            Finding::Include(_, _, word) => Kind::of_word(*word),
            Finding::Mx(_, word) | Finding::Transport(_, word) => Kind::of_word(*word),
        }
    }
}
