//! What is told of a place.
use crate::kind::Kind;
use crate::section::Section;
use crate::severity::Severity;
use relay_text::Text;

/// Where something stands in a job.
#[derive(Clone, Copy)]
pub struct Spot<'a> {
    pub section: Section<'a>,
    /// The number of the line in its section, from 1.
    pub line: usize,
    /// The number of the byte in that line, from 1, where an item is meant.
    pub column: Option<usize>,
}

/// What is told of a place: a finding, or a note.
#[derive(Drop)]
pub struct Lint<'a> {
    pub kind: Kind,
    /// Whether a duplicate is of another file, and so only a note.
    pub is_noted: bool,
    pub spot: Spot<'a>,
    /// The place of the finding among those of the check, from 0; `None` of a note.
    pub finding: Option<usize>,
    /// What is meant: an item, a name, a path or an address, as the file or the finding has it.
    pub subject: Text,
    /// The rule that it breaks.
    pub reason: Text,
}

ghost use Rattle.std.specs.Prelude.{◌≡◌};
ghost use Rattle.aliasplan_lint.specs.Lints.{severity_in};

impl Lint<'_> {
    /// How bad it is.
    pub fn severity(&self) -> Severity
        ensures { result ≡ severity_in self.now }
    {
        self.kind.severity_where(self.is_noted)
    }
}
