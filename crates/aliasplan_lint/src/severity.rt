//! How bad something is.

/// How bad what is told is: with an error the files are refused, with a warning where that is asked for, and with a note never.
#[derive(Clone, Copy, Debug, PartialEq, Eq)]
pub enum Severity {
    Error,
    Warning,
    Note,
}

ghost use Rattle.std.specs.Prelude.{◌≡◌};
ghost use Rattle.aliasplan_lint.specs.Severities.{severity_word};

impl Severity {
    /// The word that says it.
    pub fn word(self) -> &'static [u8]
        ensures { result.now ≡ severity_word self }
    {
        match self {
            Severity::Error => b"error",
            Severity::Warning => b"warning",
            Severity::Note => b"note",
        }
    }
}
