//! How far a check goes.

/// What of files and tables is checked.
#[derive(Clone, Copy, Debug, PartialEq, Eq)]
pub enum Scope {
    /// Their lines.
    Texts,
    /// Also where every alias leads.
    Aliases,
}
