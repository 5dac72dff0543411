//! What is wrong with the lines of a table.

/// What is wrong with a line of a table.
#[derive(Clone, Copy, Debug, PartialEq, Eq)]
pub enum FaultKind {
    /// The line is no line of its table.
    BadLine,
    /// An earlier line of the transport table has the same pattern, and holds.
    Duplicate,
}

/// A fault, at the line where it stands.
#[derive(Clone, Copy, Debug, PartialEq, Eq)]
pub struct LineFault {
    /// The number of the line's first physical line, from 1; ignored lines count too.
    pub line: usize,
    pub kind: FaultKind,
}
