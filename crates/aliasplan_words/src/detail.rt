//! How closely a fault is told.

/// How much is said of a fault.
#[derive(Clone, Copy, Debug, PartialEq, Eq)]
pub enum Detail {
    /// One line that names it.
    Line,
    /// Behind it, the line or the file that has the fault.
    Culprit,
}
