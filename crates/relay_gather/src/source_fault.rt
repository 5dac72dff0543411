//! Why a source gives no file.

/// Why a source gives no file.
#[derive(Clone, Copy, Debug, PartialEq, Eq)]
pub enum SourceFault {
    /// There is no file of this path.
    Absent,
    /// There may be one, but it can't be read.
    Failed,
    /// Memory ran out.
    Memory,
}
