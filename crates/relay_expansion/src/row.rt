//! The members that a walk meets.

/// How far the walk had come with a node.
#[derive(Clone, Copy, Debug, PartialEq, Eq)]
pub(crate) enum Standing {
    /// It hadn't come to it, or it is no entry.
    First,
    /// It was within it.
    Open,
    /// It had left it.
    Told,
}

/// A node that the walk met, as a member of an entry, or as one that was asked for.
#[derive(Clone, Copy)]
pub(crate) struct Row {
    pub(crate) parent: Option<u32>,
    pub(crate) node: u32,
    /// How many entries it lies in, one within the other.
    pub(crate) depth: usize,
    pub(crate) standing: Standing,
}
