//! The sections of a job that can have faults.

/// A section of a job, or the include file of a path.
#[derive(Clone, Copy)]
pub enum Section<'a> {
    Settings,
    Aliases,
    Include(&'a [u8]),
    Mailboxes,
    Transport,
    Mx,
}
