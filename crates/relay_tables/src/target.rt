//! What a local name stands for.

/// What a local name stands for (local(8), "aliases" before mailboxes).
#[derive(Clone, Copy, Debug, PartialEq, Eq)]
pub enum Target {
    /// The entry of the alias table with this number, from 0.
    Alias(u32),
    /// The mailbox of the whole name, extension kept.
    Mailbox,
    /// Neither.
    Missing,
}
