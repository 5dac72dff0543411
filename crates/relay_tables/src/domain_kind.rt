//! What domains are to the tables.

/// What a domain is to the tables.
#[derive(Clone, Copy)]
pub(crate) enum DomainKind {
    /// The domain of a name that has none, at which mailboxes are written.
    Origin,
    /// Another local domain.
    Local,
    /// None of the local domains.
    Remote,
}
