//! The sections of envelopes.

/// The section of one envelope among many.
#[derive(Clone, Copy)]
pub struct EnvelopeSection<'a> {
    /// The number of its heading.
    pub line: usize,
    /// Bytes 33 to 126, at least one.
    pub id: &'a [u8],
    /// Its lines as they stand.
    pub bytes: &'a [u8],
}
