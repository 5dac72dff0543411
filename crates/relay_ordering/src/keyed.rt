//! What values are sorted by.

/// A value beside the written path of its sender, by which it is sorted.
#[derive(Drop)]
#[derive_where(PartialEq, Eq, PartialOrd, Ord)]
pub(crate) struct Keyed<T> {
    pub(crate) path: Vec<u8>,
    #[derive_where(skip)]
    pub(crate) value: T,
}
