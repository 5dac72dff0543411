//! Comparisons by value.
use std::fmt::Debug;
use std::process::Abort;

/// The loans of an assertion are proved here once, and not again at each comparison.
pub(crate) fn expect<T: Copy + Debug + PartialEq>(rt: &impl Abort, found: T, wanted: T) {
    assert_eq!(rt; found, wanted);
}
