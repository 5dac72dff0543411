//! What goes out under which sender.

/// A sender and a recipient that the message goes to under it, by their numbers. The order is that of a plan where both are numbered in
/// it.
#[derive(Clone, Copy, Debug, PartialEq, Eq, PartialOrd, Ord)]
pub struct Delivery {
    pub sender: u32,
    pub recipient: u32,
}
