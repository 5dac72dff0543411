//! A trail that was found.

/// The sender under which the asked node is reached, and the trail there: the number of a recipient of the envelope, and the numbers
/// of the items that are gone through after it, of the recipient's target first. All count from 0. Beside them the nodes on the way, by
/// their numbers: the recipient's target, and the target of each item.
#[derive(Debug, Drop, PartialEq, Eq)]
pub struct Found {
    pub sender: u32,
    pub recipient: usize,
    pub items: Vec<usize>,
    pub nodes: Vec<u32>,
}
