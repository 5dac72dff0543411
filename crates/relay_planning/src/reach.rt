//! What a job reaches of its graph.

/// Numbers of nodes: those that are reached, and those of them that are on a loop.
#[derive(Clone, Copy)]
pub struct Reach<'a> {
    pub nodes: &'a [u32],
    pub loops: &'a [u32],
}
