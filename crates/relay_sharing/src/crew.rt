//! Who takes part in shared work.
use std::alloc::Global;

/// The threads, their memory, and how many of them take part, the calling one among them. None of that changes an answer.
#[derive(Clone, Copy, Drop)]
pub struct Crew<'a, R> {
    pub rt: &'a R,
    pub alloc: Global,
    pub workers: usize,
}
