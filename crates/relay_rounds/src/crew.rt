//! Who takes part in a search.
ghost use Rattle.std.specs.Prelude.{◌≤◌};

use std::alloc::Global;

/// What a search is handed: its threads, of which so many share a round, the calling one among them, and each takes so many keys at once. Each
/// enters the gate before it does. Numbers of buckets hang on the salt: where strangers choose the keys, it is drawn at random. None of that
/// changes what is found.
#[derive(Drop)]
pub struct Crew<'a, G, R> {
    pub rt: &'a R,
    pub alloc: Global,
    pub workers: usize,
    pub cut: usize,
    pub salt: u64,
    pub gate: &'a G,
    ghost some_worker: { 1 ≤ workers },
    ghost some_key: { 1 ≤ cut },
}
