//! The words by which times are asked for.
ghost use Rattle.std.specs.Prelude.{◌≡◌, false, IfOk};

use anyhow::{Context, Result};
use std::env::Args;
use std::iter::Skip;

/// What the words `bench N` ask for.
#[derive(Clone, Copy)]
pub struct BenchWords {
    /// Whether times are wanted: the first word is `bench`.
    pub timed: bool,
    /// How many things are to be timed.
    pub count: u32,
}

impl BenchWords {
    /// Reads the first two words. Where no N stands behind `bench`, the count is `few`.
    pub fn read(words: &mut Skip<Args>, few: u32) -> Result<BenchWords>
        ensures { IfOk result (λ given. given.timed ≡ false → given.count ≡ few) }
    {
        let timed = words.next().is_some_and(|word| word.as_str() == "bench");
        let count = match words.next() {
            Some(word) if timed => word.as_str().parse::<u32>().context("reading N")?,
            _ => few,
        };
        Ok(BenchWords { timed, count })
    }
}

/// Whether what has this name is wanted: each is where no name is chosen.
pub fn is_wanted(chosen: Option<&str>, name: &str) -> bool {
    match chosen {
        Some(chosen) => chosen == name,
        None => true,
    }
}
