//! Zeros that are kept.
ghost use Rattle.std.specs.Prelude.{◌≡◌, ◌≤◌, All, length, replicate, OnOk};

use std::alloc::{AllocError, Global};

/// As many zeros as any round needed so far: they are never written, so they serve the next one too.
#[derive(Drop)]
pub(crate) struct Zeros {
    words: Vec<u64>,
    ghost all_zero: { All (λ word. word ≡ 0) words.items },
}

impl Zeros {
    pub(crate) fn new(alloc: Global) -> Zeros {
        Zeros {
            words: Vec::new(alloc),
        }
    }

    /// Makes so many of them, where there are fewer.
    pub(crate) fn grow(&mut self, count: usize) -> Result<(), AllocError>
        ensures { OnOk result (count ≤ length self.new.words.items) }
    {
        if self.words.len() < count {
            self.words.resize(count, 0)?;
        }
        Ok(())
    }

    /// So many of them.
    pub(crate) fn first(&self, count: usize) -> &[u64]
        requires { count ≤ length self.now.words.items }
        ensures { result.now ≡ replicate count 0 }
    {
        &self.words[..count]
    }
}
