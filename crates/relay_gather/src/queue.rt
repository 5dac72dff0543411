//! Include files in the order in which they are followed.
use relay_text::{Text, TextSet};
use std::alloc::{AllocError, Global};

/// Paths, each by its first mention.
#[derive(Drop)]
pub struct Queue {
    paths: Vec<Text>,
    seen: TextSet,
}

ghost use Rattle.std.specs.Prelude.{◌≡◌, ◌<◌, ◌^◌, ℕ, List, [], length, slice_index_or, OnOk};
ghost use Rattle.relay_aliasfile.specs.DistinctTexts.{with_text, with_texts};
ghost use Rattle.relay_gather.specs.Queue.{HasSeen};

impl Queue {
    /// No paths, without taking memory.
    pub(crate) fn new(alloc: Global) -> Queue
        ensures none { result.paths.items ≡ [] }
        ensures seen { HasSeen result }
    {
        Queue {
            paths: Vec::new(alloc),
            seen: TextSet::new(alloc),
        }
    }

    /// How many paths there are.
    pub(crate) fn len(&self) -> usize
        ensures { result ≡ length self.now.paths.items }
    {
        self.paths.len()
    }

    /// The path at a place.
    pub(crate) fn path(&self, place: usize) -> &[u8]
        requires { place < length self.now.paths.items }
        ensures { result.now ≡ slice_index_or self.now.paths.items place result.now }
    {
        self.paths[place].as_bytes()
    }

    /// Puts a path at the end, where it isn't there already.
    fn add(&mut self, alloc: Global, path: &[u8]) -> Result<(), AllocError>
        requires { HasSeen self.old }
        ensures paths { OnOk result (self.new.paths.items ≡ with_text self.old.paths.items path.now) }
        ensures seen { OnOk result (HasSeen self.new) }
    {
        if self.seen.insert(Vec::from_slice(alloc, path)?)? {
            self.paths.push(Text::of(Vec::from_slice(alloc, path)?))?;
        }
        Ok(())
    }

    /// Puts paths at the end, those that aren't there already.
    pub(crate) fn add_all(&mut self, alloc: Global, paths: &[Text]) -> Result<(), AllocError>
        requires { HasSeen self.old }
        ensures paths { OnOk result (self.new.paths.items ≡ with_texts self.old.paths.items paths.now) }
        ensures seen { OnOk result (HasSeen self.new) }
        ensures few { length self.new.paths.items < 2 ^ 63 }
    {
        for path in paths {
            self.add(alloc, path.as_bytes())?;
        }
        Ok(())
    }
}
