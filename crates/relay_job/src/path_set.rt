//! Paths of include files, each once.
use crate::hashed_path::HashedPath;
use std::alloc::{AllocError, Global};
use std::collections::BTreeSet;
use std::marker::Model;

/// Paths, each once. Who writes a job can give many paths one hash: they are then told apart by their bytes, and an order bounds the
/// work, where the places of a hash table could be made to collide.
#[derive(Drop)]
pub struct PathSet<'a> {
    paths: BTreeSet<HashedPath<'a>>,
}

impl<'a> Model for PathSet<'a> {
    ghost use Rattle.std.specs.Prelude.{List, ℕ};
    ghost use Rattle.relay_job.specs.PathSets.{paths_of};

    ghost Value = { List (List ℕ) };

    ghost view = { λ a. paths_of a.paths.keys };
}

impl<'a> PathSet<'a> {
    ghost use Rattle.std.specs.Prelude.{◌≡◌, not, ◌||◌, ℕ, List, [], IfOk, OnOk, OnErr};
    ghost use Rattle.std.specs.Str.{bytes_eq};
    ghost use Rattle.relay_text.specs.Bytes.{has_text};

    /// No paths, which take no memory.
    pub(crate) fn new(alloc: Global) -> PathSet<'a>
        ensures { result ≡ [] }
    {
        PathSet {
            paths: BTreeSet::new(alloc),
        }
    }

    /// Adds a path, where it isn't there already, and answers whether it is new. `Err` where memory runs out; the set is then as it
    /// was, and the path was new.
    pub(crate) fn insert(&mut self, path: &'a [u8]) -> Result<bool, AllocError>
        ensures ok { OnOk result ((q : List ℕ) → has_text self.new q ≡ (bytes_eq q path.now || has_text self.old q)) }
        ensures fresh { IfOk result (λ is_new. is_new ≡ not (has_text self.old path.now)) }
        ensures err { OnErr result (self.new ≡ self.old) }
    {
        let Ok(is_new) = self.paths.insert(HashedPath::new(path)) else {
            return Err(AllocError);
        };
        Ok(is_new)
    }
}
