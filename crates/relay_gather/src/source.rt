//! Where files come from.
ghost use Rattle.std.specs.Prelude.{◌≡◌, ℕ, List, IfOk, IfErr};
ghost use Rattle.relay_gather.specs.Source.{Answer, GivesFile, GivesNone};

use crate::source_fault::SourceFault;
use std::alloc::Global;

/// Files by their paths.
pub trait Source {
    // The answer for each path, where it's known.
    ghost answer: { Self → List ℕ → Answer };

    /// The bytes of the file of a path, or why there are none. A path is bytes, of any value.
    fn fetch(&mut self, alloc: Global, path: &[u8]) -> Result<Vec<u8>, SourceFault>
        ensures file { IfOk result (λ bytes. GivesFile (answer self.old path.now) bytes.items) }
        ensures none { IfErr result (GivesNone (answer self.old path.now)) }
        // A path's answer stays the same.
        ensures alike { (path : List ℕ) → answer self.new path ≡ answer self.old path };
}
