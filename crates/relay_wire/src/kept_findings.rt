//! What becomes of a finding when its line is gathered: nothing, or it is kept as a value.
//!
//! Lines are all that a plan writes, and a finding takes three times the room of its line. Who calls the planner from a program of its own can
//! ask for the values as well, and acts upon them without reading lines.
ghost use Rattle.std.specs.Prelude.{◌≡◌, ⊤, List, ℕ, [], ◌∷◌, ◌++◌, map, OnOk, OnErr};
ghost use Rattle.relay_wire.specs.Findings.{finding_text_of};

use crate::finding::Finding;
use std::alloc::{AllocError, Global};

/// Takes the findings whose lines are gathered.
pub trait KeptFindings {
    /// Whether what is kept is what has these lines, in their order, where anything is kept.
    ghost have: { Self → List (List ℕ) → Type 0 };

    /// Nothing, which takes no memory.
    fn nothing(alloc: Global) -> Self
        ensures { have result [] };

    /// Takes one more finding. `Err` where memory runs out; what is kept then has the same lines.
    fn keep(&mut self, finding: Finding) -> Result<(), AllocError>
        ensures ok { OnOk result ((lines : List (List ℕ)) → have self.old lines → have self.new (lines ++ finding_text_of finding ∷ [])) }
        ensures err { OnErr result ((lines : List (List ℕ)) → have self.old lines → have self.new lines) };

    /// Takes what another one keeps, behind what is kept. `Err` where memory runs out; what is kept then has the same lines.
    fn keep_all(&mut self, other: Self) -> Result<(), AllocError>
        ensures ok { OnOk result ((lines more : List (List ℕ)) → have self.old lines → have other more → have self.new (lines ++ more)) }
        ensures err { OnErr result ((lines : List (List ℕ)) → have self.old lines → have self.new lines) };
}

/// Keeps no findings: their lines are all that is asked for.
#[derive(Drop)]
pub struct LinesAlone;

impl KeptFindings for LinesAlone {
    ghost have = { λ _ lines. ⊤ };

    fn keep(&mut self, finding: Finding) -> Result<(), AllocError> {
        // Here and not at the end: a finding may be any of many kinds, and what becomes of them is followed in `drop` then.
        drop(finding);
        Ok(())
    }

    fn nothing(_: Global) -> LinesAlone {
        LinesAlone
    }

    fn keep_all(&mut self, _: LinesAlone) -> Result<(), AllocError> {
        Ok(())
    }
}

impl KeptFindings for Vec<Finding> {
    ghost have = { λ kept lines. map finding_text_of kept.items ≡ lines };

    fn keep(&mut self, finding: Finding) -> Result<(), AllocError> {
        self.push(finding)?;
        Ok(())
    }

    fn nothing(alloc: Global) -> Vec<Finding> {
        Vec::new(alloc)
    }

    fn keep_all(&mut self, mut other: Vec<Finding>) -> Result<(), AllocError> {
        self.append(&mut other)
    }
}
