//! Where the text of tables comes from.
ghost use Rattle.std.specs.Prelude.{◌≡◌, ◌≤◌, ℕ, ◌+◌, length, IfOk, IfErr};
ghost use Rattle.aliasplan_each.specs.Given.{Given, GivesText, GivesNone};

use relay_job::RunFault;
use relay_text::Text;
use std::alloc::Global;

/// A text of tables that may be another one each time that it is read.
pub trait TablesSource {
    // What it gives each time from here on, where it's known.
    ghost coming: { Self → ℕ → Given };

    /// The text as it is now. Read where it can't be had, TooLong where it has more than `max` bytes.
    fn fetch(&mut self, alloc: Global, max: usize) -> Result<Text, RunFault>
        requires max { max ≤ 67108864 }
        ensures text { IfOk result (GivesText (coming self.old 0)) }
        ensures size { IfOk result (λ text. length text ≤ max) }
        ensures refused { IfErr result (GivesNone max (coming self.old 0)) }
        // The first is given, and the others come as they would have.
        ensures later { (k : ℕ) → coming self.new k ≡ coming self.old (k + 1) };
}
