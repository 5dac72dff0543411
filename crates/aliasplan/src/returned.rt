//! A plan and what is returned.
ghost use Rattle.std.specs.Prelude.{◌≡◌, IfOk};
ghost use Rattle.aliasplan.specs.Returns.{returned_text_in};

use relay_planning::Form;
use relay_returns::{Return, returned_json_text, returned_plan_text, returned_wire_text};
use relay_text::{Seq, Text};
use relay_wire::Plan;
use std::alloc::{AllocError, Global};

/// A plan, and the blocks that say what is returned to which sender.
#[derive(Drop)]
pub struct Returned {
    pub plan: Plan,
    /// In the order of their senders' paths.
    pub returns: Seq<Return>,
}

impl Returned {
    /// The plan and the blocks as they are written. `Err` where memory runs out.
    pub fn text_of(&self, alloc: Global, form: Form) -> Result<Text, AllocError>
        ensures { IfOk result (λ text. text ≡ returned_text_in form self.now.plan self.now.returns) }
    {
        let blocks = self.returns.as_slice();
        match form {
            Form::Plan => returned_plan_text(alloc, &self.plan, blocks),
            Form::Wire => returned_wire_text(alloc, &self.plan, blocks),
            Form::Json => returned_json_text(alloc, &self.plan, blocks),
        }
    }
}
