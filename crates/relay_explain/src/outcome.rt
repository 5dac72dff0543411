//! What becomes of addresses.
use relay_wire::Reason;

/// What becomes of an address under a sender.
#[derive(Drop)]
pub enum Outcome {
    /// The transaction of this number, from 1, has it.
    Transaction(usize),
    /// It has no route.
    Unrouted(Reason),
}

ghost use Rattle.std.specs.Prelude.{◌≡◌, ◌++◌, ◌∷◌, OnOk};
ghost use Rattle.relay_explain.specs.ExplanationText.{outcome_line, outcome_lines};

use relay_wire::{put_number, put_reason};
use std::alloc::AllocError;

impl Outcome {
    fn put(&self, out: &mut Vec<u8>) -> Result<(), AllocError>
        ensures { OnOk result (out.new.items ≡ out.old.items ++ outcome_line self.now) }
    {
        match self {
            Outcome::Transaction(number) => {
                out.extend_from_slice(b"transaction")?;
                put_number(*number, out)
            }
            Outcome::Unrouted(reason) => {
                out.extend_from_slice(b"unrouted")?;
                put_reason(reason, out)
            }
        }
    }
}

/// Writes the line of what becomes of an address, where there is one.
pub(crate) fn put_outcome(outcome: &Option<Outcome>, out: &mut Vec<u8>) -> Result<(), AllocError>
    ensures { OnOk result (out.new.items ≡ out.old.items ++ outcome_lines outcome.now) }
{
    let Some(outcome) = outcome else {
        return Ok(());
    };
    outcome.put(out)?;
    out.push(b'\n')?;
    Ok(())
}
