//! Who gives a sender.
use relay_text::Text;

/// Where a sender comes from.
#[derive(Drop)]
pub enum GivenBy {
    Envelope,
    /// The owner alias of this name, on the line of this number.
    Alias(Text, usize),
}

ghost use Rattle.std.specs.Prelude.{◌≡◌, ◌++◌, ◌∷◌, OnOk};
ghost use Rattle.relay_wire.specs.Findings.{after_spaces};
ghost use Rattle.relay_wire.specs.PlanText.{line};
ghost use Rattle.relay_explain.specs.ExplanationText.{given_words, from_line};

use relay_text::Address;
use relay_wire::{put_name, put_number, put_path, put_word};
use std::alloc::AllocError;

impl GivenBy {
    fn put(&self, out: &mut Vec<u8>) -> Result<(), AllocError>
        ensures { OnOk result (out.new.items ≡ out.old.items ++ after_spaces (given_words self.now)) }
    {
        match self {
            GivenBy::Envelope => put_word(b"envelope", out),
            GivenBy::Alias(name, line) => {
                put_word(b"alias", out)?;
                put_name(name.as_bytes(), out)?;
                put_word(b"line", out)?;
                put_number(*line, out)
            }
        }
    }
}

/// Writes the line of a sender, and of who gives it.
pub(crate) fn put_from(
    from: &Option<Address>,
    given_by: &GivenBy,
    out: &mut Vec<u8>,
) -> Result<(), AllocError>
    ensures { OnOk result (out.new.items ≡ out.old.items ++ line (from_line from.now given_by.now)) }
{
    out.extend_from_slice(b"from")?;
    put_path(from.as_ref(), out)?;
    given_by.put(out)?;
    out.push(b'\n')?;
    Ok(())
}
