//! The steps of a chain.
use crate::listed::Listed;
use crate::target::Target;
use relay_text::Address;

/// Where a target is named.
#[derive(Drop)]
pub enum Mention {
    /// A recipient of the envelope, and the number of its line.
    Recipient(usize, Address),
    Item(Listed),
}

/// A mention, and the target that it names.
#[derive(Drop)]
pub struct Step {
    pub mention: Mention,
    pub target: Target,
}

ghost use Rattle.std.specs.Prelude.{◌≡◌, ◌++◌, ◌∷◌, [], codes, OnOk};
ghost use Rattle.relay_wire.specs.Findings.{after_spaces};
ghost use Rattle.relay_wire.specs.PlanText.{line};
ghost use Rattle.relay_explain.specs.ExplanationText.{alias_step, mention_text, is_text, step_line};

use relay_wire::{put_name, put_number, put_path, put_word};
use std::alloc::AllocError;

impl Mention {
    fn put(&self, out: &mut Vec<u8>) -> Result<(), AllocError>
        ensures { OnOk result (out.new.items ≡ out.old.items ++ mention_text self.now) }
    {
        match self {
            Mention::Recipient(line, address) => {
                put_word(b"envelope line", out)?;
                put_number(*line, out)?;
                put_path(Some(address), out)
            }
            Mention::Item(listed) => listed.put(out),
        }
    }
}

impl Step {
    /// Writes what the mention names.
    fn put_target(&self, out: &mut Vec<u8>) -> Result<(), AllocError>
        ensures { OnOk result (out.new.items ≡ out.old.items ++ is_text self.now.target) }
    {
        out.extend_from_slice(b" is")?;
        self.target.put(out)
    }

    /// Writes its line, which ends with LF. `Err` where memory runs out.
    pub fn put_line(&self, out: &mut Vec<u8>) -> Result<(), AllocError>
        ensures { OnOk result (out.new.items ≡ out.old.items ++ line (step_line self.now)) }
    {
        out.extend_from_slice(b"step")?;
        self.mention.put(out)?;
        self.put_target(out)?;
        out.push(b'\n')?;
        Ok(())
    }
}

/// Writes the line of the step by an item of one alias to another, as `Step::put_line` does, from bytes that lie elsewhere. The item has a
/// number among those of its list, from 1, and a text as it stands on the line of a number. `Err` where memory runs out.
pub fn put_alias_step(
    from: &[u8],
    number: usize,
    item: usize,
    text: &[u8],
    to: &[u8],
    out: &mut Vec<u8>,
) -> Result<(), AllocError>
    ensures { OnOk result (out.new.items ≡ out.old.items ++ line (step_line (alias_step from.now number item text.now to.now))) }
{
    out.extend_from_slice(b"step alias")?;
    put_name(from, out)?;
    out.extend_from_slice(b" line")?;
    put_number(number, out)?;
    out.extend_from_slice(b" item")?;
    put_number(item, out)?;
    put_word(text, out)?;
    out.extend_from_slice(b" is alias")?;
    put_name(to, out)?;
    out.push(b'\n')?;
    Ok(())
}
