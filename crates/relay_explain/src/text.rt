//! Lines of an explanation beside its answers, and before each.
ghost use Rattle.std.specs.Prelude.{◌≡◌, ◌++◌, List, map, length, OnOk};
ghost use Rattle.relay_wire.specs.PlanText.{line, lines_of};
ghost use Rattle.relay_explain.specs.Explanations.{Answer};
ghost use Rattle.relay_explain.specs.ExplanationText.{answer_line, decision_lines, explain_line, unreached_line, stands_line, why_not};

use crate::asked::Asked;
use crate::decision::Decision;
use crate::listed::Listed;
use crate::target::Target;
use relay_wire::{put_number, put_word};
use std::alloc::AllocError;

/// Writes the first line.
pub(crate) fn put_first(asked: &Asked, answers: usize, out: &mut Vec<u8>) -> Result<(), AllocError>
    ensures { OnOk result (out.new.items ≡ out.old.items ++ line (explain_line asked.now answers)) }
{
    out.extend_from_slice(b"explain")?;
    asked.put(out)?;
    put_word(b"answers", out)?;
    put_number(answers, out)?;
    out.push(b'\n')?;
    Ok(())
}

/// Writes the line of an answer's number, and of what is reached.
pub(crate) fn put_answer_line(
    number: usize,
    target: &Target,
    out: &mut Vec<u8>,
) -> Result<(), AllocError>
    ensures { OnOk result (out.new.items ≡ out.old.items ++ line (answer_line number target.now)) }
{
    out.extend_from_slice(b"answer")?;
    put_number(number, out)?;
    target.put(out)?;
    out.push(b'\n')?;
    Ok(())
}

/// Writes the lines of a decision, where there is one.
pub(crate) fn put_decision(decision: &Option<Decision>, out: &mut Vec<u8>) -> Result<(), AllocError>
    ensures { OnOk result (out.new.items ≡ out.old.items ++ decision_lines decision.now) }
{
    match decision {
        Some(decision) => decision.put_lines(out),
        None => Ok(()),
    }
}

// Writes the line of each item.
fn put_unreached(unreached: &[Listed], out: &mut Vec<u8>) -> Result<(), AllocError>
    ensures { OnOk result (out.new.items ≡ out.old.items ++ lines_of (map unreached_line unreached.now)) }
{
    for listed in unreached {
        out.extend_from_slice(b"unreached")?;
        listed.put(out)?;
        out.push(b'\n')?;
    }
    Ok(())
}

// Writes the line of what the asked name or address stands for.
fn put_stands_for(target: &Target, out: &mut Vec<u8>) -> Result<(), AllocError>
    ensures { OnOk result (out.new.items ≡ out.old.items ++ line (stands_line target.now)) }
{
    out.extend_from_slice(b"stands for")?;
    target.put(out)?;
    out.push(b'\n')?;
    Ok(())
}

/// Writes why there is no answer, where there is none: the items that would lead there, and what the asked name or address stands for.
pub(crate) fn put_why_not(
    answers: usize,
    unreached: &[Listed],
    stands_for: &Target,
    out: &mut Vec<u8>,
) -> Result<(), AllocError>
    ensures { OnOk result ((list : List Answer) → length list ≡ answers → out.new.items ≡ out.old.items ++ why_not unreached.now stands_for.now list) }
{
    if answers > 0 {
        return Ok(());
    }
    put_unreached(unreached, out)?;
    put_stands_for(stands_for, out)
}
