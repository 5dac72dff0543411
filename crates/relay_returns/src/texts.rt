//! Texts of plans with blocks.
ghost use Rattle.std.specs.Prelude.{◌≡◌, ◌++◌, ℕ, List, [], IfOk};
ghost use Rattle.relay_wire.specs.PlanText.{plan_text_of, wire_text_of};
ghost use Rattle.relay_returns.specs.Returns.{blocks_text, tail_text, returned_plan_text_of, returned_wire_text_of};

use crate::block::Return;
use crate::lengths::{blocks_len, tail_len};
use crate::words::put_blocks;
use relay_text::Text;
use relay_wire::{Plan, plan_text, wire_text};
use std::alloc::{AllocError, Global};

// A plan's text with blocks before its findings.
fn with_blocks(
    alloc: Global,
    text: Text,
    findings: &[Text],
    returns: &[Return],
) -> Result<Text, AllocError>
    requires { (front : List ℕ) × (text ≡ front ++ tail_text findings.now) }
    ensures { IfOk result (λ whole. (front : List ℕ) → text ≡ front ++ tail_text findings.now → whole ≡ front ++ blocks_text returns.now ++ tail_text findings.now) }
{
    if returns.is_empty() {
        return Ok(text);
    }
    let bytes = text.as_bytes();
    let (front, tail) = bytes.split_at(bytes.len() - tail_len(findings));
    let mut out = Vec::with_capacity(alloc, bytes.len().saturating_add(blocks_len(returns)))?;
    out.extend_from_slice(front)?;
    put_blocks(returns, &mut out)?;
    out.extend_from_slice(tail)?;
    Ok(Text::of(out))
}

/// The text of a plan with the blocks between its transactions and its findings; without any it is `plan_text`'s. `Err` where memory
/// runs out.
pub fn returned_plan_text(
    alloc: Global,
    plan: &Plan,
    returns: &[Return],
) -> Result<Text, AllocError>
    ensures text { IfOk result (λ text. text ≡ returned_plan_text_of plan.now returns.now) }
    ensures none { IfOk result (λ text. returns.now ≡ [] → text ≡ plan_text_of plan.now) }
{
    let text = plan_text(alloc, plan)?;
    with_blocks(alloc, text, plan.findings.as_slice(), returns)
}

/// The same of `wire_text`.
pub fn returned_wire_text(
    alloc: Global,
    plan: &Plan,
    returns: &[Return],
) -> Result<Text, AllocError>
    ensures text { IfOk result (λ text. text ≡ returned_wire_text_of plan.now returns.now) }
    ensures none { IfOk result (λ text. returns.now ≡ [] → text ≡ wire_text_of plan.now) }
{
    let text = wire_text(alloc, plan)?;
    with_blocks(alloc, text, plan.findings.as_slice(), returns)
}
