//! The lines of the steps of a trail.
//!
//! A step is told as soon as it is known, so that steps take no room. Each worker tells a stretch of the trail.
use relay_explain::{GivenBy, Step};
use relay_text::{Address, Text};

/// The lines of the steps of a trail, in pieces, the sender after them, and who gave it.
#[derive(Drop)]
pub(crate) struct ChainLines {
    pub(crate) lines: Vec<Text>,
    pub(crate) from: Option<Address>,
    pub(crate) given_by: GivenBy,
}

ghost use Rattle.std.specs.Prelude.{◌≡◌, ◌≤◌, Ok, Some, length, map, slice_get, take, IfOk, IsSome};
ghost use Rattle.std.specs.Thread.{IsSync};
ghost use Rattle.relay_trails.specs.Trails.{HasNodes, trail_of};
ghost use Rattle.relay_explain.specs.declared.given_by.GivenBy as givers;
ghost use Rattle.relay_explain.specs.ExplanationText.{step_line};
ghost use Rattle.relay_explain.specs.PiecedTexts.{text_of};
ghost use Rattle.relay_wire.specs.PlanText.{line};
ghost use Rattle.aliasplan_explain.specs.ChainSteps.{IsGivenPast};
ghost use Rattle.aliasplan_explain.specs.Grounds.{IsBasisOf};
ghost use Rattle.aliasplan_explain.specs.Stretches.{AreLinesOf, IsFirstLine, IsTextOf};

use crate::ahead::{BLOCK, places_ahead};
use crate::grounds::Grounds;
use crate::step_line::put_step;
use crate::stretch::{Stretch, stretches_of};
use crate::walking::{first_step, given_by, owner_along};
use aliasplan::{Crew, Gate};
use relay_trails::Found;
use std::alloc::{AllocError, Global};
use std::thread::{Threads, map_vec};

// The lines of the steps of a stretch.
fn stretch_text(
    alloc: Global,
    grounds: &Grounds<'_>,
    found: &Found,
    stretch: Stretch,
) -> Result<Text, AllocError>
    requires made { IsBasisOf grounds.now.job.now grounds.now.basis.now }
    requires nodes { HasNodes grounds.now.basis.now.graph found.now }
    requires order { stretch.start ≤ stretch.end }
    requires within { stretch.end ≤ length found.now.items.items }
    ensures { IfOk result (IsTextOf grounds.now.job.now grounds.now.basis.now.graph found.now stretch.start stretch.end) }
{
    let nodes = found.nodes.as_slice();
    let mut out = Vec::new(alloc);
    let mut ahead = Vec::with_capacity(alloc, BLOCK)?;
    for place in stretch.start..stretch.end {
        let ahead_by = (place - stretch.start) % BLOCK;
        if ahead_by == 0 {
            places_ahead(grounds, &nodes[place..], &mut ahead)?;
        }
        let likely = ahead.get(ahead_by).copied().unwrap_or(0);
        put_step(alloc, grounds, found, place, likely, &mut out)?;
    }
    Ok(Text::of(out))
}

// The values of results, or want of memory where one says so.
fn all_of(alloc: Global, results: Vec<Result<Text, AllocError>>) -> Result<Vec<Text>, AllocError>
    ensures { IfOk result (λ texts. map (λ text. Ok text) texts.items ≡ results.items) }
{
    let mut texts = Vec::with_capacity(alloc, results.len())?;
    for text in results {
        texts.push(text?)?;
    }
    Ok(texts)
}

// The lines of the steps behind a trail's first, in pieces.
fn item_lines<G: Gate, R: Threads + Sync>(
    crew: &Crew<G, R>,
    grounds: &Grounds<'_>,
    found: &Found,
) -> Result<Vec<Text>, AllocError>
    requires made { IsBasisOf grounds.now.job.now grounds.now.basis.now }
    requires nodes { HasNodes grounds.now.basis.now.graph found.now }
    ensures { IfOk result (λ texts. IsTextOf grounds.now.job.now grounds.now.basis.now.graph found.now 0 (length found.now.items.items) (text_of texts.items)) }
{
    let alloc = crew.alloc;
    let items = found.items.as_slice();
    let stretches = stretches_of(alloc, items.len(), crew.options.workers)?;
    let tell = |stretch: Stretch| -> Result<Text, AllocError>
        requires { IsBasisOf grounds.now.job.now grounds.now.basis.now × HasNodes grounds.now.basis.now.graph found.now × (stretch.start ≤ stretch.end) × (stretch.end ≤ length found.now.items.items) }
        ensures { IfOk result (IsTextOf grounds.entry.now.job.now grounds.entry.now.basis.now.graph found.entry.now stretch.start stretch.end) }
    { stretch_text(alloc, grounds, found, stretch) };
    let told = map_vec(crew.rt, stretches, &tell)?;
    all_of(alloc, told)
}

// The line of a step.
fn line_of(alloc: Global, step: &Step) -> Result<Text, AllocError>
    ensures { IfOk result (λ text. text ≡ line (step_line step.now)) }
{
    let mut out = Vec::new(alloc);
    step.put_line(&mut out)?;
    Ok(Text::of(out))
}

// The line of a trail's first step.
fn first_line(alloc: Global, grounds: &Grounds<'_>, found: &Found) -> Result<Text, AllocError>
    requires made { IsBasisOf grounds.now.job.now grounds.now.basis.now }
    requires nodes { HasNodes grounds.now.basis.now.graph found.now }
    ensures { IfOk result (IsFirstLine grounds.now.job.now grounds.now.recipient_lines.now found.now.recipient) }
{
    let step = first_step(alloc, grounds, found.recipient, found.nodes[0])?;
    let line = line_of(alloc, &step);
    drop(step);
    line
}

// The sender under which a trail leads to its end.
fn sender_of(
    alloc: Global,
    grounds: &Grounds<'_>,
    found: &Found,
) -> Result<Option<Address>, AllocError>
    requires made { IsBasisOf grounds.now.job.now grounds.now.basis.now }
    requires sender { IsSome (slice_get grounds.now.basis.now.graph.senders found.now.sender) }
    ensures { IfOk result (λ from. slice_get grounds.now.basis.now.graph.senders found.now.sender ≡ Some from) }
{
    match grounds.basis.graph.sender(found.sender) {
        Some(address) => Ok(Some(address.copy(alloc)?)),
        None => Ok(None),
    }
}

// The lines of all steps of a trail, in pieces.
fn step_lines<G: Gate, R: Threads + Sync>(
    crew: &Crew<G, R>,
    grounds: &Grounds<'_>,
    found: &Found,
) -> Result<Vec<Text>, AllocError>
    requires made { IsBasisOf grounds.now.job.now grounds.now.basis.now }
    requires nodes { HasNodes grounds.now.basis.now.graph found.now }
    ensures { IfOk result (λ texts. (given : givers.GivenBy) → IsGivenPast grounds.now.job.now grounds.now.basis.now.graph GivenBy.Envelope (take (length found.now.items.items) found.now.nodes.items) given → AreLinesOf grounds.now.job.now grounds.now.recipient_lines.now (trail_of found.now) texts.items given) }
{
    let mut lines = Vec::new(crew.alloc);
    lines.push(first_line(crew.alloc, grounds, found)?)?;
    let mut more = item_lines(crew, grounds, found)?;
    lines.append(&mut more)?;
    Ok(lines)
}

// Who gave the sender at the end of a trail.
fn giver_of(alloc: Global, grounds: &Grounds<'_>, found: &Found) -> Result<GivenBy, AllocError>
    requires made { IsBasisOf grounds.now.job.now grounds.now.basis.now }
    requires nodes { HasNodes grounds.now.basis.now.graph found.now }
    ensures { IfOk result (IsGivenPast grounds.now.job.now grounds.now.basis.now.graph GivenBy.Envelope (take (length found.now.items.items) found.now.nodes.items)) }
{
    let nodes = found.nodes.as_slice();
    let items = found.items.as_slice();
    let owner = owner_along(grounds, &nodes[..items.len()]);
    given_by(alloc, grounds, owner)
}

/// The lines of the steps of a trail that was found, the sender after them, and who gave it. `Err` where memory runs out.
pub(crate) fn chain_lines<G: Gate, R: Threads + Sync>(
    crew: &Crew<G, R>,
    grounds: &Grounds<'_>,
    found: &Found,
) -> Result<ChainLines, AllocError>
    requires made { IsBasisOf grounds.now.job.now grounds.now.basis.now }
    requires nodes { HasNodes grounds.now.basis.now.graph found.now }
    requires sender { IsSome (slice_get grounds.now.basis.now.graph.senders found.now.sender) }
    ensures lines { IfOk result (λ chain. AreLinesOf grounds.now.job.now grounds.now.recipient_lines.now (trail_of found.now) chain.lines.items chain.given_by) }
    ensures from { IfOk result (λ chain. slice_get grounds.now.basis.now.graph.senders found.now.sender ≡ Some chain.from) }
{
    let lines = step_lines(crew, grounds, found)?;
    let given_by = giver_of(crew.alloc, grounds, found)?;
    let from = sender_of(crew.alloc, grounds, found)?;
    Ok(ChainLines {
        lines,
        from,
        given_by,
    })
}
