//! The line of a step of a trail.
//!
//! Nearly all steps of a long chain lead from one alias to another. Their lines are written from the tables and the alias file; of any
//! other step a value is made first.
ghost use Rattle.std.specs.Prelude.{◌≡◌, ◌++◌, ◌<◌, length, OnOk};
ghost use Rattle.relay_trails.specs.Trails.{HasNodes};
ghost use Rattle.relay_wire.specs.PlanText.{line};
ghost use Rattle.relay_explain.specs.declared.step.Step as steps;
ghost use Rattle.relay_explain.specs.ExplanationText.{step_line};
ghost use Rattle.aliasplan_explain.specs.Grounds.{IsBasisOf};
ghost use Rattle.aliasplan_explain.specs.Stretches.{IsStepAt};

use crate::grounds::Grounds;
use crate::rows::row_of;
use crate::targets::alias_name;
use crate::walking::next_step;
use relay_aliasfile::{entries_on_lines, places_of_items};
use relay_explain::put_alias_step;
use relay_trails::Found;
use std::alloc::{AllocError, Global};

/// Writes the line of the step by the trail's item of a number. The line of the entry that has the item is likely to stand at a place.
/// `Err` where memory runs out.
pub(crate) fn put_step(
    alloc: Global,
    grounds: &Grounds<'_>,
    found: &Found,
    number: usize,
    likely: usize,
    out: &mut Vec<u8>,
) -> Result<(), AllocError>
    requires made { IsBasisOf grounds.now.job.now grounds.now.basis.now }
    requires nodes { HasNodes grounds.now.basis.now.graph found.now }
    requires within { number < length found.now.items.items }
    ensures { OnOk result ((step : steps.Step) × IsStepAt grounds.now.job.now grounds.now.basis.now.graph found.now number step × (out.new.items ≡ out.old.items ++ line (step_line step))) }
{
    entries_on_lines();
    places_of_items();
    let nodes = found.nodes.as_slice();
    let items = found.items.as_slice();
    let (from, item, to) = (nodes[number], items[number], nodes[number + 1]);
    let graph = &grounds.basis.graph;
    let tables = &grounds.basis.lookup.tables;
    let node = graph.node(from);
    match (alias_name(tables, node), alias_name(tables, graph.node(to))) {
        (Some(name), Some(target)) => {
            let row = row_of(alloc, grounds, node, likely)?;
            match row.get(item) {
                Some(place) => put_alias_step(
                    name, place.line, place.item, place.text, target, out,
                ),
                None => unreachable!(),
            }
        }
        _ => {
            let step = next_step(alloc, grounds, from, item, to, likely)?;
            let put = step.put_line(out);
            drop(step);
            put
        }
    }
}
