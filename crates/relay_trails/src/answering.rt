//! The answers of a search.
ghost use Rattle.std.specs.Prelude.{◌≡◌, ◌≢◌, ◌<◌, ℕ, Some, length, map, All, IfOk};
ghost use Rattle.relay_pairs.specs.Pairs.{ArePairs};
ghost use Rattle.relay_trails.specs.Trails.{AreBestTrails, HasNodes, trail_of};
ghost use Rattle.relay_trails.specs.Searches.{AreEnds, AreNumbers};
ghost use Rattle.relay_trails.specs.Steps.{AreLinked, place_at, trail_at};
ghost use Rattle.relay_trails.specs.Answers.{AreAnswers, HasSteps};

use crate::found::Found;
use crate::search::steps_to;
use crate::step::{Link, Step};
use relay_pairs::Reached;
use relay_tables::Graph;
use std::alloc::{AllocError, Global};

/// For each sender under which the node is reached, ascending, the best trail there: the least of the shortest, by recipient and then
/// by items. No other sender has an answer, and a node that is not reached has none.
///
/// The pairs are all that are reached, as `reached_pairs` gives them. The time is near linear in their number and in the items of
/// their nodes. Memory is taken for each pair and for the answers, and the only error is that it's refused.
pub fn best_trails(
    alloc: Global,
    graph: &Graph,
    pairs: &[Reached],
    node: u32,
) -> Result<Vec<Found>, AllocError>
    requires pairs { ArePairs graph.now pairs.now }
    requires in_graph { All (λ p. (p.sender < length graph.now.senders) × (p.node < length graph.now.nodes)) pairs.now }
    ensures best { IfOk result (λ found. AreBestTrails graph.now node found.items) }
    ensures nodes { IfOk result (λ found. All (HasNodes graph.now) found.items) }
{
    let steps = steps_to(alloc, graph, pairs)?;
    let numbers = numbers_of(alloc, pairs.len(), &steps)?;
    answers(alloc, graph, &numbers, &steps, pairs, node)
}

// The number of the step of each place, where each step has a place of its own.
fn numbers_of(alloc: Global, places: usize, steps: &[Step]) -> Result<Vec<usize>, AllocError>
    requires below { (k : ℕ) → k < length steps.now → place_at steps.now k < places }
    requires apart { (j k : ℕ) → j < k → k < length steps.now → place_at steps.now j ≢ place_at steps.now k }
    ensures { IfOk result (λ numbers. AreNumbers places steps.now numbers.items) }
{
    let mut numbers = vec![in alloc; 0; places]?;
    for (number, step) in steps.iter().enumerate() {
        numbers[step.place] = number;
    }
    Ok(numbers)
}

// The answers for the pairs of a node, in the order of the pairs.
fn answers(
    alloc: Global,
    graph: &Graph,
    numbers: &[usize],
    steps: &[Step],
    pairs: &[Reached],
    node: u32,
) -> Result<Vec<Found>, AllocError>
    requires steps { HasSteps (length pairs.now) (map Some numbers.now) steps.now }
    requires ends { AreEnds graph.now pairs.now steps.now }
    ensures answers { IfOk result (λ found. AreAnswers pairs.now pairs.now (map Some numbers.now) steps.now node found.items) }
    ensures nodes { IfOk result (λ found. All (HasNodes graph.now) found.items) }
{
    let mut found = Vec::new(alloc);
    for (place, pair) in pairs.iter().enumerate() {
        if pair.node == node {
            let at = numbers[place];
            found.push(read_back(alloc, graph, pairs, steps, at, pair.sender)?)?;
        }
    }
    Ok(found)
}

// The trail of a step, read from its end.
fn read_back(
    alloc: Global,
    graph: &Graph,
    pairs: &[Reached],
    steps: &[Step],
    mut at: usize,
    sender: u32,
) -> Result<Found, AllocError>
    requires linked { AreLinked steps.now }
    requires ends { AreEnds graph.now pairs.now steps.now }
    requires at { at < length steps.now }
    ensures sender { IfOk result (λ found. found.sender ≡ sender) }
    ensures trail { IfOk result (λ found. trail_of found ≡ trail_at steps.now at) }
    ensures nodes { IfOk result (HasNodes graph.now) }
{
    let _ = graph;
    let _ = pairs;
    let mut items = Vec::new(alloc);
    let mut nodes = Vec::new(alloc);
    loop {
        let Step { pair, link, .. } = steps[at];
        nodes.push(pair.node)?;
        match link {
            Link::Recipient(recipient) => {
                items.reverse();
                nodes.reverse();
                return Ok(Found {
                    sender,
                    recipient,
                    items,
                    nodes,
                });
            }
            Link::Item(from, item) => {
                items.push(item)?;
                at = from;
            }
        }
    }
}
