//! The search for the best trails.
//!
//! It takes the recipients in their order, and then the items of each pair that it has come to, in the order in which it came there. A
//! pair has its trail from the first that leads to it. So the trails rise, and no later one to the same pair is less.
ghost use Rattle.std.specs.Prelude.{◌≡◌, ◌+◌, ◌<◌, ◌≤◌, length, map, All, IfOk, OnOk};
ghost use Rattle.relay_pairs.specs.Pairs.{ArePairs};
ghost use Rattle.relay_trails.specs.declared.step.Link.TheVariants.{Recipient, Item};
ghost use Rattle.relay_trails.specs.Steps.{IsMarked};
ghost use Rattle.relay_trails.specs.Searches.{IsFinished, IsMarkedAt};

use crate::places::{likely_place, place_of};
use crate::step::{Link, Step};
use relay_pairs::Reached;
use relay_tables::Graph;
use std::alloc::{AllocError, Global};

// The steps in their order, and a mark for each place that has one: a byte, so that marks of many pairs are still near at hand.
#[derive(Drop)]
struct Search {
    marks: Vec<bool>,
    steps: Vec<Step>,
}

/// The steps to all pairs, in the order in which a search comes to them. `Err` where memory runs out.
pub(crate) fn steps_to(
    alloc: Global,
    graph: &Graph,
    pairs: &[Reached],
) -> Result<Vec<Step>, AllocError>
    requires pairs { ArePairs graph.now pairs.now }
    requires in_graph { All (λ p. (p.sender < length graph.now.senders) × (p.node < length graph.now.nodes)) pairs.now }
    ensures { IfOk result (λ steps. IsFinished graph.now pairs.now steps.items) }
{
    let mut search = Search {
        marks: vec![in alloc; false; pairs.len()]?,
        steps: Vec::with_capacity(alloc, pairs.len())?,
    };
    search.take_recipients(graph, pairs)?;
    search.go_on(graph, pairs)?;
    Ok(search.steps)
}

impl Search {
    // Takes the recipients.
    fn take_recipients(&mut self, graph: &Graph, pairs: &[Reached]) -> Result<(), AllocError>
        requires pairs { ArePairs graph.now pairs.now }
        requires in_graph { All (λ p. (p.sender < length graph.now.senders) × (p.node < length graph.now.nodes)) pairs.now }
        requires before { IsMarkedAt graph.now pairs.now self.old.marks.items self.old.steps.items (Recipient 0) }
        ensures { OnOk result (IsMarkedAt graph.now pairs.now self.new.marks.items self.new.steps.items (Item 0 0)) }
    {
        // For what the call says alone: there are few nodes.
        let _ = graph.nodes();
        for (recipient, node) in graph.roots().iter().enumerate() {
            let pair = Reached {
                sender: 0,
                node: *node,
            };
            let place = place_of(graph, pairs, pair, *node as usize);
            self.take(place, pair, Link::Recipient(recipient))?;
        }
        Ok(())
    }

    // Takes the items of each pair that it has come to.
    fn go_on(&mut self, graph: &Graph, pairs: &[Reached]) -> Result<(), AllocError>
        requires pairs { ArePairs graph.now pairs.now }
        requires in_graph { All (λ p. (p.sender < length graph.now.senders) × (p.node < length graph.now.nodes)) pairs.now }
        requires before { IsMarkedAt graph.now pairs.now self.old.marks.items self.old.steps.items (Item 0 0) }
        ensures { OnOk result (IsMarkedAt graph.now pairs.now self.new.marks.items self.new.steps.items (Item (length self.new.steps.items) 0)) }
    {
        let mut from = 0;
        while from < self.steps.len() {
            self.take_items(graph, pairs, from)?;
            from += 1;
        }
        Ok(())
    }

    // Takes the items of the pair of a step.
    fn take_items(
        &mut self,
        graph: &Graph,
        pairs: &[Reached],
        from: usize,
    ) -> Result<(), AllocError>
        requires pairs { ArePairs graph.now pairs.now }
        requires in_graph { All (λ p. (p.sender < length graph.now.senders) × (p.node < length graph.now.nodes)) pairs.now }
        requires from { from < length self.old.steps.items }
        requires before { IsMarkedAt graph.now pairs.now self.old.marks.items self.old.steps.items (Item from 0) }
        ensures after { OnOk result (IsMarkedAt graph.now pairs.now self.new.marks.items self.new.steps.items (Item (from + 1) 0)) }
        ensures longer { OnOk result (length self.old.steps.items ≤ length self.new.steps.items) }
    {
        // For what the call says alone: there are few nodes.
        let _ = graph.nodes();
        let Step {
            place: at,
            pair,
            ..
        } = self.steps[from];
        let sender = graph.sender_after(pair.sender, pair.node);
        for (item, node) in graph.children(pair.node).iter().enumerate() {
            let child = Reached {
                sender,
                node: *node,
            };
            let place = place_of(graph, pairs, child, likely_place(at, pair.node, *node));
            self.take(place, child, Link::Item(from, item))?;
        }
        Ok(())
    }

    // Comes to a pair, if it hasn't before.
    fn take(&mut self, place: usize, pair: Reached, link: Link) -> Result<(), AllocError>
        requires { place < length self.old.marks.items }
        ensures { OnOk result (IsMarked place pair link self.old.marks.items self.old.steps.items self.new.marks.items self.new.steps.items) }
    {
        if !self.marks[place] {
            self.marks[place] = true;
            self.steps.push(Step { place, pair, link })?;
        }
        Ok(())
    }
}
