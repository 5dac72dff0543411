//! A step of a trail, and who gives the sender on the way.
ghost use Rattle.std.specs.Prelude.{◌≡◌, ◌<◌, Some, ℕ, length, slice_get, All, IsSome, IfOk};
ghost use Rattle.relay_tables.specs.declared.node.Node as nodes;
ghost use Rattle.relay_tables.specs.Graphs.{child_numbers};
ghost use Rattle.relay_tables.specs.Targets.{recipient_target};
ghost use Rattle.relay_text.specs.AddressParts.{AddressParts};
ghost use Rattle.relay_planning.specs.Delivery.{directory_of};
ghost use Rattle.relay_explain.specs.declared.step.Mention.TheVariants as mentions;
ghost use Rattle.aliasplan_explain.specs.Grounds.{IsBasisOf};
ghost use Rattle.aliasplan_explain.specs.Targets.{target_at};
ghost use Rattle.aliasplan_explain.specs.ChainSteps.{IsGivenPast, IsStepTo, given_at, given_past};

use crate::grounds::Grounds;
use crate::rows::listed_at;
use crate::targets::target_of;
use relay_aliasfile::{entries_on_lines, places_of_items};
use relay_explain::{GivenBy, Mention, Step};
use relay_tables::Node;
use relay_text::Text;
use std::alloc::{AllocError, Global};

// The owner alias that gives the sender of what a node leads to, by its number: none where the envelope does.
fn owner_past(grounds: &Grounds<'_>, node: &Node, owner: Option<u32>) -> Option<u32>
    requires made { IsBasisOf grounds.now.job.now grounds.now.basis.now }
    requires node { IsSome (target_at (directory_of grounds.now.job.now) node.now) }
    ensures { given_at grounds.now.job.now result ≡ given_past grounds.now.job.now (given_at grounds.now.job.now owner) node.now }
{
    match node {
        Node::Alias(number) => match grounds.basis.lookup.tables.owner_of(*number) {
            Some(other) => Some(other),
            None => owner,
        },
        _ => owner,
    }
}

/// The same of some nodes, one after another.
pub(crate) fn owner_along(grounds: &Grounds<'_>, nodes: &[u32]) -> Option<u32>
    requires made { IsBasisOf grounds.now.job.now grounds.now.basis.now }
    requires nodes { All (λ n. n < length grounds.now.basis.now.graph.nodes) nodes.now }
    ensures { IsGivenPast grounds.now.job.now grounds.now.basis.now.graph GivenBy.Envelope nodes.now (given_at grounds.now.job.now result) }
{
    let mut owner = None;
    for number in nodes {
        owner = owner_past(grounds, grounds.basis.graph.node(*number), owner);
    }
    owner
}

/// Who gives the sender.
pub(crate) fn given_by(
    alloc: Global,
    grounds: &Grounds<'_>,
    owner: Option<u32>,
) -> Result<GivenBy, AllocError>
    requires made { IsBasisOf grounds.now.job.now grounds.now.basis.now }
    ensures { IfOk result (λ given. given ≡ given_at grounds.now.job.now owner) }
{
    let Some(number) = owner else {
        return Ok(GivenBy::Envelope);
    };
    match grounds.basis.lookup.tables.aliases().get(number as usize) {
        Some(entry) => {
            let name = Text::copy_of(alloc, entry.name.as_bytes())?;
            Ok(GivenBy::Alias(name, entry.line))
        }
        None => Ok(GivenBy::Envelope),
    }
}

/// The step to a recipient's target.
pub(crate) fn first_step(
    alloc: Global,
    grounds: &Grounds<'_>,
    recipient: usize,
    root: u32,
) -> Result<Step, AllocError>
    requires made { IsBasisOf grounds.now.job.now grounds.now.basis.now }
    requires recipient { recipient < length grounds.now.job.now.recipients }
    requires root { slice_get grounds.now.basis.now.graph.roots recipient ≡ Some root }
    ensures mention { IfOk result (λ step. (line : ℕ) (address : AddressParts) → slice_get grounds.now.recipient_lines.now recipient ≡ Some line → slice_get grounds.now.job.now.recipients recipient ≡ Some address → step.mention ≡ mentions.Recipient line address) }
    ensures target { IfOk result (λ step. (address : AddressParts) → slice_get grounds.now.job.now.recipients recipient ≡ Some address → target_at (directory_of grounds.now.job.now) (recipient_target (directory_of grounds.now.job.now) address) ≡ Some step.target) }
{
    let line = grounds.recipient_lines[recipient];
    let address = grounds.job.recipients.as_slice()[recipient].copy(alloc)?;
    let node = grounds.basis.graph.node(root);
    Ok(Step {
        mention: Mention::Recipient(line, address),
        target: target_of(alloc, &grounds.basis.lookup.tables, node)?,
    })
}

/// The step from a node to the target of an item, which has this number. The entry's line is likely to stand at a place.
pub(crate) fn next_step(
    alloc: Global,
    grounds: &Grounds<'_>,
    from: u32,
    item: usize,
    to: u32,
    likely: usize,
) -> Result<Step, AllocError>
    requires made { IsBasisOf grounds.now.job.now grounds.now.basis.now }
    requires from { from < length grounds.now.basis.now.graph.nodes }
    requires to { slice_get (child_numbers grounds.now.basis.now.graph from) item ≡ Some to }
    ensures { IfOk result (λ step. (a b : nodes.Node) → slice_get grounds.now.basis.now.graph.nodes from ≡ Some a → slice_get grounds.now.basis.now.graph.nodes to ≡ Some b → IsStepTo grounds.now.job.now a item b step) }
{
    entries_on_lines();
    places_of_items();
    let graph = &grounds.basis.graph;
    let Some(listed) = listed_at(alloc, grounds, graph.node(from), item, likely)? else {
        unreachable!()
    };
    Ok(Step {
        mention: Mention::Item(listed),
        target: target_of(alloc, &grounds.basis.lookup.tables, graph.node(to))?,
    })
}
