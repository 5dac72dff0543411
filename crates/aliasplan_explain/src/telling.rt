//! What is told of a node, for each sender under which it is reached.
ghost use Rattle.std.specs.Prelude.{◌≡◌, map, All, IfOk};
ghost use Rattle.relay_planning.specs.Plans.{IsSoundFor};
ghost use Rattle.aliasplan_explain.specs.Chains.{chain_sender, AreChainsTo, IsChainTo};
ghost use Rattle.aliasplan_explain.specs.Endings.{IsEnding};
ghost use Rattle.aliasplan_explain.specs.Grounds.{IsBasisOf};
ghost use Rattle.aliasplan_explain.specs.Tellings.{told_sender, AreToldFor, IsToldFor};

use crate::ending::{Ending, ending_of, outcome_of};
use crate::grounds::Grounds;
use crate::lines::ChainLines;
use relay_explain::Told;
use relay_ordering::in_order;
use relay_tables::Node;
use relay_text::Seq;
use relay_wire::Plan;
use std::alloc::{AllocError, Global};

// What is told of a chain.
fn told_of(
    alloc: Global,
    grounds: &Grounds<'_>,
    plan: &Plan,
    node: &Node,
    ending: &Ending,
    chain: ChainLines,
) -> Result<Told, AllocError>
    requires made { IsBasisOf grounds.now.job.now grounds.now.basis.now }
    requires sound { IsSoundFor grounds.now.job.now plan.now.transactions }
    requires ending { IsEnding grounds.now.job.now plan.now node.now ending.now }
    requires chain { IsChainTo grounds.now.job.now grounds.now.recipient_lines.now node.now chain }
    ensures told { IfOk result (IsToldFor grounds.now.job.now plan.now grounds.now.recipient_lines.now node.now) }
    ensures sender { IfOk result (λ told. told.from ≡ chain.from) }
{
    let outcome = outcome_of(alloc, grounds, plan, node, ending, chain.from.as_ref())?;
    let ChainLines {
        lines,
        from,
        given_by,
    } = chain;
    Ok(Told {
        lines: Seq::of(lines),
        from,
        given_by,
        outcome,
    })
}

// What is told of chains.
fn told_of_all(
    alloc: Global,
    grounds: &Grounds<'_>,
    plan: &Plan,
    node: &Node,
    chains: Vec<ChainLines>,
) -> Result<Vec<Told>, AllocError>
    requires made { IsBasisOf grounds.now.job.now grounds.now.basis.now }
    requires sound { IsSoundFor grounds.now.job.now plan.now.transactions }
    requires each { All (IsChainTo grounds.now.job.now grounds.now.recipient_lines.now node.now) chains.items }
    ensures each { IfOk result (λ told. All (IsToldFor grounds.now.job.now plan.now grounds.now.recipient_lines.now node.now) told.items) }
    ensures senders { IfOk result (λ told. map told_sender told.items ≡ map chain_sender chains.items) }
{
    let ending = ending_of(alloc, grounds, plan, node)?;
    let mut told = Vec::with_capacity(alloc, chains.len())?;
    for chain in chains {
        told.push(told_of(alloc, grounds, plan, node, &ending, chain)?)?;
    }
    Ok(told)
}

/// What is told for each sender under which the node is reached, in the order of the senders' paths. `Err` where memory runs out.
pub(crate) fn told_for(
    alloc: Global,
    grounds: &Grounds<'_>,
    plan: &Plan,
    node: &Node,
    chains: Vec<ChainLines>,
) -> Result<Seq<Told>, AllocError>
    requires made { IsBasisOf grounds.now.job.now grounds.now.basis.now }
    requires sound { IsSoundFor grounds.now.job.now plan.now.transactions }
    requires chains { AreChainsTo grounds.now.job.now grounds.now.recipient_lines.now node.now grounds.now.basis.now.graph chains.items }
    ensures { IfOk result (AreToldFor grounds.now.job.now plan.now grounds.now.recipient_lines.now node.now) }
{
    let told = told_of_all(alloc, grounds, plan, node, chains)?;
    in_order(alloc, told)
}
