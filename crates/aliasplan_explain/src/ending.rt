//! What becomes of a node.
use relay_wire::Reason;

/// What becomes of a node, whatever the sender.
#[derive(Drop)]
pub(crate) enum Ending {
    /// It is no address.
    Nothing,
    /// It is an address that has no route.
    Unrouted(Reason),
    /// It is an address, and the plan's transactions at these indices have it.
    Transactions(Vec<usize>),
}

ghost use Rattle.std.specs.Prelude.{◌≡◌, ◌<◌, ◌+◌, ℕ, length, slice_get, Some, None, Result, true, false, Contains, IfOk, IfSome, option_map};
ghost use Rattle.relay_tables.specs.declared.node.Node as nodes;
ghost use Rattle.relay_routes.specs.declared.route.Route as routes;
ghost use Rattle.relay_routes.specs.Routes.{Answers};
ghost use Rattle.relay_wire.specs.declared.plan.Planned as planned;
ghost use Rattle.relay_routes.specs.declared.unrouted.Unrouted as causes;
ghost use Rattle.relay_planning.specs.Delivery.{final_address, final_route, IsReachedPair};
ghost use Rattle.relay_planning.specs.Plans.{IsSoundFor};
ghost use Rattle.aliasplan_explain.specs.Endings.{AreIndices, IsEnding};
ghost use Rattle.aliasplan_explain.specs.Explanations.{IsOutcome};
ghost use Rattle.aliasplan_explain.specs.Grounds.{IsBasisOf};

use crate::grounds::Grounds;
use crate::nodes::is_same_address;
use aliasplan::reason_for;
use relay_explain::Outcome;
use relay_routes::{Route, Unrouted};
use relay_tables::Node;
use relay_text::{Address, Text};
use relay_wire::{Plan, Planned};
use std::alloc::{AllocError, Global};

fn copy_of_reason(alloc: Global, reason: &Reason) -> Result<Reason, AllocError>
    ensures { IfOk result (λ copy. copy ≡ reason.now) }
{
    match reason {
        Reason::Domain => Ok(Reason::Domain),
        Reason::MxSelf => Ok(Reason::MxSelf),
        Reason::Transport => Ok(Reason::Transport),
        Reason::Refused(text) => Ok(Reason::Refused(Text::copy_of(alloc, text.as_bytes())?)),
        Reason::NullMx => Ok(Reason::NullMx),
    }
}

// Are these the same sender?
fn is_same_sender(first: Option<&Address>, second: Option<&Address>) -> bool
    ensures yes { result ≡ true → option_map (λ a. a.now) first.entry ≡ option_map (λ a. a.now) second.entry }
    ensures no { result ≡ false → ¬ (option_map (λ a. a.now) first.entry ≡ option_map (λ a. a.now) second.entry) }
{
    match (first, second) {
        (Some(first), Some(second)) => is_same_address(first, second),
        (None, None) => true,
        _ => false,
    }
}

// Whether a transaction has the address.
fn has_address(planned: &Planned, address: &Address) -> bool
    ensures yes { result ≡ true → Contains planned.now.to address.now }
    ensures no { result ≡ false → ¬ Contains planned.now.to address.now }
{
    for recipient in planned.to.as_slice() {
        if is_same_address(recipient, address) {
            return true;
        }
    }
    false
}

// The indices of the transactions that have the address.
fn indices_of(
    alloc: Global,
    transactions: &[Planned],
    address: &Address,
) -> Result<Vec<usize>, AllocError>
    ensures { IfOk result (λ indices. AreIndices transactions.now address.now indices.items) }
{
    let mut indices = Vec::new(alloc);
    for (index, planned) in transactions.iter().enumerate() {
        if has_address(planned, address) {
            indices.push(index)?;
        }
    }
    Ok(indices)
}

// The ending of an address for which this route was found.
fn ending_by(
    alloc: Global,
    grounds: &Grounds<'_>,
    plan: &Plan,
    address: &Address,
    found: Result<Route, Unrouted>,
) -> Result<Ending, AllocError>
    ensures { IfOk result (λ ending. (node : nodes.Node) → final_address grounds.now.job.now node ≡ Some address.now → (given : Result routes.Route causes.Unrouted) → final_route grounds.now.job.now node ≡ Some given → Answers found given → IsEnding grounds.now.job.now plan.now node ending) }
{
    match found {
        Ok(_) => {
            let transactions = plan.transactions.as_slice();
            Ok(Ending::Transactions(indices_of(alloc, transactions, address)?))
        }
        Err(cause) => Ok(Ending::Unrouted(reason_for(cause).ok_or(AllocError)?)),
    }
}

/// What becomes of a node. `Err` where memory runs out.
pub(crate) fn ending_of(
    alloc: Global,
    grounds: &Grounds<'_>,
    plan: &Plan,
    node: &Node,
) -> Result<Ending, AllocError>
    requires made { IsBasisOf grounds.now.job.now grounds.now.basis.now }
    ensures { IfOk result (IsEnding grounds.now.job.now plan.now node.now) }
{
    let router = &grounds.basis.lookup.router;
    match node {
        Node::Mailbox(address) => {
            let via = &grounds.job.settings.mailbox_transport;
            ending_by(
                alloc,
                grounds,
                plan,
                address,
                router.route_via(alloc, via, address),
            )
        }
        Node::Remote(address) => {
            ending_by(alloc, grounds, plan, address, router.route(alloc, address))
        }
        _ => Ok(Ending::Nothing),
    }
}

// Of the transactions at these indices, the number of the one that has this sender, from 1.
fn number_under(
    transactions: &[Planned],
    indices: &[usize],
    sender: Option<&Address>,
) -> Option<usize>
    requires { (index : ℕ) → Contains indices.now index → index < length transactions.now }
    ensures some { IfSome result (λ number. (index : ℕ) × Contains indices.now index × (number ≡ index + 1) × (option_map (λ (t : planned.Planned). t.from) (slice_get transactions.now index) ≡ Some (option_map (λ a. a.now) sender.entry))) }
    ensures none { result ≡ None → (index : ℕ) → Contains indices.now index → ¬ (option_map (λ (t : planned.Planned). t.from) (slice_get transactions.now index) ≡ Some (option_map (λ a. a.now) sender.entry)) }
{
    for index in indices {
        if is_same_sender(transactions[*index].from.as_ref(), sender) {
            return Some(*index + 1);
        }
    }
    None
}

/// What becomes of a node under a sender under which it is reached. `Err` where memory runs out.
pub(crate) fn outcome_of(
    alloc: Global,
    grounds: &Grounds<'_>,
    plan: &Plan,
    node: &Node,
    ending: &Ending,
    sender: Option<&Address>,
) -> Result<Option<Outcome>, AllocError>
    requires sound { IsSoundFor grounds.now.job.now plan.now.transactions }
    requires ending { IsEnding grounds.now.job.now plan.now node.now ending.now }
    requires reached { IsReachedPair grounds.now.job.now (record { sender = option_map (λ a. a.now) sender; node = node.now }) }
    ensures { IfOk result (IsOutcome grounds.now.job.now plan.now node.now (option_map (λ a. a.now) sender.entry)) }
{
    let _ = grounds;
    let _ = node;
    match ending {
        Ending::Nothing => Ok(None),
        Ending::Unrouted(reason) => Ok(Some(Outcome::Unrouted(copy_of_reason(alloc, reason)?))),
        Ending::Transactions(indices) => {
            let transactions = plan.transactions.as_slice();
            match number_under(transactions, indices, sender) {
                Some(number) => Ok(Some(Outcome::Transaction(number))),
                None => unreachable!(),
            }
        }
    }
}
