//! Which node is asked for.
ghost use Rattle.std.specs.Prelude.{◌≡◌, None, true, false, IsTrue, IfOk, IfSome};
ghost use Rattle.relay_tables.specs.Parts.{is_local_part};
ghost use Rattle.relay_tables.specs.Targets.{name_target};
ghost use Rattle.relay_planning.specs.Delivery.{directory_of, IsReachedNode};
ghost use Rattle.aliasplan_explain.specs.Grounds.{IsBasisOf};
ghost use Rattle.aliasplan_explain.specs.Targets.{delivered, stands_for, IsAskedFor};

use crate::grounds::Grounds;
use crate::nodes::number_of;
use relay_explain::Asked;
use relay_tables::{Node, Target};
use relay_text::{Address, Text};
use std::alloc::{AllocError, Global};

// A folded name's address at the origin.
fn at_origin(alloc: Global, grounds: &Grounds<'_>, name: &[u8]) -> Result<Address, AllocError>
    requires made { IsBasisOf grounds.now.job.now grounds.now.basis.now }
    requires name { IsTrue (is_local_part name.now) }
    ensures { IfOk result (λ a. a ≡ record { local = name.now; domain = grounds.now.job.now.settings.origin }) }
{
    Address::new(alloc, name, grounds.job.settings.origin.as_bytes())
}

// What a local name stands for as a recipient.
fn named(alloc: Global, grounds: &Grounds<'_>, local: &[u8]) -> Result<Node, AllocError>
    requires made { IsBasisOf grounds.now.job.now grounds.now.basis.now }
    requires local { IsTrue (is_local_part local.now) }
    ensures { IfOk result (λ node. node ≡ name_target (directory_of grounds.now.job.now) None local.now) }
{
    let name = Text::folded_copy_of(alloc, local)?;
    match grounds.basis.lookup.tables.resolve(name.as_bytes(), None) {
        Target::Alias(number) => Ok(Node::Alias(number)),
        Target::Mailbox => Ok(Node::Mailbox(at_origin(alloc, grounds, name.as_bytes())?)),
        Target::Missing => Ok(Node::Missing(name)),
    }
}

/// What the asked name or address stands for as a recipient.
pub(crate) fn stands_for(
    alloc: Global,
    grounds: &Grounds<'_>,
    asked: &Asked,
) -> Result<Node, AllocError>
    requires { IsBasisOf grounds.now.job.now grounds.now.basis.now }
    ensures { IfOk result (λ node. node ≡ stands_for (directory_of grounds.now.job.now) asked.now) }
{
    match asked {
        Asked::Name(address) => named(alloc, grounds, address.local()),
        Asked::Address(address) => {
            if grounds.basis.lookup.tables.is_local(address) {
                named(alloc, grounds, address.local())
            } else {
                Ok(Node::Remote(address.copy(alloc)?))
            }
        }
    }
}

// The node of an address that mail is delivered to.
fn delivered(alloc: Global, grounds: &Grounds<'_>, address: &Address) -> Result<Node, AllocError>
    requires { IsBasisOf grounds.now.job.now grounds.now.basis.now }
    ensures { IfOk result (λ node. node ≡ delivered (directory_of grounds.now.job.now) address.now) }
{
    if grounds.basis.lookup.tables.is_local(address) {
        let name = Text::folded_copy_of(alloc, address.local())?;
        Ok(Node::Mailbox(at_origin(alloc, grounds, name.as_bytes())?))
    } else {
        Ok(Node::Remote(address.copy(alloc)?))
    }
}

// Whether the node is reached under some sender.
fn is_reached(grounds: &Grounds<'_>, node: &Node) -> bool
    requires { IsBasisOf grounds.now.job.now grounds.now.basis.now }
    ensures yes { result ≡ true → IsReachedNode grounds.now.job.now node.now }
    ensures no { result ≡ false → ¬ IsReachedNode grounds.now.job.now node.now }
{
    let Some(number) = number_of(&grounds.basis.graph, node) else {
        return false;
    };
    for pair in &grounds.basis.pairs {
        if pair.node == number {
            return true;
        }
    }
    false
}

// The node of an address that mail is delivered to, where mail is.
fn reached_address(
    alloc: Global,
    grounds: &Grounds<'_>,
    address: &Address,
) -> Result<Option<Node>, AllocError>
    requires { IsBasisOf grounds.now.job.now grounds.now.basis.now }
    ensures some { IfOk result (λ found. IfSome found (λ node. IsReachedNode grounds.now.job.now (delivered (directory_of grounds.now.job.now) address.now) × (node ≡ delivered (directory_of grounds.now.job.now) address.now))) }
    ensures none { IfOk result (λ found. found ≡ None → ¬ IsReachedNode grounds.now.job.now (delivered (directory_of grounds.now.job.now) address.now)) }
{
    let node = delivered(alloc, grounds, address)?;
    if is_reached(grounds, &node) {
        Ok(Some(node))
    } else {
        Ok(None)
    }
}

/// The node that is asked for. `Err` where memory runs out.
pub(crate) fn asked_for(
    alloc: Global,
    grounds: &Grounds<'_>,
    asked: &Asked,
) -> Result<Node, AllocError>
    requires { IsBasisOf grounds.now.job.now grounds.now.basis.now }
    ensures { IfOk result (IsAskedFor grounds.now.job.now asked.now) }
{
    let Asked::Address(address) = asked else {
        return stands_for(alloc, grounds, asked);
    };
    match reached_address(alloc, grounds, address)? {
        Some(node) => Ok(node),
        None => stands_for(alloc, grounds, asked),
    }
}
