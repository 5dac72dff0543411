//! The texts by which senders are found, and what leads stand for in memory of its own.
ghost use Rattle.std.specs.Prelude.{◌≡◌, ◌<◌, ◌∷◌, ◌++◌, length, IfOk, OnOk};
ghost use Rattle.relay_tables.specs.Numbering.{node_of, HasGoodAddress};

use crate::lead::Lead;
use crate::node::Node;
use relay_text::{Address, Text};
use std::alloc::{AllocError, Global};

// A byte for the kind, the length of the domain, the domain and the local part.
pub(crate) fn put_address(
    kind: u8,
    local: &[u8],
    domain: &[u8],
    key: &mut Vec<u8>,
) -> Result<(), AllocError>
    requires { length domain.now < 256 }
    ensures { OnOk result (key.new.items ≡ kind ∷ length domain.now ∷ (domain.now ++ local.now)) }
{
    key.clear();
    key.push(kind)?;
    key.push(domain.len() as u8)?;
    key.extend_from_slice(domain)?;
    key.extend_from_slice(local)
}

/// The node that a lead leads to, in memory of its own.
pub(crate) fn make_node(alloc: Global, lead: Lead<'_>) -> Result<Node, AllocError>
    requires { HasGoodAddress (node_of lead) }
    ensures { IfOk result (λ node. node ≡ node_of lead.entry) }
{
    Ok(match lead {
        Lead::Alias(number) => Node::Alias(number),
        Lead::Include(number) => Node::Include(number),
        Lead::Mailbox(local, domain) => Node::Mailbox(Address::new(alloc, local, domain)?),
        Lead::Written(address) => Node::Mailbox(address.copy(alloc)?),
        Lead::Remote(address) => Node::Remote(address.copy(alloc)?),
        Lead::Missing(name) => Node::Missing(Text::copy_of(alloc, name)?),
        Lead::NoInclude(path) => Node::NoInclude(Text::copy_of(alloc, path)?),
        Lead::Command(text) => Node::Command(Text::copy_of(alloc, text)?),
        Lead::File(path) => Node::File(Text::copy_of(alloc, path)?),
    })
}
