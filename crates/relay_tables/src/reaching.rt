//! What an envelope reaches, numbered as it's found.
ghost use Rattle.std.specs.Prelude.{◌≡◌, ◌<◌, ◌≤◌, ◌+◌, ◌-◌, ◌^◌, List, length, option_map, IfOk, OnOk, Err};
ghost use Rattle.relay_text.specs.AddressParts.{AddressParts};
ghost use Rattle.relay_tables.specs.Senders.{Sender};
ghost use Rattle.relay_tables.specs.Graphs.{nodes_of};
ghost use Rattle.relay_tables.specs.Sending.{IsOwnedBy};
ghost use Rattle.relay_tables.specs.Reaches.{owner_at, MayAddSender, AreFound, IsReach};

use crate::adjacency::Adjacency;
use crate::fault::TableFault;
use crate::listed::items_of;
use crate::node::Node;
use crate::numbering::{Entries, Numbering};
use crate::rowing::{Scratch, number_items, number_recipients};
use crate::sending::{SenderList, number_owner};
use crate::tables::Tables;
use relay_text::Address;
use std::alloc::{AllocError, Global};

// For so many targets there is room at first.
const FEW: usize = 8;

/// The nodes that are found, the recipients' targets among them, and of the first nodes, as many as there are rows, the children and the
/// senders that they set.
#[derive(Drop)]
pub(crate) struct Reach {
    pub(crate) names: Numbering,
    pub(crate) roots: Vec<u32>,
    pub(crate) children: Adjacency,
    pub(crate) senders: SenderList,
    pub(crate) owners: Vec<Option<u32>>,
    pub(crate) scratch: Scratch,
}

/// All that recipients lead to, where that is at most `names` nodes: a row for each node, in the order of their numbers.
pub(crate) fn reach_all(
    alloc: Global,
    tables: &Tables,
    sender: Option<&Address>,
    recipients: &[Address],
    names: usize,
) -> Result<Reach, TableFault>
    requires names { names ≤ 2 ^ 24 }
    ensures reach { IfOk result (IsReach tables.now (option_map (λ a. a.now) sender.entry) recipients.now) }
    ensures all { IfOk result (λ found. length found.children ≡ length found.names.nodes) }
    ensures nodes { IfOk result (λ found. length found.names.nodes ≤ names) }
    ensures full { result ≡ Err TableFault.TooManyNames → names < length (nodes_of tables.now recipients.now) }
    ensures owners { result ≡ Err TableFault.TooManyOwners → ⊥ }
{
    let mut found = reach_roots(alloc, tables, sender, recipients, names)?;
    'nodes: while found.children.len() < found.names.len() {
        reach_more(alloc, tables, &mut found)?;
    }
    Ok(found)
}

// The recipients' targets alone, with no rows yet.
fn reach_roots(
    alloc: Global,
    tables: &Tables,
    sender: Option<&Address>,
    recipients: &[Address],
    names: usize,
) -> Result<Reach, TableFault>
    requires names { names ≤ 2 ^ 24 }
    ensures reach { IfOk result (IsReach tables.now (option_map (λ a. a.now) sender.entry) recipients.now) }
    ensures limit { IfOk result (λ found. found.names.limit ≡ names) }
    ensures full { result ≡ Err TableFault.TooManyNames → names < length (nodes_of tables.now recipients.now) }
    ensures owners { result ≡ Err TableFault.TooManyOwners → ⊥ }
{
    let targets = recipients.len().max(FEW);
    let heads = targets.saturating_mul(2);
    let none = Entries {
        aliases: 0,
        includes: 0,
    };
    let mut numbering = Numbering::new(alloc, tables.key(), none, heads, names)?;
    let mut scratch = Scratch::new(alloc);
    let roots = number_recipients(alloc, tables, recipients, &mut numbering, &mut scratch)?;
    let owners = Vec::new(alloc);
    Ok(Reach {
        names: numbering,
        roots,
        children: Adjacency::with_capacity(alloc, FEW)?,
        senders: SenderList::new(alloc, tables.key(), 1, sender)?,
        owners,
        scratch,
    })
}

// What the first node without a row leads to, and the sender that it sets.
fn reach_more(alloc: Global, tables: &Tables, found: &mut Reach) -> Result<(), TableFault>
    requires some { length found.old.children < length found.old.names.nodes }
    requires few { length found.old.children < 2 ^ 24 }
    requires room { length found.old.senders < 2 ^ 32 - 2 }
    ensures reach { OnOk result ((sender : Sender) (recipients : List AddressParts) → IsReach tables.now sender recipients found.old → IsReach tables.now sender recipients found.new) }
    ensures more { OnOk result (length found.new.children ≡ length found.old.children + 1) }
    ensures limit { OnOk result (found.new.names.limit ≡ found.old.names.limit) }
    ensures full { result ≡ Err TableFault.TooManyNames → (recipients : List AddressParts) → AreFound tables.now recipients found.old.names.nodes → found.old.names.limit < length (nodes_of tables.now recipients) }
    ensures owners { result ≡ Err TableFault.TooManyOwners → ⊥ }
{
    let number = found.children.len();
    let node = found.names.node(number);
    let owner = number_sender(alloc, tables, node, &mut found.senders)?;
    found.owners.push(owner)?;
    let list = items_of(tables, node);
    number_items(tables, list, &mut found.names, &mut found.scratch)?;
    found.children.push(&found.scratch.row)?;
    Ok(())
}

// The number of the sender that a node sets: an alias with an owner sets its owner's.
fn number_sender(
    alloc: Global,
    tables: &Tables,
    node: &Node,
    senders: &mut SenderList,
) -> Result<Option<u32>, AllocError>
    requires room { length senders.old < 2 ^ 32 - 2 }
    ensures owned { IfOk result (λ number. IsOwnedBy tables.now senders.new number (owner_at tables.now node.now)) }
    ensures added { OnOk result (MayAddSender tables.now senders.old senders.new) }
{
    match node {
        Node::Alias(alias) => {
            if (*alias as usize) < tables.aliases().len() {
                number_owner(alloc, tables, *alias, senders)
            } else {
                Ok(None)
            }
        }
        _ => Ok(None),
    }
}
