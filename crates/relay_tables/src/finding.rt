//! Nodes that are found by what leads to them.
ghost use Rattle.std.specs.Prelude.{◌≡◌, ◌<◌, false, length, map, slice_get, option_map, Some, None, IfSome, ◌&&◌};
ghost use Rattle.std.specs.List.{list_any};
ghost use Rattle.std.specs.Str.{bytes_eq};
ghost use Rattle.relay_tables.specs.Graphs.{same_address, same_node};
ghost use Rattle.relay_tables.specs.Numbering.{node_of, node_hash};

use crate::lead::Lead;
use crate::node::Node;
use relay_chains::{Links, TextKey, hash_text};
use relay_text::{Address, one_joined_text, same_bytes};

/// The hash of what a lead leads to.
#[tactic(auto, unfolding(crate::specs::Numbering::node_hash))]
pub(crate) fn lead_hash(key: TextKey, lead: Lead<'_>) -> u32
    ensures { result ≡ node_hash key (node_of lead.entry) }
{
    match lead {
        Lead::Alias(number) | Lead::Include(number) => hash_text(key, &number.to_le_bytes()),
        Lead::Mailbox(local, _) => hash_text(key, local),
        Lead::Written(address) => hash_text(key, address.local()),
        Lead::Remote(address) => hash_text(key, address.joined()),
        Lead::Missing(name) => hash_text(key, name),
        Lead::NoInclude(path) => hash_text(key, path),
        Lead::Command(text) => hash_text(key, text),
        Lead::File(path) => hash_text(key, path),
    }
}

// Is this an address's local part and domain? The domain is the same more often.
fn is_address_of(local: &[u8], domain: &[u8], address: &Address) -> bool
    ensures { result ≡ (bytes_eq local.now address.now.local && bytes_eq domain.now address.now.domain) }
{
    same_bytes(local, address.local()) && same_bytes(domain, address.domain())
}

// Are these the same address? Their joined bytes are the same then.
fn is_same_address(first: &Address, second: &Address) -> bool
    ensures { result ≡ same_address first.now second.now }
{
    one_joined_text();
    same_bytes(first.joined(), second.joined())
}

// Does a lead lead to this node?
fn leads_to(lead: Lead<'_>, node: &Node) -> bool
    ensures { result ≡ same_node (node_of lead.entry) node.now }
{
    match (lead, node) {
        (Lead::Alias(number), Node::Alias(other)) => number == *other,
        (Lead::Include(number), Node::Include(other)) => number == *other,
        (Lead::Mailbox(local, domain), Node::Mailbox(address)) => {
            is_address_of(local, domain, address)
        }
        (Lead::Written(address), Node::Mailbox(other)) => is_same_address(address, other),
        (Lead::Remote(address), Node::Remote(other)) => is_same_address(address, other),
        (Lead::Missing(name), Node::Missing(text)) => same_bytes(name, text.as_bytes()),
        (Lead::NoInclude(path), Node::NoInclude(text)) => same_bytes(path, text.as_bytes()),
        (Lead::Command(command), Node::Command(text)) => same_bytes(command, text.as_bytes()),
        (Lead::File(path), Node::File(text)) => same_bytes(path, text.as_bytes()),
        _ => false,
    }
}

/// The place of what a lead with this hash leads to, where it's there.
pub(crate) fn find_node(
    nodes: &[Node],
    hashes: &Links,
    key: TextKey,
    hash: u32,
    lead: Lead<'_>,
) -> Option<u32>
    requires hashed { hashes.now ≡ map (node_hash key) nodes.now }
    requires hash { hash ≡ node_hash key (node_of lead) }
    ensures found { IfSome result (λ place. slice_get nodes.now place ≡ Some (node_of lead.entry)) }
    ensures none { result ≡ None → list_any (same_node (node_of lead.entry)) nodes.now ≡ false }
{
    hashes.find_last(
        hash,
        |number: u32| -> bool
            requires { number < length nodes.now }
            ensures { option_map (same_node (node_of lead.entry)) (slice_get nodes.entry.now number) ≡ Some result }
        { leads_to(lead, &nodes[number as usize]) },
    )
}
