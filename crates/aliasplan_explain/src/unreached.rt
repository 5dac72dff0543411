//! The items that lead to a node.
ghost use Rattle.std.specs.Prelude.{◌≡◌, ◌<◌, ◌++◌, ◌∷◌, [], map, length, slice_get, Some, None, Contains, IsSome, IfSome, IfOk, OnOk};
ghost use Rattle.relay_aliasfile.specs.ItemPlaces.{place_value};
ghost use Rattle.relay_tables.specs.declared.node.Node as nodes;
ghost use Rattle.relay_tables.specs.Graphs.{child_numbers, entry_nodes, nodes_at};
ghost use Rattle.relay_planning.specs.Delivery.{directory_of};
ghost use Rattle.aliasplan_explain.specs.Grounds.{IsBasisOf};
ghost use Rattle.aliasplan_explain.specs.Rows.{listed_in};
ghost use Rattle.relay_explain.specs.declared.entry.Entry as entries;
ghost use Rattle.aliasplan_explain.specs.Targets.{entry_at, target_at};
ghost use Rattle.aliasplan_explain.specs.Unreached.{listed_of, numbered_for, unreached_of};

use crate::grounds::Grounds;
use crate::nodes::number_of;
use crate::rows::{listed_in, row_of};
use crate::targets::entry_of;
use relay_aliasfile::ItemPlace;
use relay_explain::Listed;
use relay_tables::{Node, Tables};
use relay_text::Seq;
use std::alloc::{AllocError, Global};

// The place of an entry, among all entries and then all include files.
fn place_of(tables: &Tables, node: &Node) -> Option<usize>
    requires { IsSome (target_at tables.now node.now) }
    ensures some { IfSome result (λ place. slice_get (entry_nodes tables.now) place ≡ Some node.now) }
    ensures none { result ≡ None → ¬ Contains (entry_nodes tables.now) node.now }
{
    match node {
        Node::Alias(number) => Some(*number as usize),
        Node::Include(number) => Some(tables.aliases().len() + *number as usize),
        _ => None,
    }
}

// The numbers of all entries and then of all include files, in their order.
fn entry_numbers(alloc: Global, grounds: &Grounds<'_>) -> Result<Vec<u32>, AllocError>
    requires { IsBasisOf grounds.now.job.now grounds.now.basis.now }
    ensures { IfOk result (λ numbers. nodes_at grounds.now.basis.now.graph numbers.items ≡ map (λ node. Some node) (entry_nodes (directory_of grounds.now.job.now))) }
{
    let graph = &grounds.basis.graph;
    let tables = &grounds.basis.lookup.tables;
    let count = tables.aliases().len() + tables.includes().len();
    let mut numbers = vec![in alloc; 0u32; count]?;
    for number in 0..graph.nodes() {
        if let Some(place) = place_of(tables, graph.node(number as u32)) {
            numbers[place] = number as u32;
        }
    }
    Ok(numbers)
}

// Adds an item of an entry or include file.
fn add_item(
    alloc: Global,
    grounds: &Grounds<'_>,
    from: u32,
    place: &ItemPlace<'_>,
    listed: &mut Vec<Listed>,
) -> Result<(), AllocError>
    requires made { IsBasisOf grounds.now.job.now grounds.now.basis.now }
    requires from { from < length grounds.now.basis.now.graph.nodes }
    requires entry { IfSome (slice_get grounds.now.basis.now.graph.nodes from) (λ node. IsSome (entry_at (directory_of grounds.now.job.now) node)) }
    ensures { OnOk result ((node : nodes.Node) (entry : entries.Entry) → slice_get grounds.now.basis.now.graph.nodes from ≡ Some node → entry_at (directory_of grounds.now.job.now) node ≡ Some entry → listed.new.items ≡ listed.old.items ++ listed_in entry (place_value place.now) ∷ []) }
{
    let node = grounds.basis.graph.node(from);
    let Some(entry) = entry_of(alloc, &grounds.basis.lookup.tables, node)? else {
        unreachable!()
    };
    listed.push(listed_in(alloc, entry, place)?)?;
    Ok(())
}

// Adds those of a node's items whose target has the number.
fn add_items(
    alloc: Global,
    grounds: &Grounds<'_>,
    from: u32,
    target: u32,
    row: &[ItemPlace<'_>],
    listed: &mut Vec<Listed>,
) -> Result<(), AllocError>
    requires made { IsBasisOf grounds.now.job.now grounds.now.basis.now }
    requires from { from < length grounds.now.basis.now.graph.nodes }
    requires entry { IfSome (slice_get grounds.now.basis.now.graph.nodes from) (λ node. IsSome (entry_at (directory_of grounds.now.job.now) node)) }
    ensures { OnOk result ((node : nodes.Node) (entry : entries.Entry) → slice_get grounds.now.basis.now.graph.nodes from ≡ Some node → entry_at (directory_of grounds.now.job.now) node ≡ Some entry → listed.new.items ≡ listed.old.items ++ numbered_for target (child_numbers grounds.now.basis.now.graph from) (map (listed_in entry) (map place_value row.now))) }
{
    let children = grounds.basis.graph.children(from);
    for (child, place) in children.iter().zip(row) {
        if *child == target {
            add_item(alloc, grounds, from, place, listed)?;
        }
    }
    Ok(())
}

// Adds those of the items of an entry or include file whose target has the number.
fn add_listed(
    alloc: Global,
    grounds: &Grounds<'_>,
    from: u32,
    target: u32,
    listed: &mut Vec<Listed>,
) -> Result<(), AllocError>
    requires made { IsBasisOf grounds.now.job.now grounds.now.basis.now }
    requires from { from < length grounds.now.basis.now.graph.nodes }
    requires entry { IfSome (slice_get grounds.now.basis.now.graph.nodes from) (λ node. IsSome (entry_at (directory_of grounds.now.job.now) node)) }
    ensures { OnOk result ((node at : nodes.Node) → slice_get grounds.now.basis.now.graph.nodes from ≡ Some at → slice_get grounds.now.basis.now.graph.nodes target ≡ Some node → listed.new.items ≡ listed.old.items ++ listed_of grounds.now.job.now node at) }
{
    let graph = &grounds.basis.graph;
    if !graph.children(from).contains(&target) {
        return Ok(());
    }
    // Entries have the first numbers, and most of them a line each: the line is likely to stand at the place of that number.
    let row = row_of(alloc, grounds, graph.node(from), from as usize)?;
    add_items(alloc, grounds, from, target, &row, listed)
}

// The items whose target has the number, of all entries and then of all include files.
fn listed_for(alloc: Global, grounds: &Grounds<'_>, target: u32) -> Result<Seq<Listed>, AllocError>
    requires made { IsBasisOf grounds.now.job.now grounds.now.basis.now }
    requires target { target < length grounds.now.basis.now.graph.nodes }
    ensures { IfOk result (λ listed. (node : nodes.Node) → slice_get grounds.now.basis.now.graph.nodes target ≡ Some node → listed ≡ unreached_of grounds.now.job.now node) }
{
    let numbers = entry_numbers(alloc, grounds)?;
    let mut listed = Vec::new(alloc);
    for from in &numbers {
        add_listed(alloc, grounds, *from, target, &mut listed)?;
    }
    Ok(Seq::of(listed))
}

/// The items of entries and include files that lead to a node, in their order. `Err` where memory runs out.
pub(crate) fn unreached_of(
    alloc: Global,
    grounds: &Grounds<'_>,
    node: &Node,
) -> Result<Seq<Listed>, AllocError>
    requires { IsBasisOf grounds.now.job.now grounds.now.basis.now }
    ensures { IfOk result (λ listed. listed ≡ unreached_of grounds.now.job.now node.now) }
{
    match number_of(&grounds.basis.graph, node) {
        Some(number) => listed_for(alloc, grounds, number),
        None => Ok(Seq::of(Vec::new(alloc))),
    }
}
