//! The places of pairs.
ghost use Rattle.std.specs.Prelude.{◌≡◌, ◌<◌, ◌^◌, All, Contains, IsTrue, Some, length, map, slice_get};
ghost use Rattle.std.specs.List.Sorted.{IsStrictlyIncreasing};
ghost use Rattle.relay_pairs.specs.Pairs.{key_of};

use relay_pairs::Reached;
use relay_tables::Graph;

// The pairs ascend by this.
fn key(pair: Reached) -> u64
    ensures { result ≡ key_of pair }
{
    u64::from(pair.sender) * (1 << 24) + u64::from(pair.node)
}

// Where the pair of a child stands if the parent's stands at a place, and all nodes between the two are reached under the same sender.
pub(crate) fn likely_place(place: usize, parent: u32, child: u32) -> usize {
    place
        .wrapping_add(child as usize)
        .wrapping_sub(parent as usize)
}

// The place of a pair among those that are reached. It is looked for first at a likely place: a search takes a dozen reads of memory, one
// after another.
fn place_near(pairs: &[Reached], pair: Reached, likely: usize) -> usize
    requires ascending { IsStrictlyIncreasing (map key_of pairs.now) }
    requires nodes { All (λ p. p.node < 2 ^ 24) pairs.now }
    requires listed { Contains pairs.now pair }
    ensures { slice_get pairs.now result ≡ Some pair }
{
    if let Some(there) = pairs.get(likely)
        && *there == pair
    {
        return likely;
    }
    match pairs.binary_search_by_key(&key(pair), |p| key(*p)) {
        Ok(place) => place,
        Err(_) => unreachable!(),
    }
}

// Whether every node is reached, under the only sender. Then a pair's place is its node's number.
fn are_all_there(graph: &Graph, pairs: &[Reached]) -> bool
    ensures { IsTrue result → (length graph.now.senders ≡ 1) × (length pairs.now ≡ length graph.now.nodes) }
{
    graph.senders() == 1 && pairs.len() == graph.nodes()
}

/// The place of a pair among those that are reached. A look there is one more wait for memory, so where each pair is at its node's number it
/// isn't looked for; else first at a likely place.
pub(crate) fn place_of(graph: &Graph, pairs: &[Reached], pair: Reached, likely: usize) -> usize
    requires ascending { IsStrictlyIncreasing (map key_of pairs.now) }
    requires in_graph { All (λ p. (p.sender < length graph.now.senders) × (p.node < length graph.now.nodes)) pairs.now }
    requires nodes { All (λ p. p.node < 2 ^ 24) pairs.now }
    requires listed { Contains pairs.now pair }
    ensures { slice_get pairs.now result ≡ Some pair }
{
    if are_all_there(graph, pairs) {
        return pair.node as usize;
    }
    place_near(pairs, pair, likely)
}
