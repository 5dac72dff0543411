//! All pairs that are reached.
ghost use Rattle.std.specs.Prelude.{◌≡◌, ◌<◌, ◌≤◌, ◌-◌, ◌^◌, ◌*◌, All, length, map, Err, IfOk};
ghost use Rattle.relay_pairs.specs.Pairs.{key_count, pair_at, ArePairs, HasMorePairs};

use crate::reached::Reached;
use crate::steps::PairSteps;
use relay_rounds::{Crew, Gate, Key, ReachFault, reach};
use relay_tables::Graph;
use std::alloc::{AllocError, Global};
use std::thread::Threads;

/// All pairs of sender and node that some chain of steps from a root, under the envelope's sender, ends in: by sender and then
/// by node, each once. Its length doesn't matter, and a loop ends it nowhere.
///
/// `TooManyPairs` comes exactly where more than `limit` pairs are reached, and `Memory` only where memory was refused.
pub fn reached_pairs<G: Gate, R: Threads + Sync>(
    crew: &Crew<G, R>,
    graph: &Graph,
    limit: usize,
) -> Result<Vec<Reached>, ReachFault>
    requires limit { limit ≤ 2 ^ 32 - 2 }
    ensures pairs { IfOk result (λ pairs. ArePairs graph.now pairs.items) }
    ensures in_graph { IfOk result (λ pairs. All (λ p. (p.sender < length graph.now.senders) × (p.node < length graph.now.nodes)) pairs.items) }
    ensures within { IfOk result (λ pairs. length pairs.items ≤ limit) }
    ensures refused { result ≡ Err ReachFault.TooManyPairs → HasMorePairs graph.now limit }
{
    // For what the call says alone: steps lead to pairs of the graph.
    let _ = graph.nodes();
    let roots = first_keys(crew.alloc, graph)?;
    let keys = reach(crew, &PairSteps { graph }, &roots, limit)?;
    let pairs = pairs_of(crew.alloc, &keys)?;
    Ok(pairs)
}

// The keys of the roots, under the envelope's sender, whose number is 0.
fn first_keys(alloc: Global, graph: &Graph) -> Result<Vec<Key>, AllocError>
    ensures { IfOk result (λ keys. keys.items ≡ graph.now.roots) }
{
    graph
        .roots()
        .iter()
        .map(|node| u64::from(*node))
        .collect(alloc)
}

// The pairs of keys.
pub(crate) fn pairs_of(alloc: Global, keys: &[Key]) -> Result<Vec<Reached>, AllocError>
    requires { All (λ key. key < 2 ^ 56) keys.now }
    ensures { IfOk result (λ pairs. pairs.items ≡ map pair_at keys.now) }
{
    let mut pairs = Vec::with_capacity(alloc, keys.len())?;
    for key in keys {
        pairs.push(Reached::of_key(*key))?;
    }
    Ok(pairs)
}
