//! The pairs that are reached from one root.
ghost use Rattle.std.specs.Prelude.{◌≡◌, ◌<◌, ◌≤◌, ◌-◌, ◌^◌, All, length, Err, IfOk};
ghost use Rattle.relay_pairs.specs.Pairs.{ArePairsFrom, HasMorePairsFrom};

use crate::reached::Reached;
use crate::reaching::pairs_of;
use crate::steps::PairSteps;
use relay_rounds::{Crew, Gate, ReachFault, reach};
use relay_tables::Graph;
use std::thread::Threads;

/// A search in a graph, which starts at one of its nodes each time.
#[derive(Drop)]
pub struct Search<'a, G, R> {
    pub crew: Crew<'a, G, R>,
    pub graph: &'a Graph,
}

impl<G: Gate, R: Threads + Sync> Search<'_, G, R> {
    /// All pairs of sender and node that some chain of steps from this root, under the envelope's sender, ends in: by sender and then by
    /// node, each once. It takes the time and memory of what is reached, and not of the graph.
    ///
    /// `TooManyPairs` comes exactly where more than `limit` pairs are reached, and `Memory` only where memory was refused.
    pub fn pairs_from(&self, root: u32, limit: usize) -> Result<Vec<Reached>, ReachFault>
        requires root { root < length self.now.graph.now.nodes }
        requires limit { limit ≤ 2 ^ 32 - 2 }
        ensures pairs { IfOk result (λ pairs. ArePairsFrom self.now.graph.now root pairs.items) }
        ensures in_graph { IfOk result (λ pairs. All (λ p. (p.sender < length self.now.graph.now.senders) × (p.node < length self.now.graph.now.nodes)) pairs.items) }
        ensures within { IfOk result (λ pairs. length pairs.items ≤ limit) }
        ensures refused { result ≡ Err ReachFault.TooManyPairs → HasMorePairsFrom self.now.graph.now root limit }
    {
        let graph = self.graph;
        // For what the call says alone: steps lead to pairs of the graph.
        let _ = graph.nodes();
        let first = [u64::from(root)];
        let keys = reach(&self.crew, &PairSteps { graph }, &first, limit)?;
        let pairs = pairs_of(self.crew.alloc, &keys)?;
        Ok(pairs)
    }
}
