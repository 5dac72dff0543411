//! Why a node is reached.
ghost use Rattle.std.specs.Prelude.{◌<◌, length, All};
ghost use Rattle.relay_pairs.specs.Pairs.{ArePairs};

use crate::inputs::{OWNED, graph};
use crate::lending::lent_input;
use growth_answers::{Answer, Seen, Teller, Unready, case, twice};
use relay_pairs::{Reached, reached_pairs};
use relay_rounds::{Crew, NoGate};
use relay_tables::Graph;
use relay_trails::{Found, best_trails};
use std::alloc::Global;
use std::thread::Threads;

fn is_trail(found: &Found, sender: u32, items: &[usize], nodes: &[u32]) -> bool {
    found.sender == sender
        && found.recipient == 0
        && found.items.as_slice() == items
        && found.nodes.as_slice() == nodes
}

/// Whether kim is the second item of `outer`, under the envelope's sender, and is the owner's under the other.
fn are_trails(found: &[Found]) -> bool {
    match found {
        [direct, nested] => {
            is_trail(direct, 0, &[1], &[0, 3]) && is_trail(nested, 1, &[0, 0], &[0, 1, 3])
        }
        _ => false,
    }
}

fn is_found(alloc: Global, graph: &Graph, pairs: &[Reached]) -> Answer
    requires pairs { ArePairs graph.now pairs.now }
    requires in_graph { All (λ p. (p.sender < length graph.now.senders) × (p.node < length graph.now.nodes)) pairs.now }
{
    match best_trails(alloc, graph, pairs, 3) {
        Ok(found) => Answer::given(are_trails(&found)),
        Err(_) => Answer::Refused,
    }
}

fn finds_its_trails<R: Threads + Sync>(
    rt: &R,
    alloc: Global,
    graph: &Graph,
) -> Result<Seen, Unready> {
    let crew = Crew {
        rt,
        alloc,
        workers: 2,
        cut: 1,
        salt: 0,
        gate: &NoGate,
    };
    let pairs = reached_pairs(&crew, graph, 100)?;
    Ok(twice!(is_found(alloc, graph, &pairs)))
}

fn finds_trails<R: Threads + Sync>(rt: &R, alloc: Global) -> Result<Seen, Unready> {
    lent_input(graph(alloc, OWNED, b"outer"), |graph| {
        finds_its_trails(rt, alloc, graph)
    })
}

pub(crate) fn tell<R: Print + AllocGlobal + Threads + Sync>(teller: &mut Teller<'_, R>) {
    let rt = teller.rt;
    let alloc = rt.alloc();
    case!(teller, "best_trails", finds_trails(rt, alloc));
}
