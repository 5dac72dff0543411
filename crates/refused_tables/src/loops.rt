//! The nodes that are on a loop.
ghost use Rattle.std.specs.Prelude.{◌≡◌, length, IfOk};
ghost use Rattle.std.specs.List.{range_with_len};
ghost use Rattle.relay_loops.specs.Loops.{IsClosedPart};

use crate::inputs::graph;
use crate::lending::lent_input;
use growth_answers::{Answer, Seen, Teller, Unready, case, twice};
use relay_loops::{on_loops, whole_graphs};
use relay_rounds::{Crew, NoGate};
use relay_tables::Graph;
use std::alloc::Global;
use std::thread::Threads;

/// Two rings, and a node between them.
const RINGS: &[u8] = b"a: b, c\nb: a\nc: e\ne: f, y@example.net\nf: e\n";

/// A ring of two nodes of five.
const SMALL_RING: &[u8] = b"a: b, k@example.net, l@example.net, m@example.net\nb: a\n";

/// The numbers of all nodes, which are a closed part.
fn all_nodes(alloc: Global, graph: &Graph) -> Result<Vec<u32>, Unready>
    ensures all { IfOk result (λ nodes. nodes.items ≡ range_with_len 0 (length graph.now.nodes)) }
    ensures closed { IfOk result (λ nodes. IsClosedPart graph.now nodes.items) }
{
    whole_graphs();
    if graph.nodes() > 1000 {
        return Err(Unready::Wrong);
    }
    let nodes = (0..graph.nodes() as u32).collect(alloc)?;
    Ok(nodes)
}

fn are_loops<R: Threads + Sync>(
    rt: &R,
    alloc: Global,
    graph: &Graph,
    nodes: &[u32],
    wanted: &[u32],
) -> Answer
    requires { IsClosedPart graph.now nodes.now }
{
    let crew = Crew {
        rt,
        alloc,
        workers: 2,
        cut: 1,
        salt: 0,
        gate: &NoGate,
    };
    match on_loops(&crew, graph, nodes) {
        Ok(loops) => Answer::given(loops.as_slice() == wanted),
        Err(_) => Answer::Refused,
    }
}

fn finds_its_loops<R: Threads + Sync>(
    rt: &R,
    alloc: Global,
    graph: &Graph,
    wanted: &[u32],
) -> Result<Seen, Unready> {
    let nodes = all_nodes(alloc, graph)?;
    Ok(twice!(are_loops(rt, alloc, graph, &nodes, wanted)))
}

fn finds_loops<R: Threads + Sync>(
    rt: &R,
    alloc: Global,
    aliases: &[u8],
    wanted: &[u32],
) -> Result<Seen, Unready> {
    lent_input(graph(alloc, aliases, b"a"), |graph| {
        finds_its_loops(rt, alloc, graph, wanted)
    })
}

pub(crate) fn tell<R: Print + AllocGlobal + Threads + Sync>(teller: &mut Teller<'_, R>) {
    let rt = teller.rt;
    let alloc = rt.alloc();
    case!(
        teller,
        "on_loops",
        finds_loops(rt, alloc, RINGS, &[0, 1, 3, 4])
    );
    case!(
        teller,
        "on_loops, few lead on",
        finds_loops(rt, alloc, SMALL_RING, &[0, 1])
    );
}
