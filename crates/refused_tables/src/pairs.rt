//! Which senders and nodes a message reaches.
ghost use Rattle.relay_pairs.specs.Pairs.{ArePairs};

use crate::inputs::{OWNED, graph};
use crate::lending::lent_input;
use growth_answers::{Answer, Seen, Teller, Unready, case, twice};
use relay_pairs::{Reached, Search, reached_nodes, reached_pairs};
use relay_rounds::{Crew, NoGate, ReachFault};
use relay_tables::Graph;
use std::alloc::Global;
use std::thread::Threads;

const fn pair(sender: u32, node: u32) -> Reached {
    Reached { sender, node }
}

/// Whether the pairs are the aliases and kim under the envelope's sender, and under the owner's what `inner` names.
fn are_pairs(pairs: &[Reached]) -> bool {
    let wanted = [pair(0, 0), pair(0, 1), pair(0, 3), pair(1, 3), pair(1, 4)];
    pairs == wanted.as_slice()
}

fn are_reached<R: Threads + Sync>(rt: &R, alloc: Global, graph: &Graph) -> Answer {
    let crew = Crew {
        rt,
        alloc,
        workers: 2,
        cut: 1,
        salt: 0,
        gate: &NoGate,
    };
    match reached_pairs(&crew, graph, 100) {
        Ok(pairs) => Answer::given(are_pairs(&pairs)),
        Err(ReachFault::Memory) => Answer::Refused,
        Err(ReachFault::TooManyPairs) => Answer::Wrong,
    }
}

fn reaches_pairs<R: Threads + Sync>(rt: &R, alloc: Global) -> Result<Seen, Unready> {
    lent_input(graph(alloc, OWNED, b"outer"), |graph| {
        Ok(twice!(are_reached(rt, alloc, graph)))
    })
}

/// The list is the first node, and the only recipient's target.
fn are_from_list<R: Threads + Sync>(search: &Search<'_, NoGate, R>) -> Answer {
    if search.graph.nodes() == 0 {
        return Answer::Wrong;
    }
    match search.pairs_from(0, 100) {
        Ok(pairs) => Answer::given(are_pairs(&pairs)),
        Err(ReachFault::Memory) => Answer::Refused,
        Err(ReachFault::TooManyPairs) => Answer::Wrong,
    }
}

fn are_reached_from_list<'a, R: Threads + Sync>(
    rt: &'a R,
    alloc: Global,
    graph: &'a Graph,
) -> Seen {
    let crew = Crew {
        rt,
        alloc,
        workers: 2,
        cut: 1,
        salt: 0,
        gate: &NoGate,
    };
    let search = Search { crew, graph };
    twice!(are_from_list(&search))
}

fn reaches_pairs_of_a_recipient<R: Threads + Sync>(rt: &R, alloc: Global) -> Result<Seen, Unready> {
    lent_input(graph(alloc, OWNED, b"outer"), |graph| {
        Ok(are_reached_from_list(rt, alloc, graph))
    })
}

fn are_nodes(alloc: Global, graph: &Graph, pairs: &[Reached]) -> Answer
    requires { ArePairs graph.now pairs.now }
{
    match reached_nodes(alloc, graph, pairs) {
        Ok(nodes) => Answer::given(nodes.as_slice() == [0, 1, 3, 4].as_slice()),
        Err(_) => Answer::Refused,
    }
}

fn lists_its_nodes<R: Threads + Sync>(
    rt: &R,
    alloc: Global,
    graph: &Graph,
) -> Result<Seen, Unready> {
    let crew = Crew {
        rt,
        alloc,
        workers: 2,
        cut: 1,
        salt: 0,
        gate: &NoGate,
    };
    let pairs = reached_pairs(&crew, graph, 100)?;
    Ok(twice!(are_nodes(alloc, graph, &pairs)))
}

fn lists_nodes<R: Threads + Sync>(rt: &R, alloc: Global) -> Result<Seen, Unready> {
    lent_input(graph(alloc, OWNED, b"outer"), |graph| {
        lists_its_nodes(rt, alloc, graph)
    })
}

pub(crate) fn tell<R: Print + AllocGlobal + Threads + Sync>(teller: &mut Teller<'_, R>) {
    let rt = teller.rt;
    let alloc = rt.alloc();
    case!(teller, "reached_pairs", reaches_pairs(rt, alloc));
    case!(teller, "reached_nodes", lists_nodes(rt, alloc));
    case!(
        teller,
        "Search::pairs_from",
        reaches_pairs_of_a_recipient(rt, alloc)
    );
}
