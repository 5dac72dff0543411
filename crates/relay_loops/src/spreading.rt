//! All that a search comes to.
//!
//! It begins in this thread, which has gone on from a few nodes before others were started. What is left after that is for
//! `reach`.
ghost use Rattle.std.specs.Prelude.{◌≡◌, ◌≤◌, ◌<◌, ◌^◌, ◌∷◌, [], All, Err, IfOk, OnOk, ℕ, length};
ghost use Rattle.relay_rounds.specs.Closures.{IsClosureOf};
ghost use Rattle.relay_loops.specs.Places.{HasPlaces, met_place, near_numbers, open_keys, place_at};
ghost use Rattle.relay_loops.specs.Searches.{AreTaken, AreWithin, HasGoneOn, HasWalked, IsSpread};

use crate::direction::Direction;
use crate::place::{Place, place_of};
use crate::steps::NearSteps;
use relay_rounds::{Crew, Gate, ReachFault, reach};
use relay_tables::TwoWayGraph;
use std::alloc::{AllocError, Global};
use std::thread::Threads;

// From so many nodes a search goes on in this thread.
const FEW_NODES: usize = 4096;

// Comes to a node, if the search goes there.
fn take(
    direction: Direction,
    places: &mut [Place],
    node: u32,
    found: &mut Vec<u32>,
) -> Result<(), AllocError>
    ensures { OnOk result (AreTaken direction (node ∷ []) places.old places.new found.old.items found.new.items) }
{
    if direction.is_open(place_of(places, node as usize)) {
        places[node as usize] = direction.met();
        found.push(node)?;
    }
    Ok(())
}

// The same of each of the nodes.
fn take_all(
    direction: Direction,
    places: &mut [Place],
    nodes: &[u32],
    found: &mut Vec<u32>,
) -> Result<(), AllocError>
    ensures { OnOk result (AreTaken direction nodes.now places.old places.new found.old.items found.new.items) }
{
    for node in nodes {
        take(direction, places, *node, found)?;
    }
    Ok(())
}

// The same of keys.
fn take_keys(
    direction: Direction,
    places: &mut [Place],
    keys: &[u64],
    found: &mut Vec<u32>,
) -> Result<(), AllocError>
    requires few { length places.old ≤ 2 ^ 24 }
    requires below { All (λ key. key < length places.old) keys.now }
    ensures { OnOk result (AreTaken direction keys.now places.old places.new found.old.items found.new.items) }
{
    for key in keys {
        take(direction, places, *key as u32, found)?;
    }
    Ok(())
}

// Goes on from the first few of the nodes found, and says from how many.
fn walk(
    graph: &TwoWayGraph<'_>,
    direction: Direction,
    places: &mut [Place],
    found: &mut Vec<u32>,
) -> Result<usize, AllocError>
    requires places { HasPlaces graph.now places.old }
    requires within { AreWithin places.old found.old.items }
    ensures { IfOk result (λ passed. HasWalked graph.now direction passed places.old places.new found.old.items found.new.items) }
{
    let mut passed = 0;
    while passed < found.len() && passed < FEW_NODES {
        let node = found[passed];
        take_all(direction, places, direction.near(graph, node), found)?;
        passed += 1;
    }
    Ok(passed)
}

// As many keys as `reach` may be asked for. There are always fewer: a key is a node, and a graph has at most 2^24 nodes.
const KEYS_MAX: usize = (1 << 32) - 2;

fn known(reached: Result<Vec<u64>, ReachFault>) -> Result<Vec<u64>, AllocError>
    requires { reached ≡ Err ReachFault.TooManyPairs → ⊥ }
    ensures { IfOk result (λ keys. reached ≡ Ok keys) }
{
    match reached {
        Ok(keys) => Ok(keys),
        Err(ReachFault::Memory) => Err(AllocError),
        Err(ReachFault::TooManyPairs) => unreachable!(),
    }
}

fn keys_of(alloc: Global, nodes: &[u32]) -> Result<Vec<u64>, AllocError>
    ensures { IfOk result (λ keys. keys.items ≡ nodes.now) }
{
    nodes.iter().map(|node| u64::from(*node)).collect(alloc)
}

// What the search comes to from these nodes, and they themselves.
fn reach_open<G: Gate, R: Threads + Sync>(
    crew: &Crew<G, R>,
    graph: &TwoWayGraph<'_>,
    direction: Direction,
    places: &[Place],
    nodes: &[u32],
) -> Result<Vec<u64>, AllocError>
    requires places { HasPlaces graph.now places.now }
    requires within { AreWithin places.now nodes.now }
    ensures { IfOk result (λ keys. IsClosureOf (λ key. open_keys direction places.now key (near_numbers graph.now direction key)) nodes.now keys.items) }
{
    let roots = keys_of(crew.alloc, nodes)?;
    let steps = NearSteps {
        graph,
        direction,
        places,
    };
    known(reach(crew, &steps, &roots, KEYS_MAX))
}

// Goes on from each of the nodes found that has not been passed.
fn go_on<G: Gate, R: Threads + Sync>(
    crew: &Crew<G, R>,
    graph: &TwoWayGraph<'_>,
    direction: Direction,
    places: &mut [Place],
    passed: usize,
    found: &mut Vec<u32>,
) -> Result<(), AllocError>
    requires places { HasPlaces graph.now places.old }
    requires within { AreWithin places.old found.old.items }
    requires passed { passed ≤ length found.old.items }
    ensures { OnOk result (HasGoneOn graph.now direction passed places.old places.new found.old.items found.new.items) }
{
    let keys = reach_open(crew, graph, direction, places, &found[passed..])?;
    take_keys(direction, places, &keys, found)
}

// Finds all that a search comes to from the starts: those of them that it goes to, and what is led to from there.
pub(crate) fn spread<G: Gate, R: Threads + Sync>(
    crew: &Crew<G, R>,
    graph: &TwoWayGraph<'_>,
    direction: Direction,
    starts: &[u32],
    places: &mut [Place],
    found: &mut Vec<u32>,
) -> Result<(), AllocError>
    requires places { HasPlaces graph.now places.old }
    requires none_met { (n : ℕ) → place_at places.old n ≡ met_place direction → ⊥ }
    ensures { OnOk result (IsSpread graph.now direction starts.now places.old places.new found.new.items) }
{
    found.clear();
    take_all(direction, places, starts, found)?;
    let passed = walk(graph, direction, places, found)?;
    if passed < found.len() {
        go_on(crew, graph, direction, places, passed, found)?;
    }
    Ok(())
}
