//! The answers of all nodes.
ghost use Rattle.std.specs.Prelude.{◌≡◌, ◌<◌, [], false, length, filter, All, IfOk, OnOk};
ghost use Rattle.relay_loops.specs.declared.place.Place.TheVariants.{Left};
ghost use Rattle.relay_loops.specs.Places.{is_left, is_looped, place_at, HasPlaces, IsChangedAt};
ghost use Rattle.relay_loops.specs.Judging.{IsResting, KeepsJudged};

use crate::dividing::{Found, divide};
use crate::place::{Place, place_of};
use relay_rounds::{Crew, Gate};
use relay_tables::TwoWayGraph;
use std::alloc::{AllocError, Global};
use std::thread::Threads;

// The places as each of the nodes is left.
pub(crate) fn first_places(
    alloc: Global,
    graph: &TwoWayGraph<'_>,
    reached: &[u32],
) -> Result<Vec<Place>, AllocError>
    requires { All (λ n. n < length graph.now.nodes) reached.now }
    ensures sized { IfOk result (λ places. HasPlaces graph.now places.items) }
    ensures left { IfOk result (λ places. IsChangedAt (λ _. Left) reached.now [] places.items) }
{
    let count = graph.nodes();
    let mut places = vec![in alloc; Place::Clear; count]?;
    for node in reached {
        places[*node as usize] = Place::Left;
    }
    Ok(places)
}

// Takes one node of the order after another as a pivot, until each has its answer.
pub(crate) fn settle<G: Gate, R: Threads + Sync>(
    crew: &Crew<G, R>,
    graph: &TwoWayGraph<'_>,
    order: &[u32],
    places: &mut [Place],
) -> Result<(), AllocError>
    requires places { HasPlaces graph.now places.old }
    requires resting { IsResting places.old }
    ensures resting { OnOk result (IsResting places.new) }
    ensures judged { OnOk result (KeepsJudged graph.now places.old places.new) }
    ensures answered { OnOk result (All (λ n. is_left (place_at places.new n) ≡ false) order.now) }
{
    let mut found = Found {
        ahead: Vec::new(crew.alloc),
        around: Vec::new(crew.alloc),
    };
    for pivot in order {
        if place_of(places, *pivot as usize).is_left() {
            divide(crew, graph, *pivot, places, &mut found)?;
        }
    }
    Ok(())
}

// Those of the nodes whose answer is that they are on a loop.
pub(crate) fn looped(
    alloc: Global,
    reached: &[u32],
    places: &[Place],
) -> Result<Vec<u32>, AllocError>
    ensures { IfOk result (λ loops. loops.items ≡ filter (λ n. is_looped (place_at places.now n)) reached.now) }
{
    reached
        .iter()
        .copied()
        .filter(|node| place_of(places, *node as usize).is_looped())
        .collect(alloc)
}
