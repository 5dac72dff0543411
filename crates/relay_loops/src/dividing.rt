//! A pivot, and all that share a loop with it.
ghost use Rattle.std.specs.Prelude.{◌≡◌, ◌<◌, false, length, All, OnOk};
ghost use Rattle.relay_loops.specs.declared.place.Place.TheVariants.{Left};
ghost use Rattle.relay_loops.specs.Places.{is_left, place_at, settled, HasPlaces, IsChangedAt};
ghost use Rattle.relay_loops.specs.Judging.{IsResting, KeepsAnswers, KeepsJudged};

use crate::direction::Direction;
use crate::place::{Place, place_of};
use crate::spreading::spread;
use relay_rounds::{Crew, Gate};
use relay_tables::TwoWayGraph;
use std::alloc::{AllocError, Global};
use std::thread::Threads;

// The nodes that the searches from a pivot came to, kept from pivot to pivot so that they take little memory anew.
#[derive(Drop)]
pub(crate) struct Found {
    pub(crate) ahead: Vec<u32>,
    pub(crate) around: Vec<u32>,
}

// Settles the places of the nodes ahead.
fn settle_ahead(places: &mut [Place], ahead: &[u32])
    requires { All (λ n. n < length places.old) ahead.now }
    ensures { IsChangedAt settled ahead.now places.old places.new }
{
    for node in ahead {
        let at = *node as usize;
        places[at] = place_of(places, at).settled();
    }
}

// Answers a pivot that is left, and all that share a loop with it. What it leads to else is left as before.
pub(crate) fn divide<G: Gate, R: Threads + Sync>(
    crew: &Crew<G, R>,
    graph: &TwoWayGraph<'_>,
    pivot: u32,
    places: &mut [Place],
    found: &mut Found,
) -> Result<(), AllocError>
    requires places { HasPlaces graph.now places.old }
    requires resting { IsResting places.old }
    requires left { place_at places.old pivot ≡ Left }
    ensures resting { OnOk result (IsResting places.new) }
    ensures judged { OnOk result (KeepsJudged graph.now places.old places.new) }
    ensures answers { OnOk result (KeepsAnswers places.old places.new) }
    ensures pivot { OnOk result (is_left (place_at places.new pivot) ≡ false) }
{
    let children = graph.children(pivot);
    spread(
        crew,
        graph,
        Direction::Onward,
        children,
        places,
        &mut found.ahead,
    )?;
    if place_of(places, pivot as usize).is_ahead() {
        spread(
            crew,
            graph,
            Direction::Backward,
            &[pivot],
            places,
            &mut found.around,
        )?;
        settle_ahead(places, &found.ahead);
    } else {
        settle_ahead(places, &found.ahead);
        places[pivot as usize] = Place::Clear;
    }
    Ok(())
}
