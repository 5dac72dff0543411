//! The steps of a search, for the rounds.
ghost use Rattle.std.specs.Prelude.{◌≡◌, ◌≤◌, ◌<◌, ◌^◌, ◌++◌, length, map, OnOk};
ghost use Rattle.relay_loops.specs.Places.{open_key, open_keys};

use crate::direction::Direction;
use crate::place::{Place, place_of};
use relay_rounds::Steps;
use relay_tables::TwoWayGraph;
use std::alloc::AllocError;

// From a node to those near it that the search goes to. Each other one counts as the node itself, which leads nowhere new.
#[derive(Drop)]
pub(crate) struct NearSteps<'a> {
    pub(crate) graph: &'a TwoWayGraph<'a>,
    pub(crate) direction: Direction,
    pub(crate) places: &'a [Place],
    ghost numbered: { length places.now ≤ 2 ^ 32 },
    ghost in_graph: { length places.now ≤ length graph.now.nodes },
}

impl Steps for NearSteps<'_> {
    ghost use Rattle.std.specs.Prelude.{length};
    ghost use Rattle.relay_loops.specs.Places.{near_numbers, open_keys};
    ghost use Rattle.relay_loops.specs.Bounds.{open_keys-below};

    ghost key_bound = { λ s. length s.places.now };

    ghost next_keys = { λ s key. open_keys s.direction s.places.now key (near_numbers s.graph.now s.direction key) };

    ghost stays_below = { λ s key below. open_keys-below s.direction s.places.now key (near_numbers s.graph.now s.direction key) below };

    fn bound(&self) -> u64 {
        self.places.len() as u64
    }

    fn count(&self, key: u64) -> usize {
        self.direction.near(self.graph, key as u32).len()
    }

    fn at(&self, key: u64, i: usize) -> u64 {
        let near = self.direction.near(self.graph, key as u32);
        open_step(self.direction, self.places, key, near[i])
    }

    fn append(&self, key: u64, next: &mut Vec<u64>) -> Result<(), AllocError> {
        let near = self.direction.near(self.graph, key as u32);
        push_open(self.direction, self.places, key, near, next)
    }
}

// The near node if the search goes to it, and else the node.
fn open_step(direction: Direction, places: &[Place], node: u64, near: u32) -> u64
    ensures { result ≡ open_key direction places.now node near }
{
    if direction.is_open(place_of(places, near as usize)) {
        near as u64
    } else {
        node
    }
}

// The same of all near nodes, behind those that are there.
fn push_open(
    direction: Direction,
    places: &[Place],
    node: u64,
    near: &[u32],
    next: &mut Vec<u64>,
) -> Result<(), AllocError>
    ensures { OnOk result (next.new.items ≡ next.old.items ++ open_keys direction places.now node near.now) }
{
    next.reserve(near.len())?;
    for other in near {
        next.push_reserved(open_step(direction, places, node, *other));
    }
    Ok(())
}
