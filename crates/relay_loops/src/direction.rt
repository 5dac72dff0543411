//! The two ways that a search goes.
ghost use Rattle.std.specs.Prelude.{◌≡◌, ◌<◌, length};
ghost use Rattle.relay_loops.specs.Places.{is_open, met_place, near_numbers};

use crate::place::Place;
use relay_tables::TwoWayGraph;

// Where to a search goes, from nodes of which places, and how it marks them.
#[derive(Clone, Copy)]
pub(crate) enum Direction {
    // To the children, among the nodes that are left: they come ahead.
    Onward,
    // To the parents, among the nodes ahead: they come around.
    Backward,
}

impl Direction {
    // The nodes that are one step from a node.
    pub(crate) fn near<'g>(self, graph: &'g TwoWayGraph<'_>, node: u32) -> &'g [u32]
        requires { node < length graph.now.nodes }
        ensures { result.now ≡ near_numbers graph.now self node }
    {
        match self {
            Direction::Onward => graph.children(node),
            Direction::Backward => graph.parents(node),
        }
    }

    // Whether a search goes to the nodes of a place.
    pub(crate) fn is_open(self, place: Place) -> bool
        ensures { result ≡ is_open self place }
    {
        match self {
            Direction::Onward => place.is_left(),
            Direction::Backward => place.is_ahead(),
        }
    }

    // The place of the nodes that it has come to.
    pub(crate) fn met(self) -> Place
        ensures { result ≡ met_place self }
    {
        match self {
            Direction::Onward => Place::Ahead,
            Direction::Backward => Place::Around,
        }
    }
}
