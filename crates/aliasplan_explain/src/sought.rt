//! What is asked for, and the trails there.
use relay_tables::Node;
use relay_trails::Found;

/// The node that is asked for, and the best trail there under each sender.
#[derive(Drop)]
pub(crate) struct Sought {
    pub(crate) node: Node,
    pub(crate) found: Vec<Found>,
}

ghost use Rattle.std.specs.Prelude.{All, IfOk};
ghost use Rattle.relay_trails.specs.Trails.{HasNodes};
ghost use Rattle.relay_trails.specs.Chains.{AreBestBy};
ghost use Rattle.relay_planning.specs.Delivery.{directory_of};
ghost use Rattle.aliasplan_explain.specs.Grounds.{IsBasisOf};
ghost use Rattle.aliasplan_explain.specs.Targets.{IsAskedFor};
ghost use Rattle.aliasplan_explain.specs.Sought.{IsSought};

use crate::asking::asked_for;
use crate::grounds::Grounds;
use crate::nodes::number_of;
use relay_explain::Asked;
use relay_trails::{best_trails, trails_by_numbers};
use std::alloc::{AllocError, Global};

// The best trail for each sender under which the node is reached.
fn found_at(alloc: Global, grounds: &Grounds<'_>, node: &Node) -> Result<Vec<Found>, AllocError>
    requires made { IsBasisOf grounds.now.job.now grounds.now.basis.now }
    ensures best { IfOk result (λ found. AreBestBy (directory_of grounds.now.job.now) grounds.now.job.now.sender grounds.now.job.now.recipients grounds.now.basis.now.graph node.now found.items) }
    ensures nodes { IfOk result (λ found. All (HasNodes grounds.now.basis.now.graph) found.items) }
{
    trails_by_numbers();
    let graph = &grounds.basis.graph;
    match number_of(graph, node) {
        Some(number) => best_trails(alloc, graph, &grounds.basis.pairs, number),
        None => Ok(Vec::new(alloc)),
    }
}

impl Sought {
    /// `Err` where memory runs out.
    pub(crate) fn by(
        alloc: Global,
        grounds: &Grounds<'_>,
        asked: &Asked,
    ) -> Result<Sought, AllocError>
        requires { IsBasisOf grounds.now.job.now grounds.now.basis.now }
        ensures { IfOk result (IsSought grounds.now.job.now grounds.now.basis.now.graph asked.now) }
    {
        let node = asked_for(alloc, grounds, asked)?;
        let found = found_at(alloc, grounds, &node)?;
        Ok(Sought { node, found })
    }
}
