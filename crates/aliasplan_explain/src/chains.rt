//! The chains to what is asked for, as they are told.
use crate::lines::ChainLines;
use relay_tables::Node;

/// The node that is asked for, and the lines of the best trail there under each sender.
#[derive(Drop)]
pub(crate) struct Chains {
    pub(crate) node: Node,
    pub(crate) lines: Vec<ChainLines>,
}

ghost use Rattle.std.specs.Prelude.{All, IfOk};
ghost use Rattle.relay_trails.specs.Trails.{HasNodes};
ghost use Rattle.relay_trails.specs.Chains.{AreBestBy};
ghost use Rattle.relay_planning.specs.Delivery.{directory_of};
ghost use Rattle.aliasplan_explain.specs.Chains.{AreChainsTo, LeadToAsked};
ghost use Rattle.aliasplan_explain.specs.Grounds.{IsBasisOf};

use crate::grounds::Grounds;
use crate::lines::chain_lines;
use crate::sought::Sought;
use aliasplan::{Crew, Gate};
use relay_explain::Asked;
use std::alloc::AllocError;
use std::thread::Threads;

// The lines of the trails that were found.
fn lines_of<G: Gate, R: Threads + Sync>(
    crew: &Crew<G, R>,
    grounds: &Grounds<'_>,
    sought: &Sought,
) -> Result<Vec<ChainLines>, AllocError>
    requires made { IsBasisOf grounds.now.job.now grounds.now.basis.now }
    requires best { AreBestBy (directory_of grounds.now.job.now) grounds.now.job.now.sender grounds.now.job.now.recipients grounds.now.basis.now.graph sought.now.node sought.now.found.items }
    requires nodes { All (HasNodes grounds.now.basis.now.graph) sought.now.found.items }
    ensures { IfOk result (λ lines. AreChainsTo grounds.now.job.now grounds.now.recipient_lines.now sought.now.node grounds.now.basis.now.graph lines.items) }
{
    let mut lines = Vec::with_capacity(crew.alloc, sought.found.len())?;
    for found in &sought.found {
        lines.push(chain_lines(crew, grounds, found)?)?;
    }
    Ok(lines)
}

impl Chains {
    /// `Err` where memory runs out.
    pub(crate) fn to<G: Gate, R: Threads + Sync>(
        crew: &Crew<G, R>,
        grounds: &Grounds<'_>,
        asked: &Asked,
    ) -> Result<Chains, AllocError>
        requires { IsBasisOf grounds.now.job.now grounds.now.basis.now }
        ensures { IfOk result (LeadToAsked grounds.now.job.now grounds.now.basis.now.graph grounds.now.recipient_lines.now asked.now) }
    {
        let sought = Sought::by(crew.alloc, grounds, asked)?;
        let lines = lines_of(crew, grounds, &sought)?;
        Ok(Chains {
            node: sought.node,
            lines,
        })
    }
}
