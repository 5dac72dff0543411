//! What a job reaches, on the graph of its names.
use relay_pairs::Reached;
use relay_tables::Graph;

/// The graph of a job, and the pairs that it reaches there, by their numbers.
#[derive(Drop)]
pub(crate) struct ReachedGraph {
    pub(crate) graph: Graph,
    pub(crate) pairs: Vec<Reached>,
}

ghost use Rattle.std.specs.Prelude.{◌≡◌, IfOk, IfErr, OnOk};
ghost use Rattle.relay_planning.specs.Delivery.{directory_of};
ghost use Rattle.relay_planning.specs.Limits.{IsWithin, IsRefused};
ghost use Rattle.relay_planning.specs.ReachedGraph.{IsReachedGraph};

use crate::crew::Crew;
use crate::job_view::JobView;
use crate::planning::{graph_of, pairs_of};
use relay_job::RunFault;
use relay_rounds::Gate;
use relay_tables::Tables;
use std::thread::Threads;

impl ReachedGraph {
    /// Of a job of these tables. The errors are those of [`graph_of`], and then those of [`pairs_of`].
    pub(crate) fn of<G: Gate, R: Threads + Sync>(
        crew: &Crew<G, R>,
        job: &JobView<'_>,
        tables: &Tables,
    ) -> Result<ReachedGraph, RunFault>
        requires tables { tables.now ≡ directory_of job.now }
        ensures reached { IfOk result (IsReachedGraph job.now) }
        ensures within { OnOk result (IsWithin crew.now.limits job.now) }
        ensures refused { IfErr result (IsRefused crew.now.limits job.now) }
    {
        let graph = graph_of(crew, job, tables)?;
        let pairs = pairs_of(crew, job, &graph)?;
        Ok(ReachedGraph { graph, pairs })
    }
}
