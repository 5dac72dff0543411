//! What a job's plan and its explanations are made from.
use relay_pairs::Reached;
use relay_planning::Lookup;
use relay_tables::Graph;

/// What a job's files and tables say, its graph, and the pairs of sender and node that its message reaches.
#[derive(Drop)]
pub(crate) struct Basis {
    pub(crate) lookup: Lookup,
    pub(crate) graph: Graph,
    /// By the numbers of senders and nodes in the graph.
    pub(crate) pairs: Vec<Reached>,
}

ghost use Rattle.std.specs.Prelude.{◌≡◌, ◌≤◌, ℕ, List, length, IfOk, IfErr, OnOk};
ghost use Rattle.relay_text.specs.Bytes.{has_text};
ghost use Rattle.relay_job.specs.JobAnswers.{IsJobWithin};
ghost use Rattle.relay_pairs.specs.Pairs.{ArePairs};
ghost use Rattle.relay_planning.specs.Delivery.{directory_of, IsJobGraph, IsJobPart};
ghost use Rattle.relay_planning.specs.Limits.{IsWithin, IsRefused};
ghost use Rattle.relay_planning.specs.Reaching.{AreReachedPairs};
ghost use Rattle.relay_planning.specs.Texts.{has_fault_line};
ghost use Rattle.aliasplan_explain.specs.Grounds.{IsBasisOf};

use crate::both::with_or_fault;
use aliasplan::{Crew, Gate, Job, RunFault};
use relay_job::parsed_jobs;
use relay_planning::{JobView, graph_of, pairs_of, parsed_is_readable};
use relay_tables::Tables;
use relay_wire::FindingLines;
use std::thread::Threads;

/// The graph of a job, and the pairs that it reaches, where its names stand for what these tables say.
pub(crate) fn graph_with_pairs<G: Gate, R: Threads + Sync>(
    crew: &Crew<G, R>,
    job: &JobView<'_>,
    tables: &Tables,
) -> Result<(Graph, Vec<Reached>), RunFault>
    requires { tables.now ≡ directory_of job.now }
    ensures graph { IfOk result (λ both. IsJobGraph job.now both.0) }
    ensures part { IfOk result (λ both. IsJobPart job.now both.0) }
    ensures pairs { IfOk result (λ both. ArePairs both.0 both.1.items) }
    ensures reached { IfOk result (λ both. AreReachedPairs job.now both.0 both.1.items) }
    ensures few { IfOk result (λ both. length both.1.items ≤ 16777216) }
    ensures within { OnOk result (IsWithin crew.now.limits job.now) }
    ensures refused { IfErr result (IsRefused crew.now.limits job.now) }
{
    match graph_of(crew, job, tables) {
        Ok(graph) => {
            let pairs = pairs_of(crew, job, &graph);
            with_or_fault(graph, pairs)
        }
        Err(fault) => Err(fault),
    }
}

impl Basis {
    /// That of a job, and the lines of its files and tables that are at fault. The errors are those of `plan_job`, in the same order.
    pub(crate) fn read<G: Gate, R: Threads + Sync>(
        crew: &Crew<G, R>,
        job: &Job,
    ) -> Result<(Basis, FindingLines), RunFault>
        requires { IsJobWithin crew.now.limits.bytes job.now }
        ensures basis { IfOk result (λ both. IsBasisOf job.now both.0) }
        ensures lines { IfOk result (λ both. (q : List ℕ) → has_text both.1 q ≡ has_fault_line job.now q) }
        ensures within { OnOk result (IsWithin crew.now.limits job.now) }
        ensures refused { IfErr result (IsRefused crew.now.limits job.now) }
    {
        parsed_jobs();
        parsed_is_readable();
        let mut lines = FindingLines::new(crew.alloc);
        let Ok(lookup) = Lookup::read_by(crew, job, &mut lines) else {
            drop(lines);
            return Err(RunFault::Memory);
        };
        match graph_with_pairs(crew, &JobView::of(job), &lookup.tables) {
            Ok((graph, pairs)) => {
                let basis = Basis {
                    lookup,
                    graph,
                    pairs,
                };
                Ok((basis, lines))
            }
            Err(fault) => {
                drop(lookup);
                drop(lines);
                Err(fault)
            }
        }
    }
}
