//! What is returned to which sender, beside the plan of a job.
ghost use Rattle.std.specs.Prelude.{◌≡◌, ◌<◌, ◌≤◌, ◌⊎◌, All, ℕ, length, IsTrue, IfOk, IfErr, OnOk, List};
ghost use Rattle.relay_text.specs.Bytes.{has_text};
ghost use Rattle.relay_job.specs.JobAnswers.{IsJobWithin};
ghost use Rattle.relay_pairs.specs.Pairs.{ArePairs};
ghost use Rattle.relay_planning.specs.Delivery.{directory_of, routing_of, IsJobPart};
ghost use Rattle.relay_planning.specs.Limits.{name_count, owned_count, IsWithin};
ghost use Rattle.relay_planning.specs.Plans.{IsFewest, IsPlanOf, IsPlanWith, IsSoundFor};
ghost use Rattle.relay_planning.specs.Reaching.{AreReachedNodes, AreReachedPairs};
ghost use Rattle.relay_planning.specs.Report.{IsOwnFindingLine};
ghost use Rattle.aliasplan.specs.Returns.{AreReturnsOf, HasAtMostReturnPairs, IsReturnedWithin, IsUnreturned};
ghost use Rattle.aliasplan.specs.ReturnLines.{AreFindings, AreLinesOf, AreReturnLines};
ghost use Rattle.relay_planning.specs.Texts.{has_fault_line};

use crate::return_blocks::blocks_of;
use crate::return_lines::lines_by_sender;
use crate::returned::Returned;
use crate::undelivered::undelivered_at;
use relay_job::{Job, RunFault};
use relay_ordering::in_order;
use relay_pairs::{Reached, Search, pairs_by_root};
use relay_planning::{
    Crew, JobView, Lookup, graph_of, nodes_of, pairs_of, parsed_is_readable, plan_reached,
};
use relay_returns::Return;
use relay_rounds::{Gate, ReachFault};
use relay_tables::Graph;
use relay_text::{Seq, Text, TextSet};
use relay_wire::FindingLines;
use std::alloc::{AllocError, Global};
use std::thread::Threads;

/// The lines of what is returned to each sender, by the senders' numbers. The lines of what can't be delivered at nodes are given.
fn return_lines<G: Gate, R: Threads + Sync>(
    crew: &Crew<G, R>,
    job: &JobView<'_>,
    graph: &Graph,
    nodes: &[u32],
    undelivered: &[Seq<Text>],
) -> Result<Vec<TextSet>, RunFault>
    requires graph { IsJobPart job.now graph.now }
    requires within { IsWithin crew.now.limits job.now }
    requires nodes { AreReachedNodes job.now graph.now nodes.now }
    requires lines { AreLinesOf graph.now job.now nodes.now undelivered.now }
    requires findings { All AreFindings undelivered.now }
    ensures lines { IfOk result (λ lists. AreReturnLines job.now graph.now lists.items) }
    ensures pairs { OnOk result (HasAtMostReturnPairs job.now crew.now.limits.pairs) }
    ensures refused { IfErr result (IsUnreturned crew.now.limits job.now) }
{
    pairs_by_root();
    let _ = nodes;
    let search = Search {
        crew: crew.of_search(),
        graph,
    };
    let recipients = job.recipients();
    match lines_by_sender(&search, undelivered, recipients, crew.limits.pairs) {
        Ok(lists) => Ok(lists),
        Err(ReachFault::TooManyPairs) => Err(RunFault::TooManyPairs),
        Err(ReachFault::Memory) => Err(RunFault::Memory),
    }
}

/// The blocks of lines by senders' numbers.
fn blocks_of_lines(
    alloc: Global,
    job: &JobView<'_>,
    graph: &Graph,
    lists: Vec<TextSet>,
) -> Result<Seq<Return>, AllocError>
    requires graph { IsJobPart job.now graph.now }
    requires lines { AreReturnLines job.now graph.now lists.items }
    ensures { IfOk result (AreReturnsOf job.now) }
{
    pairs_by_root();
    let _ = job;
    let blocks = blocks_of(alloc, graph, lists)?;
    in_order(alloc, blocks)
}

/// What is returned for a job that reaches these pairs.
fn returns_of<G: Gate, R: Threads + Sync>(
    crew: &Crew<G, R>,
    job: &JobView<'_>,
    lookup: &Lookup,
    graph: &Graph,
    pairs: &[Reached],
) -> Result<Seq<Return>, RunFault>
    requires tables { lookup.now.tables ≡ directory_of job.now }
    requires router { lookup.now.router ≡ routing_of job.now }
    requires graph { IsJobPart job.now graph.now }
    requires pairs { ArePairs graph.now pairs.now }
    requires within { IsWithin crew.now.limits job.now }
    ensures returns { IfOk result (AreReturnsOf job.now) }
    ensures pairs { OnOk result (HasAtMostReturnPairs job.now crew.now.limits.pairs) }
    ensures refused { IfErr result (IsUnreturned crew.now.limits job.now) }
{
    let alloc = crew.alloc;
    let nodes = nodes_of(alloc, job, graph, pairs)?;
    let undelivered = undelivered_at(alloc, job, lookup, graph, &nodes)?;
    let lists = return_lines(crew, job, graph, &nodes, &undelivered)?;
    Ok(blocks_of_lines(alloc, job, graph, lists)?)
}

/// The plan and what is returned, of a job that reaches these pairs. The lines that are given stand with the findings of what is reached.
fn returned_pairs<G: Gate, R: Threads + Sync>(
    crew: &Crew<G, R>,
    job: &JobView<'_>,
    lookup: &Lookup,
    graph: &Graph,
    pairs: &[Reached],
    lines: FindingLines,
) -> Result<Returned, RunFault>
    requires tables { lookup.now.tables ≡ directory_of job.now }
    requires router { lookup.now.router ≡ routing_of job.now }
    requires graph { IsJobPart job.now graph.now }
    requires pairs { ArePairs graph.now pairs.now }
    requires reached { AreReachedPairs job.now graph.now pairs.now }
    requires few { length pairs.now ≤ 16777216 }
    requires within { IsWithin crew.now.limits job.now }
    ensures plan { IfOk result (λ returned. IsPlanWith job.now (λ q. IsTrue (has_text lines q) ⊎ IsOwnFindingLine job.now q) returned.plan) }
    ensures sound { IfOk result (λ returned. IsSoundFor job.now returned.plan.transactions) }
    ensures fewest { IfOk result (λ returned. IsFewest job.now returned.plan.transactions) }
    ensures returns { IfOk result (λ returned. AreReturnsOf job.now returned.returns) }
    ensures pairs { OnOk result (HasAtMostReturnPairs job.now crew.now.limits.pairs) }
    ensures refused { IfErr result (IsUnreturned crew.now.limits job.now) }
{
    let Ok(plan) = plan_reached(crew, job, lookup, graph, pairs, lines) else {
        return Err(RunFault::Memory);
    };
    match returns_of(crew, job, lookup, graph, pairs) {
        Ok(returns) => Ok(Returned { plan, returns }),
        Err(fault) => Err(fault),
    }
}

/// The plan and what is returned, of a job of this graph. The lines that are given stand with the findings of what is reached.
pub(crate) fn returned_graph<G: Gate, R: Threads + Sync>(
    crew: &Crew<G, R>,
    job: &JobView<'_>,
    lookup: &Lookup,
    graph: &Graph,
    lines: FindingLines,
) -> Result<Returned, RunFault>
    requires tables { lookup.now.tables ≡ directory_of job.now }
    requires router { lookup.now.router ≡ routing_of job.now }
    requires graph { IsJobPart job.now graph.now }
    requires names { name_count job.now ≤ crew.now.limits.names }
    requires owners { owned_count job.now ≤ crew.now.limits.owners }
    ensures plan { IfOk result (λ returned. IsPlanWith job.now (λ q. IsTrue (has_text lines q) ⊎ IsOwnFindingLine job.now q) returned.plan) }
    ensures sound { IfOk result (λ returned. IsSoundFor job.now returned.plan.transactions) }
    ensures fewest { IfOk result (λ returned. IsFewest job.now returned.plan.transactions) }
    ensures returns { IfOk result (λ returned. AreReturnsOf job.now returned.returns) }
    ensures within { OnOk result (IsReturnedWithin crew.now.limits job.now) }
    ensures refused { IfErr result (IsUnreturned crew.now.limits job.now) }
{
    match pairs_of(crew, job, graph) {
        Ok(pairs) => returned_pairs(crew, job, lookup, graph, &pairs, lines),
        Err(fault) => Err(fault),
    }
}

/// The plan and what is returned, of a job whose files and tables are read. Their lines that are at fault are given.
fn returned_by_lookup<G: Gate, R: Threads + Sync>(
    crew: &Crew<G, R>,
    job: &JobView<'_>,
    lookup: &Lookup,
    lines: FindingLines,
) -> Result<Returned, RunFault>
    requires tables { lookup.now.tables ≡ directory_of job.now }
    requires router { lookup.now.router ≡ routing_of job.now }
    requires lines { (q : List ℕ) → has_text lines q ≡ has_fault_line job.now q }
    ensures plan { IfOk result (λ returned. IsPlanOf job.now returned.plan) }
    ensures sound { IfOk result (λ returned. IsSoundFor job.now returned.plan.transactions) }
    ensures fewest { IfOk result (λ returned. IsFewest job.now returned.plan.transactions) }
    ensures returns { IfOk result (λ returned. AreReturnsOf job.now returned.returns) }
    ensures within { OnOk result (IsReturnedWithin crew.now.limits job.now) }
    ensures refused { IfErr result (IsUnreturned crew.now.limits job.now) }
{
    match graph_of(crew, job, &lookup.tables) {
        Ok(graph) => returned_graph(crew, job, lookup, &graph, lines),
        Err(fault) => Err(fault),
    }
}

/// The plan of a job, and what is returned to which sender: for each sender under which something can't be delivered a block with a line
/// for each such thing and each recipient of the envelope from which a chain of entries leads there (RFC 5321 section 3.6.3; local(8) of
/// Postfix). A missing name or include file, a file and a command are returned to the sender after the entry that lists them, and an
/// empty entry to the sender after it; an address without a route to the sender under which it is reached.
///
/// The errors are those of `plan_job`, in the same order, and then `TooManyPairs` where more pairs than the limit are reached from the
/// recipients, each counted once for each recipient. The form of the options is not regarded, and neither the number of threads nor how
/// the work is cut changes the answer.
pub fn returns<G: Gate, R: Threads + Sync>(
    crew: &Crew<G, R>,
    job: &Job,
) -> Result<Returned, RunFault>
    requires job { IsJobWithin crew.now.limits.bytes job.now }
    ensures plan { IfOk result (λ returned. IsPlanOf job.now returned.plan) }
    ensures sound { IfOk result (λ returned. IsSoundFor job.now returned.plan.transactions) }
    ensures fewest { IfOk result (λ returned. IsFewest job.now returned.plan.transactions) }
    ensures returns { IfOk result (λ returned. AreReturnsOf job.now returned.returns) }
    ensures within { OnOk result (IsReturnedWithin crew.now.limits job.now) }
    ensures refused { IfErr result (IsUnreturned crew.now.limits job.now) }
{
    parsed_is_readable();
    let mut lines = FindingLines::new(crew.alloc);
    match Lookup::read_by(crew, job, &mut lines) {
        Ok(lookup) => {
            let returned = returned_by_lookup(crew, &JobView::of(job), &lookup, lines);
            drop(lookup);
            returned
        }
        Err(_) => Err(RunFault::Memory),
    }
}
