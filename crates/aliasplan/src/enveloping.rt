//! The plan of one envelope, and what is returned, by tables that are read.
ghost use Rattle.std.specs.Prelude.{◌≡◌, ◌≤◌, ◌+◌, ℕ, true, IfOk, IfErr, OnOk};
ghost use Rattle.relay_job.specs.Tables.{without_envelope};
ghost use Rattle.relay_planning.specs.Delivery.{directory_of, IsJobPart};
ghost use Rattle.relay_planning.specs.Limits.{name_count, owned_count, AreLimits, IsRefused, IsWithin};
ghost use Rattle.aliasplan.specs.Planners.{AreRead};
ghost use Rattle.aliasplan.specs.Returns.{AreReturnsOf, IsReturnedWithin, IsUnreturned};
ghost use Rattle.relay_planning.specs.Plans.{IsFewest, IsOwnPlanOf, IsSoundFor};

use crate::returned::Returned;
use crate::returning::returned_graph;
use relay_job::RunFault;
use relay_planning::{Crew, JobView, Limits, Lookup, graph_of, pairs_of, plan_reached};
use relay_rounds::Gate;
use relay_tables::{Graph, TableCounts, TableFault, Tables, names_are_counted};
use relay_wire::{FindingLines, Plan};
use std::alloc::Global;
use std::thread::Threads;

/// Whether an envelope of so many recipients has no more names and owners than the limits, even if each recipient is a name of its own.
fn are_surely_within(counts: TableCounts, recipients: usize, limits: Limits) -> bool
    requires few { counts.names ≤ 16777216 }
    requires recipients { recipients ≤ 9223372036854775807 }
    ensures names { result ≡ true → counts.names + recipients ≤ limits.names }
    ensures owners { result ≡ true → counts.owners ≤ limits.owners }
{
    counts.names + recipients <= limits.names && counts.owners <= limits.owners
}

/// The graph of what a job's envelope reaches.
fn reached_graph(
    alloc: Global,
    job: &JobView<'_>,
    tables: &Tables,
    limits: Limits,
) -> Result<Graph, RunFault>
    requires tables { tables.now ≡ directory_of job.now }
    requires limits { AreLimits limits }
    requires names { name_count job.now ≤ limits.names }
    requires owners { owned_count job.now ≤ limits.owners }
    ensures graph { IfOk result (IsJobPart job.now) }
    ensures refused { IfErr result (IsRefused limits job.now) }
{
    match Graph::reached(alloc, tables, job.sender(), job.recipients(), limits.names) {
        Ok(graph) => Ok(graph),
        Err(TableFault::TooManyNames) => Err(RunFault::TooManyNames),
        Err(TableFault::TooManyOwners) => unreachable!(),
        Err(TableFault::Memory) => Err(RunFault::Memory),
    }
}

/// A graph of what a job's envelope reaches: of that alone, unless it has to be counted whether there are too many names or owners.
fn part_of<G: Gate, R: Threads + Sync>(
    crew: &Crew<G, R>,
    job: &JobView<'_>,
    lookup: &Lookup,
    counts: TableCounts,
) -> Result<Graph, RunFault>
    requires read { AreRead (without_envelope job.now) lookup.now counts }
    ensures graph { IfOk result (IsJobPart job.now) }
    ensures names { OnOk result (name_count job.now ≤ crew.now.limits.names) }
    ensures owners { OnOk result (owned_count job.now ≤ crew.now.limits.owners) }
    ensures refused { IfErr result (IsRefused crew.now.limits job.now) }
{
    names_are_counted();
    if are_surely_within(counts, job.recipients().len(), crew.limits) {
        reached_graph(crew.alloc, job, &lookup.tables, crew.limits)
    } else {
        graph_of(crew, job, &lookup.tables)
    }
}

/// The plan of a job whose files and tables are read, with the findings of what is reached alone.
pub(crate) fn plan_envelope<G: Gate, R: Threads + Sync>(
    crew: &Crew<G, R>,
    job: &JobView<'_>,
    lookup: &Lookup,
    counts: TableCounts,
) -> Result<Plan, RunFault>
    requires read { AreRead (without_envelope job.now) lookup.now counts }
    ensures plan { IfOk result (IsOwnPlanOf job.now) }
    ensures sound { IfOk result (λ plan. IsSoundFor job.now plan.transactions) }
    ensures fewest { IfOk result (λ plan. IsFewest job.now plan.transactions) }
    ensures within { OnOk result (IsWithin crew.now.limits job.now) }
    ensures refused { IfErr result (IsRefused crew.now.limits job.now) }
{
    let graph = part_of(crew, job, lookup, counts)?;
    let pairs = pairs_of(crew, job, &graph)?;
    let lines = FindingLines::new(crew.alloc);
    match plan_reached(crew, job, lookup, &graph, &pairs, lines) {
        Ok(plan) => Ok(plan),
        Err(_) => Err(RunFault::Memory),
    }
}

/// The same, with what is returned to which sender.
pub(crate) fn returns_envelope<G: Gate, R: Threads + Sync>(
    crew: &Crew<G, R>,
    job: &JobView<'_>,
    lookup: &Lookup,
    counts: TableCounts,
) -> Result<Returned, RunFault>
    requires read { AreRead (without_envelope job.now) lookup.now counts }
    ensures plan { IfOk result (λ returned. IsOwnPlanOf job.now returned.plan) }
    ensures sound { IfOk result (λ returned. IsSoundFor job.now returned.plan.transactions) }
    ensures fewest { IfOk result (λ returned. IsFewest job.now returned.plan.transactions) }
    ensures returns { IfOk result (λ returned. AreReturnsOf job.now returned.returns) }
    ensures within { OnOk result (IsReturnedWithin crew.now.limits job.now) }
    ensures refused { IfErr result (IsUnreturned crew.now.limits job.now) }
{
    let lines = FindingLines::new(crew.alloc);
    match part_of(crew, job, lookup, counts) {
        Ok(graph) => returned_graph(crew, job, lookup, &graph, lines),
        Err(fault) => Err(fault),
    }
}
