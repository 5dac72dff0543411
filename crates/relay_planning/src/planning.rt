//! The plan of a job.
ghost use Rattle.std.specs.Prelude.{◌≡◌, ◌⊎◌, ◌↔◌, ◌<◌, ◌≤◌, ℕ, List, length, IsTrue, IfOk, IfErr, OnOk};
ghost use Rattle.relay_text.specs.Bytes.{has_text};
ghost use Rattle.relay_text.specs.TextSets.{IsAscendingBy, text_cmp};
ghost use Rattle.relay_job.specs.JobAnswers.{IsJobWithin};
ghost use Rattle.relay_loops.specs.Loops.{AreLoopsOf, IsClosedPart};
ghost use Rattle.relay_pairs.specs.Pairs.{ArePairs};
ghost use Rattle.relay_planning.specs.Delivery.{directory_of, routing_of, HasAtMostPairs, IsJobGraph, IsJobPart};
ghost use Rattle.relay_planning.specs.Findings.{Reports};
ghost use Rattle.relay_planning.specs.Limits.{name_count, owned_count, run_fault_of, AreOptions, AreLimits, IsWithin, IsRefused};
ghost use Rattle.relay_planning.specs.Plans.{AreTransactionsOf, IsFewest, IsPlanOf, IsPlanWith, IsSoundFor};
ghost use Rattle.relay_planning.specs.Report.{entries, routes, IsLineOf, IsOwnFindingLine};
ghost use Rattle.relay_planning.specs.Texts.{has_fault_line};
ghost use Rattle.relay_planning.specs.Reaching.{AreReachedPairs, AreReachedNodes};

use crate::addresses::plan_addresses;
use crate::crew::Crew;
use crate::entries::report_entries;
use crate::job_view::JobView;
use crate::laws::parsed_is_readable;
use crate::lookup::Lookup;
use crate::options::{Limits, Options};
use crate::reach::Reach;
use crate::transacted::{Transacted, transactions_by_lookup};
use relay_destinations::Destinations;
use relay_job::{Job, RunFault};
use relay_loops::on_loops;
use relay_pairs::{Reached, pairs_are_counted, pairs_by_numbers, reached_nodes, reached_pairs};
use relay_rounds::{Gate, ReachFault};
use relay_tables::{Graph, TableFault, Tables};
use relay_text::{Seq, Text};
use relay_wire::{FindingLines, KeptFindings, Plan, Planned};
use std::alloc::{AllocError, Global};
use std::thread::Threads;

/// What a fault of the tables is to a run.
fn run_fault_of(fault: TableFault) -> RunFault
    ensures { result ≡ run_fault_of fault }
{
    match fault {
        TableFault::TooManyNames => RunFault::TooManyNames,
        TableFault::TooManyOwners => RunFault::TooManyOwners,
        TableFault::Memory => RunFault::Memory,
    }
}

/// The graph of a job's tables and envelope: its names with their targets, and the senders, by numbers.
///
/// `TooManyNames` and `TooManyOwners` come in this order, exactly where the job has more than the crew's limits take; `Memory` where a growth was
/// refused.
pub fn graph_of<G: Gate, R: Threads + Sync>(
    crew: &Crew<G, R>,
    job: &JobView<'_>,
    tables: &Tables,
) -> Result<Graph, RunFault>
    requires tables { tables.now ≡ directory_of job.now }
    ensures graph { IfOk result (IsJobGraph job.now) }
    ensures part { IfOk result (IsJobPart job.now) }
    ensures names { OnOk result (name_count job.now ≤ crew.now.limits.names) }
    ensures owners { OnOk result (owned_count job.now ≤ crew.now.limits.owners) }
    ensures refused { IfErr result (IsRefused crew.now.limits job.now) }
{
    let Limits { names, owners, .. } = crew.limits;
    match Graph::build(
        crew.alloc,
        tables,
        job.sender(),
        job.recipients(),
        names,
        owners,
    ) {
        Ok(graph) => Ok(graph),
        Err(fault) => Err(run_fault_of(fault)),
    }
}

/// The pairs of sender and node that a job reaches, by their numbers in its graph.
///
/// `TooManyPairs` comes exactly where more than the crew's limit are reached; `Memory` where a growth was refused.
pub fn pairs_of<G: Gate, R: Threads + Sync>(
    crew: &Crew<G, R>,
    job: &JobView<'_>,
    graph: &Graph,
) -> Result<Vec<Reached>, RunFault>
    requires graph { IsJobPart job.now graph.now }
    requires names { name_count job.now ≤ crew.now.limits.names }
    requires owners { owned_count job.now ≤ crew.now.limits.owners }
    ensures pairs { IfOk result (λ pairs. ArePairs graph.now pairs.items) }
    ensures reached { IfOk result (λ pairs. AreReachedPairs job.now graph.now pairs.items) }
    ensures few { IfOk result (λ pairs. length pairs.items ≤ 16777216) }
    ensures at_most { OnOk result (HasAtMostPairs job.now crew.now.limits.pairs) }
    ensures refused { IfErr result (IsRefused crew.now.limits job.now) }
{
    pairs_by_numbers();
    pairs_are_counted();
    let _ = job;
    match reached_pairs(&crew.of_search(), graph, crew.limits.pairs) {
        Ok(pairs) => Ok(pairs),
        Err(ReachFault::TooManyPairs) => Err(RunFault::TooManyPairs),
        Err(ReachFault::Memory) => Err(RunFault::Memory),
    }
}

/// The nodes that a job reaches, by their numbers in its graph, from the pairs that it reaches. `Err` where memory runs out.
pub fn nodes_of(
    alloc: Global,
    job: &JobView<'_>,
    graph: &Graph,
    pairs: &[Reached],
) -> Result<Vec<u32>, AllocError>
    requires graph { IsJobPart job.now graph.now }
    requires pairs { ArePairs graph.now pairs.now }
    ensures reached { IfOk result (λ nodes. AreReachedNodes job.now graph.now nodes.items) }
    ensures part { IfOk result (λ nodes. IsClosedPart graph.now nodes.items) }
{
    pairs_by_numbers();
    let _ = job;
    reached_nodes(alloc, graph, pairs)
}

/// Adds the lines of what the entries that a job reaches lead to and shouldn't.
pub(crate) fn report_reached<G: Gate, R: Threads + Sync, K: KeptFindings>(
    crew: &Crew<G, R>,
    job: &JobView<'_>,
    tables: &Tables,
    graph: &Graph,
    pairs: &[Reached],
    lines: &mut FindingLines<K>,
) -> Result<(), AllocError>
    requires tables { tables.now ≡ directory_of job.now }
    requires graph { IsJobPart job.now graph.now }
    requires pairs { ArePairs graph.now pairs.now }
    ensures { OnOk result ((q : List ℕ) → IsTrue (has_text lines.new q) ↔ (IsTrue (has_text lines.old q) ⊎ IsLineOf job.now entries q)) }
{
    let alloc = crew.alloc;
    let nodes = nodes_of(alloc, job, graph, pairs)?;
    let loops = on_loops(&crew.of_search(), graph, &nodes)?;
    let reach = Reach {
        nodes: &nodes,
        loops: &loops,
    };
    report_entries(alloc, job, tables, graph, &reach, lines)
}

/// The plan of transactions, with these lines of what is found.
pub(crate) fn plan_with(
    alloc: Global,
    job: &JobView<'_>,
    transactions: Vec<Planned>,
    findings: Seq<Text>,
) -> Result<Plan, AllocError>
    requires transactions { AreTransactionsOf job.now transactions.items }
    requires sound { IsSoundFor job.now transactions.items }
    requires fewest { IsFewest job.now transactions.items }
    requires ascending { IsAscendingBy text_cmp findings }
    ensures plan { IfOk result (IsPlanWith job.now (λ q. IsTrue (has_text findings q))) }
    ensures sound { IfOk result (λ plan. IsSoundFor job.now plan.transactions) }
    ensures fewest { IfOk result (λ plan. IsFewest job.now plan.transactions) }
    ensures findings { IfOk result (λ plan. plan.findings ≡ findings) }
{
    let hostname = Vec::from_slice(alloc, job.settings().hostname.as_bytes())?;
    Ok(Plan {
        hostname: Text::of(hostname),
        transactions: Seq::of(transactions),
        findings,
    })
}

/// The plan of transactions, with the lines that are gathered.
fn plan_of<R: Threads + Sync>(
    crew: &relay_sharing::Crew<'_, R>,
    job: &JobView<'_>,
    transactions: Vec<Planned>,
    lines: FindingLines,
) -> Result<Plan, AllocError>
    requires transactions { AreTransactionsOf job.now transactions.items }
    requires sound { IsSoundFor job.now transactions.items }
    requires fewest { IsFewest job.now transactions.items }
    ensures plan { IfOk result (IsPlanWith job.now (λ q. IsTrue (has_text lines q))) }
    ensures sound { IfOk result (λ plan. IsSoundFor job.now plan.transactions) }
    ensures fewest { IfOk result (λ plan. IsFewest job.now plan.transactions) }
{
    match lines.into_seq_by(crew) {
        Ok(findings) => plan_with(crew.alloc, job, transactions, findings),
        Err(error) => {
            drop(transactions);
            Err(error)
        }
    }
}

/// The plan of a job that reaches these pairs, with the lines that are given and those of addresses without a route.
fn plan_pairs<'a, R: Threads + Sync>(
    crew: &relay_sharing::Crew<'_, R>,
    job: &JobView<'_>,
    destinations: Destinations<'a>,
    graph: &'a Graph,
    pairs: &[Reached],
    lines: FindingLines,
) -> Result<Plan, AllocError>
    requires routing { destinations.routing ≡ routing_of job.now }
    requires via { destinations.via ≡ job.now.settings.mailbox_transport }
    requires graph { IsJobPart job.now graph.now }
    requires reached { AreReachedPairs job.now graph.now pairs.now }
    requires few { length pairs.now ≤ 16777216 }
    ensures plan { IfOk result (IsPlanWith job.now (λ q. IsTrue (has_text lines q) ⊎ IsLineOf job.now routes q)) }
    ensures sound { IfOk result (λ plan. IsSoundFor job.now plan.transactions) }
    ensures fewest { IfOk result (λ plan. IsFewest job.now plan.transactions) }
{
    let mut lines = lines;
    let transactions = plan_addresses(crew, job, destinations, graph, pairs, &mut lines)?;
    plan_of(crew, job, transactions, lines)
}

/// The plan of a job that reaches these pairs, with the lines that are given and those of what is reached. `Err` where memory runs out.
pub fn plan_reached<G: Gate, R: Threads + Sync>(
    crew: &Crew<G, R>,
    job: &JobView<'_>,
    lookup: &Lookup,
    graph: &Graph,
    pairs: &[Reached],
    lines: FindingLines,
) -> Result<Plan, AllocError>
    requires tables { lookup.now.tables ≡ directory_of job.now }
    requires router { lookup.now.router ≡ routing_of job.now }
    requires graph { IsJobPart job.now graph.now }
    requires pairs { ArePairs graph.now pairs.now }
    requires reached { AreReachedPairs job.now graph.now pairs.now }
    requires few { length pairs.now ≤ 16777216 }
    ensures plan { IfOk result (IsPlanWith job.now (λ q. IsTrue (has_text lines q) ⊎ IsOwnFindingLine job.now q)) }
    ensures sound { IfOk result (λ plan. IsSoundFor job.now plan.transactions) }
    ensures fewest { IfOk result (λ plan. IsFewest job.now plan.transactions) }
{
    let alloc = crew.alloc;
    let mut lines = lines;
    report_reached(crew, job, &lookup.tables, graph, pairs, &mut lines)?;
    let via = &job.settings().mailbox_transport;
    let destinations = Destinations::new(alloc, &lookup.router, via, lookup.key)?;
    plan_pairs(&crew.of_shares(), job, destinations, graph, pairs, lines)
}

/// The plan of a job whose files and tables are read. Their lines that are at fault are given.
///
/// The errors are those of [`plan_job`], in the same order.
pub fn plan_by_lookup<G: Gate, R: Threads + Sync>(
    crew: &Crew<G, R>,
    job: &JobView<'_>,
    lookup: Lookup,
    lines: FindingLines,
) -> Result<Plan, RunFault>
    requires tables { lookup.tables ≡ directory_of job.now }
    requires router { lookup.router ≡ routing_of job.now }
    requires lines { (q : List ℕ) → has_text lines q ≡ has_fault_line job.now q }
    ensures plan { IfOk result (IsPlanOf job.now) }
    ensures sound { IfOk result (λ plan. IsSoundFor job.now plan.transactions) }
    ensures fewest { IfOk result (λ plan. IsFewest job.now plan.transactions) }
    ensures within { OnOk result (IsWithin crew.now.limits job.now) }
    ensures refused { IfErr result (IsRefused crew.now.limits job.now) }
{
    let mut lines = lines;
    let Transacted {
        transactions,
        basis,
    } = transactions_by_lookup(crew, job, lookup, &mut lines)?;
    drop(basis);
    match plan_of(&crew.of_shares(), job, transactions, lines) {
        Ok(plan) => Ok(plan),
        Err(_) => Err(RunFault::Memory),
    }
}

/// The plan of a job: each address that an entry or recipient leads to, once under each sender that a chain of entries gives it, in
/// transactions by sender, transport and nexthop within the transport's limit (aliases(5), local(8), transport(5) and postconf(5) of
/// Postfix), and a line for each finding.
///
/// `TooManyNames`, `TooManyOwners` and `TooManyPairs` come in this order, exactly where the job has more than `limits` takes; `Memory`
/// where a growth was refused. Neither the number of threads nor how the work is cut changes the plan.
pub fn plan_job<G: Gate, R: Threads + Sync>(
    rt: &R,
    alloc: Global,
    job: &Job,
    options: Options,
    limits: Limits,
    gate: &G,
) -> Result<Plan, RunFault>
    requires options { AreOptions options }
    requires limits { AreLimits limits }
    requires job { IsJobWithin limits.bytes job.now }
    ensures plan { IfOk result (IsPlanOf job.now) }
    ensures sound { IfOk result (λ plan. IsSoundFor job.now plan.transactions) }
    ensures fewest { IfOk result (λ plan. IsFewest job.now plan.transactions) }
    ensures within { OnOk result (IsWithin limits job.now) }
    ensures refused { IfErr result (IsRefused limits job.now) }
{
    parsed_is_readable();
    let crew = Crew {
        rt,
        alloc,
        options,
        limits,
        gate,
    };
    let mut lines = FindingLines::new(alloc);
    let Ok(lookup) = Lookup::read_by(&crew, job, &mut lines) else {
        return Err(RunFault::Memory);
    };
    plan_by_lookup(&crew, &JobView::of(job), lookup, lines)
}
