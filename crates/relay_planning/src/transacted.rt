//! The transactions of a job whose files and tables are read.
//!
//! Lines of what is reached are made from the tables and the graph, and transactions from the graph and the router, so several workers do both
//! at the same time where there is much of it ([`transactions_side_by_side`]). What each step leaves behind is let go of where nobody waits for
//! it: the tables behind those lines, and the basis by who writes the transactions.
use crate::reached_graph::ReachedGraph;
use relay_chains::TextKey;
use relay_routes::Router;
use relay_wire::Planned;

/// The transactions of a job, and what they were made of.
#[derive(Drop)]
pub(crate) struct Transacted {
    pub(crate) transactions: Vec<Planned>,
    pub(crate) basis: Basis,
}

/// What transactions are made of, and nobody needs behind them. To let go of it takes about as long as to write them.
#[derive(Drop)]
pub(crate) struct Basis {
    pub(crate) reached: ReachedGraph,
    pub(crate) router: Router,
}

ghost use Rattle.std.specs.Prelude.{◌≡◌, [], IfOk, IfErr, OnOk};
ghost use Rattle.std.specs.Thread.{IsSync, IsSend};
ghost use Rattle.relay_planning.specs.Delivery.{directory_of, routing_of};
ghost use Rattle.relay_planning.specs.Findings.{Reports};
ghost use Rattle.relay_planning.specs.Limits.{IsWithin, IsRefused};
ghost use Rattle.relay_planning.specs.Plans.{AreTransactionsOf, IsFewest, IsSoundFor};
ghost use Rattle.relay_planning.specs.ReachedGraph.{IsReachedGraph};
ghost use Rattle.relay_planning.specs.Report.{entries, routes, IsLineOf, IsOwnFindingLine};

use crate::addresses::plan_addresses;
use crate::both::both_of;
use crate::crew::Crew;
use crate::job_view::JobView;
use crate::lookup::Lookup;
use crate::planning::report_reached;
use relay_destinations::Destinations;
use relay_job::RunFault;
use relay_rounds::Gate;
use relay_tables::Tables;
use relay_wire::{FindingLines, KeptFindings};
use std::alloc::AllocError;
use std::thread::{Threads, join};

/// From so many pairs on two threads share the work: to start one takes as long as to look at some thousands of pairs.
pub(crate) const MANY: usize = 65_536;

/// The transactions of what a job reaches, and the lines of what is reached: first those lines, then the transactions.
fn transactions_in_turn<'a, G: Gate, R: Threads + Sync, K: KeptFindings>(
    crew: &Crew<G, R>,
    job: &JobView<'_>,
    tables: Tables,
    destinations: Destinations<'a>,
    reached: &'a ReachedGraph,
    lines: &mut FindingLines<K>,
) -> Result<Vec<Planned>, AllocError>
    requires tables { tables ≡ directory_of job.now }
    requires routing { destinations.routing ≡ routing_of job.now }
    requires via { destinations.via ≡ job.now.settings.mailbox_transport }
    requires reached { IsReachedGraph job.now reached.now }
    ensures transactions { IfOk result (λ transactions. AreTransactionsOf job.now transactions.items) }
    ensures sound { IfOk result (λ transactions. IsSoundFor job.now transactions.items) }
    ensures fewest { IfOk result (λ transactions. IsFewest job.now transactions.items) }
    ensures lines { OnOk result (Reports lines.old lines.new (IsOwnFindingLine job.now)) }
{
    let ReachedGraph { graph, pairs } = reached;
    let reported = report_reached(crew, job, &tables, graph, pairs, lines);
    drop(tables);
    reported?;
    plan_addresses(&crew.of_shares(), job, destinations, graph, pairs, lines)
}

/// The lines of what the entries that a job reaches lead to and shouldn't, and no others. The tables are let go of.
fn lines_of_entries<G: Gate, R: Threads + Sync, K: KeptFindings + Drop>(
    crew: &Crew<G, R>,
    job: &JobView<'_>,
    tables: Tables,
    reached: &ReachedGraph,
) -> Result<FindingLines<K>, AllocError>
    requires tables { tables ≡ directory_of job.now }
    requires reached { IsReachedGraph job.now reached.now }
    ensures { IfOk result (λ lines. Reports [] lines (IsLineOf job.now entries)) }
{
    let mut lines = FindingLines::empty(crew.alloc);
    let ReachedGraph { graph, pairs } = reached;
    let reported = report_reached(crew, job, &tables, graph, pairs, &mut lines);
    drop(tables);
    reported?;
    Ok(lines)
}

/// The transactions of what a job reaches, and the lines of addresses without a route, and no others.
fn routed_of<'a, G: Gate, R: Threads + Sync, K: KeptFindings + Drop>(
    crew: &Crew<G, R>,
    job: &JobView<'_>,
    destinations: Destinations<'a>,
    reached: &'a ReachedGraph,
) -> Result<(Vec<Planned>, FindingLines<K>), AllocError>
    requires routing { destinations.routing ≡ routing_of job.now }
    requires via { destinations.via ≡ job.now.settings.mailbox_transport }
    requires reached { IsReachedGraph job.now reached.now }
    ensures transactions { IfOk result (λ routed. AreTransactionsOf job.now routed.0.items) }
    ensures sound { IfOk result (λ routed. IsSoundFor job.now routed.0.items) }
    ensures fewest { IfOk result (λ routed. IsFewest job.now routed.0.items) }
    ensures lines { IfOk result (λ routed. Reports [] routed.1 (IsLineOf job.now routes)) }
{
    let mut lines = FindingLines::empty(crew.alloc);
    let ReachedGraph { graph, pairs } = reached;
    let transactions = plan_addresses(
        &crew.of_shares(),
        job,
        destinations,
        graph,
        pairs,
        &mut lines,
    )?;
    Ok((transactions, lines))
}

/// The transactions of what a job reaches, in this thread, and in another the lines of what is reached. Adds all lines.
fn transactions_side_by_side<'a, G: Gate, R: Threads + Sync, K: KeptFindings + Send + Drop>(
    crew: &Crew<G, R>,
    job: &JobView<'_>,
    tables: Tables,
    destinations: Destinations<'a>,
    reached: &'a ReachedGraph,
    lines: &mut FindingLines<K>,
) -> Result<Vec<Planned>, AllocError>
    requires tables { tables ≡ directory_of job.now }
    requires routing { destinations.routing ≡ routing_of job.now }
    requires via { destinations.via ≡ job.now.settings.mailbox_transport }
    requires reached { IsReachedGraph job.now reached.now }
    ensures transactions { IfOk result (λ transactions. AreTransactionsOf job.now transactions.items) }
    ensures sound { IfOk result (λ transactions. IsSoundFor job.now transactions.items) }
    ensures fewest { IfOk result (λ transactions. IsFewest job.now transactions.items) }
    ensures lines { OnOk result (Reports lines.old lines.new (IsOwnFindingLine job.now)) }
{
    let (there, here) = join(
        crew.rt,
        move || -> Result<FindingLines<K>, AllocError>
            requires { IsSync G.row × IsSync R.row × (tables ≡ directory_of job.now) × IsReachedGraph job.now reached.now }
            ensures { IfOk result (λ lines. Reports [] lines (IsLineOf job.entry.now entries)) }
        { lines_of_entries(crew, job, tables, reached) },
        move || -> Result<(Vec<Planned>, FindingLines<K>), AllocError>
            requires { IsSync G.row × IsSync R.row × (destinations.routing ≡ routing_of job.now) × (destinations.via ≡ job.now.settings.mailbox_transport) × IsReachedGraph job.now reached.now }
            ensures { IfOk result (λ routed. AreTransactionsOf job.entry.now routed.0.items × IsSoundFor job.entry.now routed.0.items × IsFewest job.entry.now routed.0.items × Reports [] routed.1 (IsLineOf job.entry.now routes)) }
        { routed_of(crew, job, destinations, reached) },
    );
    let (of_entries, (transactions, of_routes)) = both_of(there, here)?;
    lines.append(of_entries)?;
    lines.append(of_routes)?;
    Ok(transactions)
}

/// The transactions of what a job reaches. Adds the lines of what is reached. The key is that of the hashes of domains and nexthops.
fn transactions_of_basis<G: Gate, R: Threads + Sync, K: KeptFindings + Send + Drop>(
    crew: &Crew<G, R>,
    job: &JobView<'_>,
    tables: Tables,
    basis: &Basis,
    key: TextKey,
    lines: &mut FindingLines<K>,
) -> Result<Vec<Planned>, AllocError>
    requires tables { tables ≡ directory_of job.now }
    requires router { basis.now.router ≡ routing_of job.now }
    requires reached { IsReachedGraph job.now basis.now.reached }
    ensures transactions { IfOk result (λ transactions. AreTransactionsOf job.now transactions.items) }
    ensures sound { IfOk result (λ transactions. IsSoundFor job.now transactions.items) }
    ensures fewest { IfOk result (λ transactions. IsFewest job.now transactions.items) }
    ensures lines { OnOk result (Reports lines.old lines.new (IsOwnFindingLine job.now)) }
{
    let Basis { reached, router } = basis;
    let via = &job.settings().mailbox_transport;
    let destinations = Destinations::new(crew.alloc, router, via, key)?;
    if crew.options.workers < 2 || reached.pairs.len() < MANY {
        transactions_in_turn(crew, job, tables, destinations, reached, lines)
    } else {
        transactions_side_by_side(crew, job, tables, destinations, reached, lines)
    }
}

/// The transactions of a job whose files and tables are read. Adds the lines of what is reached.
pub(crate) fn transactions_by_lookup<G: Gate, R: Threads + Sync, K: KeptFindings + Send + Drop>(
    crew: &Crew<G, R>,
    job: &JobView<'_>,
    lookup: Lookup,
    lines: &mut FindingLines<K>,
) -> Result<Transacted, RunFault>
    requires tables { lookup.tables ≡ directory_of job.now }
    requires router { lookup.router ≡ routing_of job.now }
    ensures transactions { IfOk result (λ made. AreTransactionsOf job.now made.transactions.items) }
    ensures sound { IfOk result (λ made. IsSoundFor job.now made.transactions.items) }
    ensures fewest { IfOk result (λ made. IsFewest job.now made.transactions.items) }
    ensures lines { OnOk result (Reports lines.old lines.new (IsOwnFindingLine job.now)) }
    ensures within { OnOk result (IsWithin crew.now.limits job.now) }
    ensures refused { IfErr result (IsRefused crew.now.limits job.now) }
{
    let Lookup {
        tables,
        router,
        key,
    } = lookup;
    let reached = ReachedGraph::of(crew, job, &tables)?;
    let basis = Basis { reached, router };
    match transactions_of_basis(crew, job, tables, &basis, key, lines) {
        Ok(transactions) => Ok(Transacted {
            transactions,
            basis,
        }),
        Err(_) => Err(RunFault::Memory),
    }
}
