//! The domains whose mail exchangers a job asks for.
ghost use Rattle.std.specs.Prelude.{◌≡◌, ◌<◌, ◌≤◌, [], Some, Err, length, All, IfOk, IfErr, OnOk};
ghost use Rattle.relay_job.specs.JobAnswers.{IsJobWithin};
ghost use Rattle.relay_pairs.specs.Pairs.{ArePairs};
ghost use Rattle.relay_routes.specs.Destinations.{looked_up_name};
ghost use Rattle.relay_planning.specs.Delivery.{directory_of, routing_of, IsJobPart};
ghost use Rattle.aliasplan.specs.Domains.{domain_of_found, AreAskedDomains, AsksFor};
ghost use Rattle.relay_planning.specs.Entries.{HaveLine};
ghost use Rattle.relay_planning.specs.Findings.{Reports};
ghost use Rattle.relay_planning.specs.Limits.{name_count, owned_count, IsWithin, IsRefused};

use relay_job::{Job, RunFault};
use relay_pairs::Reached;
use relay_planning::{Crew, JobView, Lookup, graph_of, nodes_of, pairs_of, parsed_is_readable};
use relay_rounds::Gate;
use relay_routes::{Destination, Router, Unrouted};
use relay_tables::{Graph, Node};
use relay_text::{Seq, Text, TextSet};
use relay_wire::FindingLines;
use std::alloc::{AllocError, Global};
use std::thread::Threads;

/// Adds the domain that a destination asks for.
fn add_destination(alloc: Global, to: &Destination, domains: &mut TextSet) -> Result<(), AllocError>
    ensures { OnOk result (Reports domains.old domains.new (λ q. looked_up_name to.now ≡ Some q)) }
{
    if let Some(name) = to.looked_up_name(alloc)? {
        domains.insert(name.into_bytes(alloc)?)?;
    }
    Ok(())
}

/// Adds the domain that the way to a destination asks for. `Err` where memory ran out, then or when the destination was looked for.
fn add_found(
    alloc: Global,
    found: Result<Destination, Unrouted>,
    domains: &mut TextSet,
) -> Result<(), AllocError>
    ensures domains { OnOk result (Reports domains.old domains.new (λ q. domain_of_found found ≡ Some q)) }
    ensures memory { OnOk result (found ≡ Err Unrouted.Memory → ⊥) }
{
    match found {
        Ok(to) => {
            let added = add_destination(alloc, &to, domains);
            drop(to);
            added
        }
        Err(Unrouted::Memory) => Err(AllocError),
        Err(_) => Ok(()),
    }
}

/// Adds the domain that a node asks for.
fn add_node(
    alloc: Global,
    job: &JobView<'_>,
    router: &Router,
    graph: &Graph,
    node: u32,
    domains: &mut TextSet,
) -> Result<(), AllocError>
    requires router { router.now ≡ routing_of job.now }
    requires node { node < length graph.now.nodes }
    ensures { OnOk result (Reports domains.old domains.new (AsksFor job.now graph.now node)) }
{
    match graph.node(node) {
        Node::Mailbox(address) => {
            let via = &job.settings().mailbox_transport;
            add_found(alloc, router.destination_via(alloc, via, address), domains)
        }
        Node::Remote(address) => add_found(alloc, router.destination(alloc, address), domains),
        Node::Alias(_)
        | Node::Include(_)
        | Node::Missing(_)
        | Node::NoInclude(_)
        | Node::Command(_)
        | Node::File(_) => Ok(()),
    }
}

/// The domains that nodes ask for.
fn domains_of_nodes(
    alloc: Global,
    job: &JobView<'_>,
    router: &Router,
    graph: &Graph,
    nodes: &[u32],
) -> Result<TextSet, AllocError>
    requires router { router.now ≡ routing_of job.now }
    requires nodes { All (λ n. n < length graph.now.nodes) nodes.now }
    ensures { IfOk result (λ domains. Reports [] domains (HaveLine (AsksFor job.now graph.now) nodes.now)) }
{
    let mut domains = TextSet::new(alloc);
    for node in nodes {
        add_node(alloc, job, router, graph, *node, &mut domains)?;
    }
    Ok(domains)
}

/// The domains that the reached pairs ask for.
fn domains_of_pairs(
    alloc: Global,
    job: &JobView<'_>,
    router: &Router,
    graph: &Graph,
    pairs: &[Reached],
) -> Result<Seq<Text>, AllocError>
    requires router { router.now ≡ routing_of job.now }
    requires graph { IsJobPart job.now graph.now }
    requires pairs { ArePairs graph.now pairs.now }
    ensures { IfOk result (AreAskedDomains job.now) }
{
    let nodes = nodes_of(alloc, job, graph, pairs)?;
    let domains = domains_of_nodes(alloc, job, router, graph, &nodes)?;
    domains.into_seq(alloc)
}

/// The domains that a job asks for, by its graph.
fn domains_of_graph<G: Gate, R: Threads + Sync>(
    crew: &Crew<G, R>,
    job: &JobView<'_>,
    router: &Router,
    graph: &Graph,
) -> Result<Seq<Text>, RunFault>
    requires router { router.now ≡ routing_of job.now }
    requires graph { IsJobPart job.now graph.now }
    requires names { name_count job.now ≤ crew.now.limits.names }
    requires owners { owned_count job.now ≤ crew.now.limits.owners }
    ensures domains { IfOk result (AreAskedDomains job.now) }
    ensures within { OnOk result (IsWithin crew.now.limits job.now) }
    ensures refused { IfErr result (IsRefused crew.now.limits job.now) }
{
    let pairs = pairs_of(crew, job, graph)?;
    match domains_of_pairs(crew.alloc, job, router, graph, &pairs) {
        Ok(domains) => Ok(domains),
        Err(_) => Err(RunFault::Memory),
    }
}

/// The domains that a job asks for whose files and tables are read.
fn domains_by_lookup<G: Gate, R: Threads + Sync>(
    crew: &Crew<G, R>,
    job: &JobView<'_>,
    lookup: &Lookup,
) -> Result<Seq<Text>, RunFault>
    requires tables { lookup.now.tables ≡ directory_of job.now }
    requires router { lookup.now.router ≡ routing_of job.now }
    ensures domains { IfOk result (AreAskedDomains job.now) }
    ensures within { OnOk result (IsWithin crew.now.limits job.now) }
    ensures refused { IfErr result (IsRefused crew.now.limits job.now) }
{
    let graph = graph_of(crew, job, &lookup.tables)?;
    let domains = domains_of_graph(crew, job, &lookup.router, &graph);
    drop(graph);
    domains
}

/// The domains whose mail exchangers a plan of the job looks up, in lower case, each once, in the order of their bytes: of each mailbox
/// and remote address that a recipient leads to, the host of the nexthop, unless it stands in brackets or the transport is LMTP
/// (transport(5), smtp(8); RFC 5321 section 5.1). The job's own table of exchangers may have records of them or not.
///
/// The errors are those of `plan_job`. The form of the options is not regarded, and neither the number of threads nor how the work is cut
/// changes the answer.
pub fn domains<G: Gate, R: Threads + Sync>(
    crew: &Crew<G, R>,
    job: &Job,
) -> Result<Seq<Text>, RunFault>
    requires job { IsJobWithin crew.now.limits.bytes job.now }
    ensures domains { IfOk result (AreAskedDomains job.now) }
    ensures within { OnOk result (IsWithin crew.now.limits job.now) }
    ensures refused { IfErr result (IsRefused crew.now.limits job.now) }
{
    parsed_is_readable();
    let mut lines = FindingLines::new(crew.alloc);
    let read = Lookup::read_by(crew, job, &mut lines);
    // No line is asked for: their room is given back before the graph needs its own.
    drop(lines);
    match read {
        Ok(lookup) => {
            let domains = domains_by_lookup(crew, &JobView::of(job), &lookup);
            drop(lookup);
            domains
        }
        Err(_) => Err(RunFault::Memory),
    }
}
