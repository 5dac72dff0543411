//! What names and addresses expand to.
//!
//! It is what the plan of a message to them from the null sender has, which needs no routes: an address that is reached under a sender is
//! in a transaction, or it is a finding.
ghost use Rattle.std.specs.Prelude.{◌≡◌, ◌<◌, ◌++◌, [], None, length, map, All, option_map, option_copied, IsTrue, IfOk, IfErr, OnOk};
ghost use Rattle.relay_text.specs.Addresses.{is_origin};
ghost use Rattle.relay_job.specs.declared.job.Job as jobs;
ghost use Rattle.relay_job.specs.Tables.{AreTablesWithin};
ghost use Rattle.relay_job.specs.Envelopes.{with_envelope};
ghost use Rattle.aliasplan.specs.Checks.{AreLines};
ghost use Rattle.relay_planning.specs.Delivery.{directory_of, final_address};
ghost use Rattle.relay_planning.specs.Findings.{Reports};
ghost use Rattle.relay_planning.specs.Limits.{IsRefused, IsWithin};
ghost use Rattle.relay_planning.specs.Reaching.{AreReachedPairs};
ghost use Rattle.aliasplan_explain.specs.Expansions.{expansion_line, recipient_for, sender_column, to_asked, HavePairLine, IsExpansionLine, IsPairLine};

use crate::basis::graph_with_pairs;
use aliasplan::{Crew, Envelope, Gate, Job, RunFault};
use relay_explain::Asked;
use relay_job::parsed_tables;
use relay_pairs::Reached;
use relay_planning::{JobView, Lookup, parsed_is_readable};
use relay_tables::{Graph, Node, Tables};
use relay_text::{Address, Seq, Text, TextSet, write_path};
use relay_wire::FindingLines;
use std::alloc::{AllocError, Global};
use std::thread::Threads;

/// The recipient that a name or an address is.
fn recipient_for(alloc: Global, asked: &Asked, origin: &[u8]) -> Result<Address, AllocError>
    requires { IsTrue (is_origin origin.now) }
    ensures { IfOk result (λ a. a ≡ recipient_for origin.now asked.now) }
{
    match asked {
        Asked::Address(address) => address.copy(alloc),
        Asked::Name(address) => Address::new(alloc, address.local(), origin),
    }
}

/// The envelope of the null sender who writes to these.
pub(crate) fn envelope_to(
    alloc: Global,
    asked: &[Asked],
    origin: &[u8],
) -> Result<Envelope, AllocError>
    requires { IsTrue (is_origin origin.now) }
    ensures { IfOk result (λ envelope. envelope ≡ record { sender = None; recipients = map (recipient_for origin.now) asked.now }) }
{
    let mut recipients = Vec::with_capacity(alloc, asked.len())?;
    for one in asked {
        recipients.push(recipient_for(alloc, one, origin)?)?;
    }
    Ok(Envelope {
        sender: None,
        recipients: Seq::of(recipients),
    })
}

/// The address that a node is, if it is one.
fn address_at(node: &Node) -> Option<&Address>
    ensures { (job : jobs.Job) → option_copied result ≡ final_address job node.now }
{
    match node {
        Node::Mailbox(address) => Some(address),
        Node::Remote(address) => Some(address),
        Node::Alias(_)
        | Node::Include(_)
        | Node::Missing(_)
        | Node::NoInclude(_)
        | Node::Command(_)
        | Node::File(_) => None,
    }
}

/// Puts a sender and a tab at the end, where senders are asked for.
fn put_sender(
    sender: Option<&Address>,
    with_senders: bool,
    line: &mut Vec<u8>,
) -> Result<(), AllocError>
    ensures { OnOk result (line.new.items ≡ line.old.items ++ sender_column with_senders (option_map (λ a. a.now) sender.entry)) }
{
    if !with_senders {
        return Ok(());
    }
    write_path(sender, line)?;
    line.extend_from_slice(b"\t")
}

/// The line of an address that is reached under a sender.
fn line_of(
    alloc: Global,
    sender: Option<&Address>,
    address: &Address,
    with_senders: bool,
) -> Result<Vec<u8>, AllocError>
    ensures { IfOk result (λ line. line.items ≡ expansion_line with_senders (option_map (λ a. a.now) sender.entry) address.now) }
{
    let mut line = Vec::new(alloc);
    put_sender(sender, with_senders, &mut line)?;
    write_path(Some(address), &mut line)?;
    Ok(line)
}

/// Adds the line of a pair whose node is an address.
fn add_pair(
    alloc: Global,
    graph: &Graph,
    pair: Reached,
    with_senders: bool,
    lines: &mut TextSet,
) -> Result<(), AllocError>
    requires sender { pair.sender < length graph.now.senders }
    requires node { pair.node < length graph.now.nodes }
    ensures { OnOk result ((job : jobs.Job) → Reports lines.old lines.new (λ q. IsPairLine job graph.now with_senders q pair)) }
{
    if let Some(address) = address_at(graph.node(pair.node)) {
        let sender = graph.sender(pair.sender);
        lines.insert(line_of(alloc, sender, address, with_senders)?)?;
    }
    Ok(())
}

/// The lines of the pairs whose nodes are addresses.
fn lines_of_pairs(
    alloc: Global,
    graph: &Graph,
    pairs: &[Reached],
    with_senders: bool,
) -> Result<TextSet, AllocError>
    requires { All (λ p. (p.sender < length graph.now.senders) × (p.node < length graph.now.nodes)) pairs.now }
    ensures { IfOk result (λ lines. (job : jobs.Job) → Reports [] lines (HavePairLine job graph.now with_senders pairs.now)) }
{
    let mut lines = TextSet::new(alloc);
    for pair in pairs {
        add_pair(alloc, graph, *pair, with_senders, &mut lines)?;
    }
    Ok(lines)
}

/// The lines of the addresses that a job reaches by these pairs.
fn lines_reached(
    alloc: Global,
    job: &JobView<'_>,
    graph: &Graph,
    pairs: &[Reached],
    with_senders: bool,
) -> Result<Seq<Text>, AllocError>
    requires { AreReachedPairs job.now graph.now pairs.now }
    ensures { IfOk result (AreLines (IsExpansionLine job.now with_senders)) }
{
    let _ = job;
    let lines = lines_of_pairs(alloc, graph, pairs, with_senders)?;
    lines.into_seq(alloc)
}

/// The lines of the addresses that a job reaches, whose names stand for what these tables say.
fn lines_by_tables<G: Gate, R: Threads + Sync>(
    crew: &Crew<G, R>,
    job: &JobView<'_>,
    tables: &Tables,
    with_senders: bool,
) -> Result<Seq<Text>, RunFault>
    requires { tables.now ≡ directory_of job.now }
    ensures lines { IfOk result (AreLines (IsExpansionLine job.now with_senders)) }
    ensures within { OnOk result (IsWithin crew.now.limits job.now) }
    ensures refused { IfErr result (IsRefused crew.now.limits job.now) }
{
    let (graph, pairs) = graph_with_pairs(crew, job, tables)?;
    let lines = lines_reached(crew.alloc, job, &graph, &pairs, with_senders);
    drop(graph);
    Ok(lines?)
}

/// The lines of the addresses that a message to an envelope's recipients reaches.
fn lines_for<G: Gate, R: Threads + Sync>(
    crew: &Crew<G, R>,
    tables: &Job,
    envelope: &Envelope,
    with_senders: bool,
) -> Result<Seq<Text>, RunFault>
    requires { AreTablesWithin crew.now.limits.bytes tables.now }
    ensures lines { IfOk result (AreLines (IsExpansionLine (with_envelope tables.now envelope.now) with_senders)) }
    ensures within { OnOk result (IsWithin crew.now.limits (with_envelope tables.now envelope.now)) }
    ensures refused { IfErr result (IsRefused crew.now.limits (with_envelope tables.now envelope.now)) }
{
    parsed_is_readable();
    let mut faults = FindingLines::new(crew.alloc);
    let read = Lookup::read_by(crew, tables, &mut faults);
    // No line is asked for: their room is given back before the graph needs its own.
    drop(faults);
    match read {
        Ok(lookup) => {
            let job = JobView::joined(tables, envelope);
            let lines = lines_by_tables(crew, &job, &lookup.tables, with_senders);
            drop(lookup);
            lines
        }
        Err(_) => Err(RunFault::Memory),
    }
}

/// What names and addresses expand to by files and tables: a line for each address that the plan of a message to them from the null sender
/// has in a transaction or as one without a route, or for each sender and address. The lines stand in the order of their bytes, each once,
/// as a plan has its senders and their recipients.
///
/// The errors are those of `plan_job` of that message. The form of the options is not regarded, and neither the number of threads nor how
/// the work is cut changes the answer.
pub fn expand<G: Gate, R: Threads + Sync>(
    crew: &Crew<G, R>,
    tables: &Job,
    asked: &[Asked],
    with_senders: bool,
) -> Result<Seq<Text>, RunFault>
    requires { AreTablesWithin crew.now.limits.bytes tables.now }
    ensures lines { IfOk result (AreLines (IsExpansionLine (to_asked tables.now asked.now) with_senders)) }
    ensures within { OnOk result (IsWithin crew.now.limits (to_asked tables.now asked.now)) }
    ensures refused { IfErr result (IsRefused crew.now.limits (to_asked tables.now asked.now)) }
{
    parsed_tables();
    let origin = tables.settings.origin.as_bytes();
    let envelope = envelope_to(crew.alloc, asked, origin)?;
    let lines = lines_for(crew, tables, &envelope, with_senders);
    drop(envelope);
    lines
}
