//! What decides where a node goes.
ghost use Rattle.std.specs.Prelude.{◌≡◌, option_map, option_and_then, Some, Result, IfOk};
ghost use Rattle.relay_routes.specs.declared.destination.Destination as destinations;
ghost use Rattle.relay_routes.specs.declared.unrouted.Unrouted as reasons;
ghost use Rattle.relay_routes.specs.Destinations.{looked_up_name};
ghost use Rattle.relay_routes.specs.Routes.{Answers};
ghost use Rattle.relay_tables.specs.declared.node.Node.TheVariants as nodes;
ghost use Rattle.aliasplan_explain.specs.Decisions.{decision_by, decision_of, fate_at, ok_of, record_at, records_of, rule_for};
ghost use Rattle.aliasplan_explain.specs.Grounds.{IsBasisOf};

use crate::grounds::Grounds;
use aliasplan::own_names;
use relay_explain::{Decision, Fate, Record, Rule};
use relay_job::Job;
use relay_routes::{
    Destination, ExchangerLine, Fate as Known, Unrouted, Via, deciding_line, exchanger_lines,
};
use relay_tables::Node;
use relay_text::{Address, Seq, Text};
use std::alloc::{AllocError, Global};

fn copy_of_via(alloc: Global, via: &Via) -> Result<Via, AllocError>
    ensures { IfOk result (λ copy. copy ≡ via.now) }
{
    let nexthop = match &via.nexthop {
        Some(nexthop) => Some(Text::copy_of(alloc, nexthop.as_bytes())?),
        None => None,
    };
    Ok(Via {
        transport: via.transport,
        nexthop,
    })
}

// The line of the transport table that decides, or else the setting.
fn rule_for(alloc: Global, job: &Job, address: &Address) -> Result<Rule, AllocError>
    ensures { IfOk result (λ rule. rule ≡ rule_for job.now address.now) }
{
    let table = job.transport.as_bytes();
    match deciding_line(alloc, table, address, job.settings.delimiter)? {
        Some(line) => Ok(Rule::Line(line.line, line.pattern, line.result)),
        None => Ok(Rule::DefaultTransport(job.settings.default_transport)),
    }
}

fn fate_of(fate: Known) -> Fate
    ensures { result ≡ fate_at fate }
{
    match fate {
        Known::Host => Fate::Host,
        Known::Repeated => Fate::Repeated,
        Known::Own => Fate::Own,
        Known::Discarded => Fate::Discarded,
        Known::Null => Fate::Null,
    }
}

fn record_of(line: ExchangerLine) -> Record
    ensures { result ≡ record_at line }
{
    let ExchangerLine {
        line,
        preference,
        host,
        fate,
    } = line;
    Record {
        line,
        preference,
        host,
        fate: fate_of(fate),
    }
}

// The records of a name, in the order of the table.
fn records_of_name(alloc: Global, job: &Job, name: &[u8]) -> Result<Seq<Record>, AllocError>
    ensures { IfOk result (λ records. records ≡ records_of job.now (Some name.now)) }
{
    let own_names = own_names(alloc, &job.settings)?;
    let lines = exchanger_lines(alloc, job.mx.as_bytes(), name, own_names.as_slice())?;
    let mut records = Vec::with_capacity(alloc, lines.len())?;
    for line in lines {
        records.push(record_of(line))?;
    }
    Ok(Seq::of(records))
}

// The records of the name whose exchangers are looked up, where they are.
fn records_of(alloc: Global, job: &Job, lookup: Option<&Text>) -> Result<Seq<Record>, AllocError>
    ensures { IfOk result (λ records. records ≡ records_of job.now (option_map (λ name. name.now) lookup.entry)) }
{
    match lookup {
        Some(name) => records_of_name(alloc, job, name.as_bytes()),
        None => Ok(Seq::of(Vec::new(alloc))),
    }
}

// The destination where there is one. `Err` where memory ran out.
fn destination_in(found: Result<Destination, Unrouted>) -> Result<Option<Destination>, AllocError>
    ensures { (given : Result destinations.Destination reasons.Unrouted) → Answers found given → IfOk result (λ to. to ≡ ok_of given) }
{
    match found {
        Ok(to) => Ok(Some(to)),
        Err(Unrouted::Memory) => Err(AllocError),
        Err(_) => Ok(None),
    }
}

// The name whose exchangers are looked up on the way to a destination.
fn lookup_of(alloc: Global, to: Option<&Destination>) -> Result<Option<Text>, AllocError>
    ensures { IfOk result (λ name. name ≡ option_and_then looked_up_name (option_map (λ d. d.now) to.entry)) }
{
    match to {
        Some(to) => to.looked_up_name(alloc),
        None => Ok(None),
    }
}

// The same, and the records of that name.
fn looked_up(
    alloc: Global,
    job: &Job,
    to: Option<&Destination>,
) -> Result<(Option<Text>, Seq<Record>), AllocError>
    ensures lookup { IfOk result (λ both. both.0 ≡ option_and_then looked_up_name (option_map (λ d. d.now) to.entry)) }
    ensures records { IfOk result (λ both. both.1 ≡ records_of job.now (option_and_then looked_up_name (option_map (λ d. d.now) to.entry))) }
{
    let lookup = lookup_of(alloc, to)?;
    let records = records_of(alloc, job, lookup.as_ref())?;
    Ok((lookup, records))
}

// What decides, where this is the rule and the destination.
fn decision_by(
    alloc: Global,
    job: &Job,
    rule: Rule,
    to: Option<Destination>,
) -> Result<Decision, AllocError>
    ensures { IfOk result (λ decision. decision ≡ decision_by job.now rule to) }
{
    let found = looked_up(alloc, job, to.as_ref())?;
    let (lookup, records) = found;
    Ok(Decision {
        rule,
        to,
        lookup,
        records,
    })
}

// What decides where a mailbox goes.
fn mailbox_decision(
    alloc: Global,
    grounds: &Grounds<'_>,
    address: &Address,
) -> Result<Decision, AllocError>
    requires made { IsBasisOf grounds.now.job.now grounds.now.basis.now }
    ensures { IfOk result (λ decision. Some decision ≡ decision_of grounds.now.job.now (nodes.Mailbox address.now)) }
{
    let job = grounds.job;
    let via = &job.settings.mailbox_transport;
    let router = &grounds.basis.lookup.router;
    let rule = Rule::MailboxTransport(copy_of_via(alloc, via)?);
    let to = destination_in(router.destination_via(alloc, via, address))?;
    decision_by(alloc, job, rule, to)
}

// What decides where a remote address goes.
fn remote_decision(
    alloc: Global,
    grounds: &Grounds<'_>,
    address: &Address,
) -> Result<Decision, AllocError>
    requires made { IsBasisOf grounds.now.job.now grounds.now.basis.now }
    ensures { IfOk result (λ decision. Some decision ≡ decision_of grounds.now.job.now (nodes.Remote address.now)) }
{
    let job = grounds.job;
    let rule = rule_for(alloc, job, address)?;
    let to = destination_in(grounds.basis.lookup.router.destination(alloc, address))?;
    decision_by(alloc, job, rule, to)
}

/// What decides where a node goes, where it is a mailbox or a remote address. `Err` where memory runs out.
pub(crate) fn decision_of(
    alloc: Global,
    grounds: &Grounds<'_>,
    node: &Node,
) -> Result<Option<Decision>, AllocError>
    requires made { IsBasisOf grounds.now.job.now grounds.now.basis.now }
    ensures { IfOk result (λ decision. decision ≡ decision_of grounds.now.job.now node.now) }
{
    match node {
        Node::Mailbox(address) => Ok(Some(mailbox_decision(alloc, grounds, address)?)),
        Node::Remote(address) => Ok(Some(remote_decision(alloc, grounds, address)?)),
        _ => Ok(None),
    }
}
