//! The transactions of the addresses that are reached.
ghost use Rattle.std.specs.Prelude.{◌≡◌, ◌↔◌, ◌<◌, ◌≤◌, length, IfOk, OnOk};
ghost use Rattle.relay_text.specs.AddressParts.{AddressParts};
ghost use Rattle.relay_routes.specs.declared.route.Route as ways;
ghost use Rattle.relay_routes.specs.declared.transport.Transport as names;
ghost use Rattle.relay_job.specs.Settings.{limit_of};
ghost use Rattle.relay_delivery.specs.Groups.{limit_at, Sender};
ghost use Rattle.relay_delivery.specs.Placings.{senders_of, AreApart, AreInRange, IsPlacedBy};
ghost use Rattle.relay_planning.specs.Delivery.{routing_of, IsJobPart, IsPlaced};
ghost use Rattle.relay_planning.specs.Findings.{Reports};
ghost use Rattle.relay_planning.specs.Plans.{AreTransactionsOf, IsFewest, IsSoundFor};
ghost use Rattle.relay_planning.specs.Reaching.{AreReachedPairs};
ghost use Rattle.relay_planning.specs.Report.{routes, IsLineOf};

use crate::job_view::JobView;
use crate::outgoing::{Outgoing, outgoing_of};
use relay_delivery::{BatchLimits, Delivery, Routed, transactions};
use relay_destinations::Destinations;
use relay_job::Settings;
use relay_pairs::Reached;
use relay_routes::Route;
use relay_sharing::Crew;
use relay_tables::Graph;
use relay_text::Address;
use relay_wire::{FindingLines, KeptFindings, Planned};
use std::alloc::{AllocError, Global};
use std::thread::Threads;

/// How many recipients a transaction of each transport takes.
fn limits_of(settings: &Settings) -> BatchLimits
    ensures { (t : names.Transport) → limit_at result t ≡ limit_of settings.now t }
{
    BatchLimits {
        lmtp: settings.lmtp_limit,
        relay: settings.relay_limit,
        smtp: settings.smtp_limit,
    }
}

/// The senders by their numbers.
fn senders_of<'a>(alloc: Global, graph: &'a Graph) -> Result<Vec<Option<&'a Address>>, AllocError>
    ensures { IfOk result (λ senders. senders_of senders.items ≡ graph.now.senders) }
{
    // For what the call says alone: senders have numbers.
    let _ = graph.nodes();
    let mut senders = Vec::with_capacity(alloc, graph.senders())?;
    for number in 0..graph.senders() {
        senders.push(graph.sender(number as u32))?;
    }
    Ok(senders)
}

/// The transactions of these deliveries, which place what the job places.
fn transactions_of<'a, R: Threads + Sync>(
    crew: &Crew<'_, R>,
    job: &JobView<'_>,
    graph: &'a Graph,
    routes: &'a [Route],
    recipients: &[Routed<'a>],
    deliveries: Vec<Delivery>,
) -> Result<Vec<Planned>, AllocError>
    requires apart { AreApart graph.now.senders routes.now }
    requires range { AreInRange graph.now.senders routes.now recipients.now deliveries.items }
    requires few { length deliveries.items ≤ 16777216 }
    requires placed { (s : Sender) (r : ways.Route) (a : AddressParts) → IsPlacedBy graph.now.senders routes.now recipients.now deliveries.items s r a ↔ IsPlaced job.now s r a }
    ensures transactions { IfOk result (λ transactions. AreTransactionsOf job.now transactions.items) }
    ensures sound { IfOk result (λ transactions. IsSoundFor job.now transactions.items) }
    ensures fewest { IfOk result (λ transactions. IsFewest job.now transactions.items) }
{
    let senders = senders_of(crew.alloc, graph)?;
    transactions(
        crew,
        senders.as_slice(),
        routes,
        recipients,
        deliveries,
        limits_of(job.settings()),
    )
}

/// The transactions of all addresses that are reached, each once under each of its senders, and a line for each address that has no
/// route.
pub(crate) fn plan_addresses<'a, R: Threads + Sync, K: KeptFindings>(
    crew: &Crew<'_, R>,
    job: &JobView<'_>,
    mut destinations: Destinations<'a>,
    graph: &'a Graph,
    pairs: &[Reached],
    lines: &mut FindingLines<K>,
) -> Result<Vec<Planned>, AllocError>
    requires routing { destinations.routing ≡ routing_of job.now }
    requires via { destinations.via ≡ job.now.settings.mailbox_transport }
    requires graph { IsJobPart job.now graph.now }
    requires pairs { AreReachedPairs job.now graph.now pairs.now }
    requires few { length pairs.now ≤ 16777216 }
    ensures transactions { IfOk result (λ transactions. AreTransactionsOf job.now transactions.items) }
    ensures sound { IfOk result (λ transactions. IsSoundFor job.now transactions.items) }
    ensures fewest { IfOk result (λ transactions. IsFewest job.now transactions.items) }
    ensures lines { OnOk result (Reports lines.old lines.new (IsLineOf job.now routes)) }
{
    let outgoing = outgoing_of(crew.alloc, job, graph, &mut destinations, pairs, lines)?;
    let Outgoing {
        recipients,
        deliveries,
        known,
        ..
    } = outgoing;
    // Its room is given back before the transactions need theirs.
    drop(known);
    transactions_of(
        crew,
        job,
        graph,
        destinations.routes(),
        recipients.as_slice(),
        deliveries,
    )
}
