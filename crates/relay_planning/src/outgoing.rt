//! What the pairs that are reached lead to, by numbers.
//!
//! A node is looked at once, where the first pair with it comes: its route is found, or the line is added that tells why there is none.
//! From then on a number says what is known of it, so each further sender of an address costs no look-up.
use relay_delivery::{Delivery, Routed};
use relay_tables::Graph;

/// What is known of a node.
#[derive(Clone, Copy)]
pub enum Known {
    Unseen,
    /// No message goes there: it is no address, or one without a route.
    Unrouted,
    /// An address that has a route, by its number among the recipients.
    Recipient(u32),
}

/// Recipients, and under which senders they are reached.
#[derive(Drop)]
pub struct Outgoing<'a> {
    graph: &'a Graph,
    /// Each as often as nodes have it.
    pub recipients: Vec<Routed<'a>>,
    pub deliveries: Vec<Delivery>,
    /// By node.
    pub known: Vec<Known>,
}

ghost use Rattle.std.specs.Prelude.{◌≡◌, ◌≢◌, ◌⊎◌, ◌↔◌, ◌<◌, ◌≤◌, ◌+◌, ◌-◌, ◌^◌, ◌++◌, ◌∷◌, ℕ, List, [], Some, Ok, Err, All, Result, length, slice_get, IfOk, OnOk};
ghost use Rattle.relay_text.specs.Bytes.{has_text};
ghost use Rattle.relay_tables.specs.declared.node.Node as nodes;
ghost use Rattle.relay_routes.specs.declared.route.Route as routes;
ghost use Rattle.relay_routes.specs.declared.unrouted.Unrouted as causes;
ghost use Rattle.relay_routes.specs.declared.unrouted.Unrouted.TheVariants.{Memory};
ghost use Rattle.relay_destinations.specs.Ways.{Means, Keeps};
ghost use Rattle.relay_planning.specs.Delivery.{routing_of};
ghost use Rattle.relay_planning.specs.Findings.{Reports};
ghost use Rattle.relay_planning.specs.Report.{reason_of};
ghost use Rattle.relay_planning.specs.Routes.{IsThere, IsLineAt, IsRoutedAt, IsLineOfNode, IsLineOfPair, HaveLine, IsRecipientIfAny, AreKnown, AreOutgoing, StayKnown};
ghost use Rattle.relay_pairs.specs.declared.reached.Reached as reached;

use crate::findings::reason_for;
use crate::job_view::JobView;
use relay_destinations::{Destinations, Way};
use relay_pairs::Reached;
use relay_routes::Unrouted;
use relay_tables::Node;
use relay_text::Address;
use relay_wire::{Finding, FindingLines, KeptFindings, Reason};
use std::alloc::{AllocError, Global};

/// The reason that a plan gives for want of a route, with a copy of its text. `Err` where there is no memory for that.
fn copied_reason(alloc: Global, unrouted: &Unrouted) -> Result<Reason, AllocError>
    requires lasting { unrouted.now ≢ Memory }
    ensures { IfOk result (λ reason. reason_of unrouted.now ≡ Some reason) }
{
    match reason_for(unrouted.copy(alloc)?) {
        Some(reason) => Ok(reason),
        None => unreachable!(),
    }
}

/// Adds the line of an address that has no route, which few lack: it stands apart, so that the others' way stays short.
#[inline(never)]
fn add_unrouted<K: KeptFindings>(
    alloc: Global,
    unrouted: &Unrouted,
    address: &Address,
    lines: &mut FindingLines<K>,
) -> Result<(), AllocError>
    requires lasting { unrouted.now ≢ Memory }
    ensures lines { OnOk result (Reports lines.old lines.new (IsLineAt (Err unrouted.now) address.now)) }
{
    let reason = copied_reason(alloc, unrouted)?;
    let address = address.copy(alloc)?;
    lines.add(Finding::Unrouted(address, reason))
}

/// The recipient that an address is, by what was found for it. The line of an address without a route is added.
fn recipient_at<'a, K: KeptFindings>(
    alloc: Global,
    destinations: &Destinations<'a>,
    way: Way,
    address: &'a Address,
    lines: &mut FindingLines<K>,
) -> Result<Option<Routed<'a>>, AllocError>
    requires there { IsThere destinations.now way }
    ensures recipient { IfOk result (λ r. (answer : Result routes.Route causes.Unrouted) → Means destinations.now way answer → IsRoutedAt destinations.now.routes answer address.now r) }
    ensures lines { OnOk result ((answer : Result routes.Route causes.Unrouted) → Means destinations.now way answer → Reports lines.old lines.new (IsLineAt answer address.now)) }
{
    match way {
        Way::To(route) => Ok(Some(Routed { route, address })),
        Way::Nowhere(number) => {
            let reason = &destinations.reasons()[number as usize];
            add_unrouted(alloc, reason, address, lines)?;
            Ok(None)
        }
    }
}

/// The recipient that a node is: `None` where it is no address, or one without a route, of which the line is added. `Err` where memory
/// runs out; what was found before is kept then too.
#[inline(always)]
pub fn recipient_of<'a, K: KeptFindings>(
    alloc: Global,
    job: &JobView<'_>,
    node: &'a Node,
    destinations: &mut Destinations<'a>,
    lines: &mut FindingLines<K>,
) -> Result<Option<Routed<'a>>, AllocError>
    requires routing { destinations.old.routing ≡ routing_of job.now }
    requires via { destinations.old.via ≡ job.now.settings.mailbox_transport }
    ensures recipient { IfOk result (IsRecipientIfAny job.now destinations.new.routes node.now) }
    ensures lines { OnOk result (Reports lines.old lines.new (IsLineOfNode job.now node.now)) }
    ensures kept { Keeps destinations.old destinations.new }
{
    let _ = job;
    match node {
        Node::Mailbox(address) => {
            let way = destinations.find_mailbox(alloc, address)?;
            recipient_at(alloc, destinations, way, address, lines)
        }
        Node::Remote(address) => {
            let way = destinations.find(alloc, address)?;
            recipient_at(alloc, destinations, way, address, lines)
        }
        Node::Alias(_)
        | Node::Include(_)
        | Node::Missing(_)
        | Node::NoInclude(_)
        | Node::Command(_)
        | Node::File(_) => Ok(None),
    }
}

impl<'a> Outgoing<'a> {
    /// Nothing yet, with room for a delivery of each of so many pairs, and for as many recipients as they may have.
    fn new(alloc: Global, graph: &'a Graph, pairs: usize) -> Result<Outgoing<'a>, AllocError>
        ensures graph { IfOk result (λ outgoing. outgoing.graph.now ≡ graph.now) }
        ensures empty { IfOk result (λ outgoing. (outgoing.recipients.items ≡ []) × (outgoing.deliveries.items ≡ [])) }
        ensures unseen { IfOk result (λ outgoing. (length outgoing.known.items ≡ length graph.now.nodes) × All (λ k. k ≡ Known.Unseen) outgoing.known.items) }
    {
        let deliveries = Vec::with_capacity(alloc, pairs)?;
        let known = vec![in alloc; Known::Unseen; graph.nodes()]?;
        Ok(Outgoing {
            graph,
            recipients: Vec::with_capacity(alloc, pairs.min(graph.nodes()))?,
            deliveries,
            known,
        })
    }

    /// Finds out what a node is that wasn't seen yet.
    fn settle<K: KeptFindings>(
        &mut self,
        alloc: Global,
        job: &JobView<'_>,
        node: u32,
        destinations: &mut Destinations<'a>,
        lines: &mut FindingLines<K>,
    ) -> Result<Known, AllocError>
        requires node { node < length self.old.graph.now.nodes }
        requires routing { destinations.old.routing ≡ routing_of job.now }
        requires via { destinations.old.via ≡ job.now.settings.mailbox_transport }
        requires few { length self.old.recipients.items < 2 ^ 32 }
        requires known { AreKnown job.now self.old.graph.now destinations.old.routes self.old.recipients.items self.old.known.items lines.old }
        requires unseen { slice_get self.old.known.items node ≡ Some Known.Unseen }
        ensures known { OnOk result (AreKnown job.now self.new.graph.now destinations.new.routes self.new.recipients.items self.new.known.items lines.new) }
        ensures there { IfOk result (λ k. slice_get self.new.known.items node ≡ Some k) }
        ensures seen { IfOk result (λ k. k ≡ Known.Unseen → ⊥) }
        ensures stay { OnOk result (StayKnown self.old.known.items self.new.known.items) }
        ensures lines { OnOk result (Reports lines.old lines.new (λ q. IsLineOfPair job.now self.old.graph.now q (record { sender = 0; node = node }))) }
        ensures few { OnOk result (length self.new.recipients.items ≤ length self.old.recipients.items + 1) }
        ensures kept { OnOk result (Keeps destinations.old destinations.new) }
        ensures same { (self.new.graph.now ≡ self.old.graph.now) × (self.new.deliveries.items ≡ self.old.deliveries.items) }
    {
        let at = self.graph.node(node);
        let recipient = recipient_of(alloc, job, at, destinations, lines)?;
        let known = match recipient {
            Some(routed) => {
                let number = self.recipients.len() as u32;
                self.recipients.push(routed)?;
                Known::Recipient(number)
            }
            None => Known::Unrouted,
        };
        self.known[node as usize] = known;
        Ok(known)
    }

    /// What a node is, which is found out where it wasn't seen yet.
    fn know<K: KeptFindings>(
        &mut self,
        alloc: Global,
        job: &JobView<'_>,
        node: u32,
        destinations: &mut Destinations<'a>,
        lines: &mut FindingLines<K>,
    ) -> Result<Known, AllocError>
        requires node { node < length self.old.graph.now.nodes }
        requires routing { destinations.old.routing ≡ routing_of job.now }
        requires via { destinations.old.via ≡ job.now.settings.mailbox_transport }
        requires few { length self.old.recipients.items < 2 ^ 32 }
        requires known { AreKnown job.now self.old.graph.now destinations.old.routes self.old.recipients.items self.old.known.items lines.old }
        ensures known { OnOk result (AreKnown job.now self.new.graph.now destinations.new.routes self.new.recipients.items self.new.known.items lines.new) }
        ensures there { IfOk result (λ k. slice_get self.new.known.items node ≡ Some k) }
        ensures seen { IfOk result (λ k. k ≡ Known.Unseen → ⊥) }
        ensures stay { OnOk result (StayKnown self.old.known.items self.new.known.items) }
        ensures lines { OnOk result (Reports lines.old lines.new (λ q. IsLineOfPair job.now self.old.graph.now q (record { sender = 0; node = node }))) }
        ensures few { OnOk result (length self.new.recipients.items ≤ length self.old.recipients.items + 1) }
        ensures kept { OnOk result (Keeps destinations.old destinations.new) }
        ensures same { (self.new.graph.now ≡ self.old.graph.now) × (self.new.deliveries.items ≡ self.old.deliveries.items) }
    {
        match self.known[node as usize] {
            Known::Unseen => self.settle(alloc, job, node, destinations, lines),
            known => Ok(known),
        }
    }

    /// Adds what a pair leads to.
    fn add<K: KeptFindings>(
        &mut self,
        alloc: Global,
        job: &JobView<'_>,
        pair: Reached,
        destinations: &mut Destinations<'a>,
        lines: &mut FindingLines<K>,
    ) -> Result<(), AllocError>
        requires node { pair.node < length self.old.graph.now.nodes }
        requires routing { destinations.old.routing ≡ routing_of job.now }
        requires via { destinations.old.via ≡ job.now.settings.mailbox_transport }
        requires few { length self.old.recipients.items < 2 ^ 32 }
        requires known { AreKnown job.now self.old.graph.now destinations.old.routes self.old.recipients.items self.old.known.items lines.old }
        ensures known { OnOk result (AreKnown job.now self.new.graph.now destinations.new.routes self.new.recipients.items self.new.known.items lines.new) }
        ensures outgoing { OnOk result ((pairs : List reached.Reached) → AreOutgoing job.now self.old.graph.now pairs self.old.known.items self.old.deliveries.items → AreOutgoing job.now self.old.graph.now (pairs ++ pair ∷ []) self.new.known.items self.new.deliveries.items) }
        ensures lines { OnOk result (Reports lines.old lines.new (λ q. IsLineOfPair job.now self.old.graph.now q pair)) }
        ensures few_recipients { OnOk result (length self.new.recipients.items ≤ length self.old.recipients.items + 1) }
        ensures few_deliveries { OnOk result (length self.new.deliveries.items ≤ length self.old.deliveries.items + 1) }
        ensures kept { OnOk result (Keeps destinations.old destinations.new) }
        ensures same { self.new.graph.now ≡ self.old.graph.now }
    {
        if let Known::Recipient(recipient) = self.know(
            alloc,
            job,
            pair.node,
            destinations,
            lines,
        )? {
            let sender = pair.sender;
            self.deliveries.push(Delivery { sender, recipient })?;
        }
        Ok(())
    }

    /// Adds what pairs lead to, where nothing was added yet.
    fn add_all<K: KeptFindings>(
        &mut self,
        alloc: Global,
        job: &JobView<'_>,
        pairs: &[Reached],
        destinations: &mut Destinations<'a>,
        lines: &mut FindingLines<K>,
    ) -> Result<(), AllocError>
        requires in_graph { All (λ p. p.node < length self.old.graph.now.nodes) pairs.now }
        requires few { length pairs.now ≤ 16777216 }
        requires routing { destinations.old.routing ≡ routing_of job.now }
        requires via { destinations.old.via ≡ job.now.settings.mailbox_transport }
        requires empty { (self.old.recipients.items ≡ []) × (self.old.deliveries.items ≡ []) }
        requires known { AreKnown job.now self.old.graph.now destinations.old.routes self.old.recipients.items self.old.known.items lines.old }
        requires outgoing { AreOutgoing job.now self.old.graph.now [] self.old.known.items self.old.deliveries.items }
        ensures known { OnOk result (AreKnown job.now self.old.graph.now destinations.new.routes self.new.recipients.items self.new.known.items lines.new) }
        ensures outgoing { OnOk result (AreOutgoing job.now self.old.graph.now pairs.now self.new.known.items self.new.deliveries.items) }
        ensures lines { OnOk result (Reports lines.old lines.new (HaveLine job.now self.old.graph.now pairs.now)) }
        ensures few { OnOk result (length self.new.deliveries.items ≤ length pairs.now) }
    {
        for pair in pairs {
            self.add(alloc, job, *pair, destinations, lines)?;
        }
        Ok(())
    }
}

/// What the pairs lead to. The lines of the addresses that have no route are added to those that are reported already.
pub(crate) fn outgoing_of<'a, K: KeptFindings>(
    alloc: Global,
    job: &JobView<'_>,
    graph: &'a Graph,
    destinations: &mut Destinations<'a>,
    pairs: &[Reached],
    lines: &mut FindingLines<K>,
) -> Result<Outgoing<'a>, AllocError>
    requires routing { destinations.old.routing ≡ routing_of job.now }
    requires via { destinations.old.via ≡ job.now.settings.mailbox_transport }
    requires in_graph { All (λ p. p.node < length graph.now.nodes) pairs.now }
    requires few { length pairs.now ≤ 16777216 }
    ensures known { IfOk result (λ outgoing. AreKnown job.now graph.now destinations.new.routes outgoing.recipients.items outgoing.known.items lines.new) }
    ensures outgoing { IfOk result (λ outgoing. AreOutgoing job.now graph.now pairs.now outgoing.known.items outgoing.deliveries.items) }
    ensures lines { OnOk result (Reports lines.old lines.new (HaveLine job.now graph.now pairs.now)) }
    ensures few { IfOk result (λ outgoing. length outgoing.deliveries.items ≤ length pairs.now) }
{
    let mut outgoing = Outgoing::new(alloc, graph, pairs.len())?;
    outgoing.add_all(alloc, job, pairs, destinations, lines)?;
    Ok(outgoing)
}
