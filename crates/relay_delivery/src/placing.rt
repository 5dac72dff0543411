//! Senders, routes and recipients in the order of a plan.
ghost use Rattle.std.specs.Prelude.{◌↔◌, ◌≤◌, length, IfOk};
ghost use Rattle.relay_text.specs.AddressParts.{AddressParts};
ghost use Rattle.relay_routes.specs.declared.route.Route as parts;
ghost use Rattle.relay_delivery.specs.Groups.{Sender};
ghost use Rattle.relay_delivery.specs.Placings.{senders_of, routes_of, AreApart, AreInRange, IsInOrder, IsPlacedBy};

use crate::delivery::Delivery;
use crate::delivery_order::deliveries_in_order;
use crate::recipient_order::RecipientOrder;
use crate::route_order::RouteOrder;
use crate::routed::Routed;
use crate::sender_order::SenderOrder;
use relay_routes::Route;
use relay_sharing::Crew;
use relay_text::Address;
use std::alloc::AllocError;
use std::thread::Threads;

/// What goes out, numbered in the order of a plan.
#[derive(Drop)]
pub struct Placing<'a> {
    /// By the bytes of their written paths; the null sender is `None` (RFC 5321 section 4.5.5).
    pub senders: Vec<Option<&'a Address>>,
    /// By the names of their transports, and then by the bytes of their nexthops.
    pub routes: Vec<&'a Route>,
    /// By their routes, and then by the bytes of their written paths; each once.
    pub recipients: Vec<Routed<'a>>,
    /// By their senders, and then by their recipients; each once.
    pub deliveries: Vec<Delivery>,
}

impl<'a> Placing<'a> {
    /// `Err` where memory runs out, or where there are more senders, routes or recipients than numbers.
    pub(crate) fn of<R: Threads + Sync>(
        crew: &Crew<'_, R>,
        senders: &[Option<&'a Address>],
        routes: &'a [Route],
        recipients: &[Routed<'a>],
        deliveries: Vec<Delivery>,
    ) -> Result<Placing<'a>, AllocError>
        requires apart { AreApart (senders_of senders.now) routes.now }
        requires range { AreInRange (senders_of senders.now) routes.now recipients.now deliveries.items }
        ensures order { IfOk result (λ placing. IsInOrder (senders_of placing.senders.items) (routes_of placing.routes.items) placing.recipients.items placing.deliveries.items) }
        ensures placed { IfOk result (λ placing. (s : Sender) (r : parts.Route) (a : AddressParts) → IsPlacedBy (senders_of placing.senders.items) (routes_of placing.routes.items) placing.recipients.items placing.deliveries.items s r a ↔ IsPlacedBy (senders_of senders.now) routes.now recipients.now deliveries.items s r a) }
        ensures few { IfOk result (λ placing. length placing.deliveries.items ≤ length deliveries.items) }
    {
        let sender_order = SenderOrder::of(crew, senders)?;
        let route_order = RouteOrder::of(crew, routes)?;
        let route_places = route_order.place_of.as_slice();
        let recipient_order = RecipientOrder::of(crew, recipients, route_places)?;
        let deliveries = deliveries_in_order(
            crew,
            deliveries,
            sender_order.place_of.as_slice(),
            recipient_order.place_of.as_slice(),
            recipient_order.recipients.len(),
        )?;
        Ok(Placing {
            senders: sender_order.senders,
            routes: route_order.routes,
            recipients: recipient_order.recipients,
            deliveries,
        })
    }
}
