//! The transactions of what goes out.
use growth_answers::inputs::{address, is_address};
use growth_answers::{Answer, Teller, Unready, call, judged, lent};
use relay_delivery::{BatchLimits, Delivery, Routed, transactions};
use relay_routes::{Hosts, Route, Transport};
use relay_sharing::Crew;
use relay_text::{Address, Text};
use relay_wire::Planned;
use std::alloc::{AllocError, Global};
use std::slice;
use std::thread::Threads;

const LIMITS: BatchLimits = BatchLimits {
    lmtp: 1,
    relay: 50,
    smtp: 50,
};

/// Under the second sender, the null sender, the first recipient goes out, who stands there again as the third, and the second; under
/// the first sender the first alone.
const STOPS: [Delivery; 4] = [
    Delivery {
        sender: 0,
        recipient: 0,
    },
    Delivery {
        sender: 1,
        recipient: 0,
    },
    Delivery {
        sender: 1,
        recipient: 1,
    },
    Delivery {
        sender: 1,
        recipient: 2,
    },
];

fn route(alloc: Global) -> Result<Route, AllocError> {
    let host = Text::copy_of(alloc, b"unix:mbox")?;
    let hosts = Hosts::one(alloc, host)?;
    let nexthop = Text::copy_of(alloc, b"unix:mbox")?;
    Ok(Route {
        transport: Transport::Lmtp,
        nexthop,
        hosts,
    })
}

/// Whether a transaction is by the route to one recipient, from the null sender or not.
fn is_planned(planned: &Planned, from_null: bool, to: &Address) -> bool {
    planned.transport == Transport::Lmtp
        && planned.nexthop.as_bytes() == b"unix:mbox".as_slice()
        && planned.from.is_none() == from_null
        && matches!(planned.to.as_slice(), [only] if is_address(only, to.local(), to.domain()))
}

/// Whether the null sender has a transaction for each of two recipients, and another sender one for the later.
fn are_planned(planned: &[Planned], first: &Address, last: &Address) -> bool {
    match planned {
        [to_first, to_last, from_other] => {
            is_planned(to_first, true, first)
                && is_planned(to_last, true, last)
                && is_planned(from_other, false, last)
        }
        _ => false,
    }
}

/// The sender who isn't the null sender, and two recipients.
const MESSAGE: [&[u8]; 3] = [
    b"list-owner@example.net",
    b"ann@a-department-with-a-long-name.example.net",
    b"joe@a-department-with-a-long-name.example.net",
];

fn message(alloc: Global) -> Result<Vec<Address>, Unready> {
    let mut addresses = Vec::new(alloc);
    for text in MESSAGE {
        addresses.push(address(alloc, text)?)?;
    }
    Ok(addresses)
}

/// What is answered where the first two recipients and the third, who is the first again, go by the route.
fn answered<R: Threads + Sync>(
    crew: &Crew<'_, R>,
    message: &[Address],
    route: &Route,
) -> Result<Answer, Unready> {
    let [sender, first, last] = message else {
        return Err(Unready::Wrong);
    };
    let deliveries = Vec::from_array(crew.alloc, STOPS)?;
    let routes = slice::from_ref(route);
    let to_first = Routed {
        route: 0,
        address: first,
    };
    let to_last = Routed {
        route: 0,
        address: last,
    };
    let recipients = [to_last, to_first, to_last];
    let senders = [Some(sender), None];
    match transactions(crew, &senders, routes, &recipients, deliveries, LIMITS) {
        Ok(planned) => Ok(judged(planned, |planned| are_planned(planned, first, last))),
        Err(_) => Ok(Answer::Refused),
    }
}

fn answered_by_route<R: Threads + Sync>(
    crew: &Crew<'_, R>,
    message: &[Address],
) -> Result<Answer, Unready> {
    let route = route(crew.alloc)?;
    lent(route, |route| answered(crew, message, route))
}

fn makes_transactions<R: Threads + Sync>(crew: &Crew<'_, R>) -> Result<Answer, Unready> {
    let message = message(crew.alloc)?;
    lent(message, |message| answered_by_route(crew, message))
}

pub(crate) fn tell<R: Print + AllocGlobal + Threads + Sync>(teller: &mut Teller<'_, R>) {
    let crew = Crew {
        rt: teller.rt,
        alloc: teller.rt.alloc(),
        workers: 2,
    };
    call!(teller, "transactions", makes_transactions(&crew));
}
