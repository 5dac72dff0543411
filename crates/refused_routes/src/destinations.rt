//! Routes of addresses, each looked up once.
use crate::routes::HUB;
use crate::sought::{Sought, tell_sought};
use growth_answers::{Answer, Seen, Teller, Unready, judged, lent_mut, twice};
use relay_destinations::{Destinations, Way};
use relay_routes::{Route, Transport, Unrouted};
use relay_text::Address;
use std::alloc::{AllocError, Global};

/// Whether a way leads to the route by this transport to this nexthop.
fn leads_to(
    way: &Result<Way, AllocError>,
    routes: &[Route],
    transport: Transport,
    nexthop: &[u8],
) -> Answer {
    match way {
        Ok(Way::To(number)) => match routes.get(*number as usize) {
            Some(route) => Answer::given(
                route.transport == transport && route.nexthop.as_bytes() == nexthop,
            ),
            None => Answer::Wrong,
        },
        Ok(Way::Nowhere(_)) => Answer::Wrong,
        Err(_) => Answer::Refused,
    }
}

/// Whether a way leads nowhere, since the domain isn't known.
fn leads_nowhere(way: &Result<Way, AllocError>, reasons: &[Unrouted]) -> Answer {
    match way {
        Ok(Way::Nowhere(number)) => Answer::given(matches!(
            reasons.get(*number as usize),
            Some(Unrouted::Domain)
        )),
        Ok(Way::To(_)) => Answer::Wrong,
        Err(_) => Answer::Refused,
    }
}

/// Whether nothing is found before an address is sought.
fn begins(alloc: Global, sought: Sought<'_>) -> Answer {
    match Destinations::new(alloc, sought.router, sought.via, 0) {
        Ok(found) => judged(found, |found| {
            found.routes().is_empty() && found.reasons().is_empty()
        }),
        Err(_) => Answer::Refused,
    }
}

fn makes_destinations(alloc: Global, sought: Sought<'_>) -> Result<Seen, Unready> {
    Ok(twice!(begins(alloc, sought)))
}

fn goes_to_hub(alloc: Global, address: &Address, found: &mut Destinations<'_>) -> Answer {
    let way = found.find(alloc, address);
    leads_to(&way, found.routes(), Transport::Relay, HUB)
}

fn finds_a_route(alloc: Global, sought: Sought<'_>) -> Result<Seen, Unready> {
    let found = Destinations::new(alloc, sought.router, sought.via, 0)?;
    lent_mut(found, |found| {
        Ok(twice!(goes_to_hub(alloc, sought.address, found)))
    })
}

fn goes_nowhere(alloc: Global, address: &Address, found: &mut Destinations<'_>) -> Answer {
    let way = found.find(alloc, address);
    leads_nowhere(&way, found.reasons())
}

fn finds_a_reason(alloc: Global, sought: Sought<'_>) -> Result<Seen, Unready> {
    let found = Destinations::new(alloc, sought.router, sought.via, 0)?;
    lent_mut(found, |found| {
        Ok(twice!(goes_nowhere(alloc, sought.address, found)))
    })
}

fn goes_to_socket(alloc: Global, address: &Address, found: &mut Destinations<'_>) -> Answer {
    let way = found.find_mailbox(alloc, address);
    leads_to(&way, found.routes(), Transport::Lmtp, b"unix:mbox")
}

fn finds_a_mailboxs_route(alloc: Global, sought: Sought<'_>) -> Result<Seen, Unready> {
    let found = Destinations::new(alloc, sought.router, sought.via, 0)?;
    lent_mut(found, |found| {
        Ok(twice!(goes_to_socket(alloc, sought.address, found)))
    })
}

pub(crate) fn tell<R: Print + AllocGlobal>(teller: &mut Teller<'_, R>) {
    tell_sought(teller, "Destinations::new", b"joe", makes_destinations);
    tell_sought(
        teller,
        "Destinations::find",
        b"u@a.b.example.net",
        finds_a_route,
    );
    tell_sought(
        teller,
        "Destinations::find, no route",
        b"u@a-domain-that-nobody-knows.example",
        finds_a_reason,
    );
    tell_sought(
        teller,
        "Destinations::find_mailbox",
        b"joe",
        finds_a_mailboxs_route,
    );
}
