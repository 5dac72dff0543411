//! Routes of destinations whose hosts are looked up once.
use crate::routes::leads_to_hub;
use crate::sought::{Sought, tell_sought};
use growth_answers::{Answer, Seen, Teller, Unready, lent_mut, twice};
use relay_routes::{RouteFinder, Router, Transport};
use std::alloc::Global;

const HUB: &[u8] = b"HUB.a-department-with-a-long-name.example.com:2525";

fn goes_to_hub(alloc: Global, finder: &mut RouteFinder<'_>) -> Answer {
    leads_to_hub(finder.route_to(alloc, Transport::Relay, HUB))
}

fn begins(alloc: Global, router: &Router) -> Result<Answer, Unready> {
    match RouteFinder::new(alloc, router, 0) {
        Ok(finder) => lent_mut(finder, |finder| Ok(goes_to_hub(alloc, finder))),
        Err(_) => Ok(Answer::Refused),
    }
}

fn makes_a_finder(alloc: Global, sought: Sought<'_>) -> Result<Seen, Unready> {
    Ok(twice!(begins(alloc, sought.router)?))
}

fn finds_a_route(alloc: Global, sought: Sought<'_>) -> Result<Seen, Unready> {
    let finder = RouteFinder::new(alloc, sought.router, 0)?;
    lent_mut(finder, |finder| Ok(twice!(goes_to_hub(alloc, finder))))
}

fn goes_to_known_hub(alloc: Global, finder: &mut RouteFinder<'_>) -> Result<Seen, Unready> {
    let _ = finder.route_to(alloc, Transport::Relay, HUB)?;
    Ok(twice!(goes_to_hub(alloc, finder)))
}

/// The hub was found before, so its exchangers are there.
fn finds_a_route_again(alloc: Global, sought: Sought<'_>) -> Result<Seen, Unready> {
    let finder = RouteFinder::new(alloc, sought.router, 0)?;
    lent_mut(finder, |finder| goes_to_known_hub(alloc, finder))
}

pub(crate) fn tell<R: Print + AllocGlobal>(teller: &mut Teller<'_, R>) {
    tell_sought(teller, "RouteFinder::new", b"joe", makes_a_finder);
    tell_sought(teller, "RouteFinder::route_to", b"joe", finds_a_route);
    tell_sought(
        teller,
        "RouteFinder::route_to, a known host",
        b"joe",
        finds_a_route_again,
    );
}
