//! Which transport, nexthop and hosts an address goes to.
use crate::sought::{Sought, tell_sought};
use growth_answers::inputs::{address, are_texts};
use growth_answers::{Answer, Seen, Teller, Unready, call, case, judged, lent, twice};
use relay_routes::{
    Choice, Destination, FaultKind, Hosts, LineFault, MxTable, Route, RouteSettings, Router,
    Transport, TransportTable, Unrouted, Via,
};
use relay_text::{Address, Seq, Text};
use std::alloc::{AllocError, Global};
use std::thread::Threads;

const HUB_NAME: &[u8] = b"hub.a-department-with-a-long-name.example.com";

pub(crate) const HUB: &[u8] = b"hub.a-department-with-a-long-name.example.com:2525";

/// With the pattern of an address, since a table that has none looks for no address.
const TRANSPORTS: &[u8] =
    b"example.net smtp:[gw.example.com]\n.example.net relay:hub.a-department-with-a-long-name.example.com:2525\npostmaster@example.net lmtp:\n";

/// Long enough for room to be taken ahead of its lines.
const FAULTY_TRANSPORTS: &[u8] = b"  orphan\n* smtp\n* relay:\nexample.net smtp:[gw.example.com]\n\
    # A table with as many bytes as this one has room for an entry before its first line is read.\n";

const EXCHANGES: &[u8] = b"hub.a-department-with-a-long-name.example.com A\n";

const PREFERENCES: &[u8] =
    b"example.net MX 20 c.example.net\nexample.net MX 10 a.example.net\nexample.net MX\nexample.net MX 20 b.example.net\nexample.net MX 20 c.example.net\n";

const fn fault(line: usize, kind: FaultKind) -> LineFault {
    LineFault { line, kind }
}

fn is_text(text: &Text, wanted: &[u8]) -> bool {
    text.as_bytes() == wanted
}

fn is_via(via: &Via) -> bool {
    via.transport == Transport::Lmtp
        && via.nexthop.as_ref().is_some_and(|nexthop| is_text(
            nexthop,
            b"unix:/a/path/that/does/not/lie/in/the/value/itself",
        ))
}

fn reads_a_setting(alloc: Global) -> Result<Answer, Unready> {
    match Via::parse(
        alloc,
        b"lmtp:unix:/a/path/that/does/not/lie/in/the/value/itself",
    ) {
        Ok(Some(via)) => Ok(Answer::given(is_via(&via))),
        Ok(None) => Ok(Answer::Wrong),
        Err(_) => Ok(Answer::Refused),
    }
}

/// Whether a table says that the mail of an address goes by SMTP to `[gw.example.com]`.
fn finds_gateway(table: &TransportTable, alloc: Global, address: &Address) -> Answer {
    match table.find(alloc, address, Some(b'+')) {
        Ok(
            Choice::Via {
                transport: Some(Transport::Smtp),
                nexthop: Some(nexthop),
            },
        ) => Answer::given(is_text(&nexthop, b"[gw.example.com]")),
        Ok(_) => Answer::Wrong,
        Err(_) => Answer::Refused,
    }
}

/// The same of a table with two faults.
fn finds_gateway_despite_faults(
    table: &TransportTable,
    alloc: Global,
    address: &Address,
) -> Answer {
    let faults = [fault(1, FaultKind::BadLine), fault(3, FaultKind::Duplicate)];
    if table.faults() == faults.as_slice() {
        finds_gateway(table, alloc, address)
    } else {
        Answer::Wrong
    }
}

fn reads_transports(alloc: Global) -> Result<Answer, Unready> {
    let address = address(alloc, b"u@example.net")?;
    match TransportTable::parse(alloc, 0, FAULTY_TRANSPORTS) {
        Ok(table) => lent(table, |table| {
            Ok(finds_gateway_despite_faults(table, alloc, &address))
        }),
        Err(_) => Ok(Answer::Refused),
    }
}

fn reads_transports_by<R: Threads + Sync>(rt: &R, alloc: Global) -> Result<Answer, Unready> {
    let address = address(alloc, b"u@example.net")?;
    match TransportTable::parse_by(rt, alloc, 0, 2, FAULTY_TRANSPORTS) {
        Ok(table) => lent(table, |table| {
            Ok(finds_gateway_despite_faults(table, alloc, &address))
        }),
        Err(_) => Ok(Answer::Refused),
    }
}

fn finds_a_transport(alloc: Global) -> Result<Seen, Unready> {
    let address = address(alloc, b"u+x@example.net")?;
    let table = TransportTable::parse(alloc, 0, TRANSPORTS)?;
    lent(
        table,
        |table| Ok(twice!(finds_gateway(table, alloc, &address))),
    )
}

/// Whether the hosts of a domain are these.
fn finds_hosts(
    table: &MxTable,
    alloc: Global,
    domain: &[u8],
    own_names: &[Text],
    wanted: &[&[u8]],
) -> Answer {
    match table.hosts(alloc, domain, own_names, 0) {
        Ok(hosts) => judged(hosts, |hosts| are_texts(hosts.as_slice(), wanted)),
        Err(Unrouted::Memory) => Answer::Refused,
        Err(_) => Answer::Wrong,
    }
}

pub(crate) fn own_names(alloc: Global) -> Result<Vec<Text>, AllocError> {
    let mut names = Vec::new(alloc);
    names.push(Text::copy_of(alloc, b"relay.example.org")?)?;
    Ok(names)
}

const IN_ORDER: [&[u8]; 3] = [b"a.example.net", b"c.example.net", b"b.example.net"];

/// Whether the hosts are in order, of a table with one fault.
fn finds_hosts_despite_fault(table: &MxTable, alloc: Global, own_names: &[Text]) -> Answer {
    if table.faults() == [fault(3, FaultKind::BadLine)].as_slice() {
        finds_hosts(table, alloc, b"example.net", own_names, &IN_ORDER)
    } else {
        Answer::Wrong
    }
}

fn reads_exchangers(alloc: Global) -> Result<Answer, Unready> {
    let names = own_names(alloc)?;
    match MxTable::parse(alloc, 0, PREFERENCES) {
        Ok(table) => lent(table, |table| {
            Ok(finds_hosts_despite_fault(table, alloc, &names))
        }),
        Err(_) => Ok(Answer::Refused),
    }
}

fn reads_exchangers_by<R: Threads + Sync>(rt: &R, alloc: Global) -> Result<Answer, Unready> {
    let names = own_names(alloc)?;
    match MxTable::parse_by(rt, alloc, 0, 2, PREFERENCES) {
        Ok(table) => lent(table, |table| {
            Ok(finds_hosts_despite_fault(table, alloc, &names))
        }),
        Err(_) => Ok(Answer::Refused),
    }
}

fn finds_exchangers(
    alloc: Global,
    exchanges: &[u8],
    domain: &[u8],
    wanted: &[&[u8]],
) -> Result<Seen, Unready> {
    let names = own_names(alloc)?;
    let table = MxTable::parse(alloc, 0, exchanges)?;
    lent(table, |table| {
        Ok(twice!({ finds_hosts(table, alloc, domain, &names, wanted) }))
    })
}

fn lists_one_host(alloc: Global) -> Result<Answer, Unready> {
    let host = Text::copy_of(alloc, b"h")?;
    match Hosts::one(alloc, host) {
        Ok(hosts) => Ok(judged(hosts, |hosts| are_texts(hosts.as_slice(), &[b"h"]))),
        Err(_) => Ok(Answer::Refused),
    }
}

fn settings(alloc: Global) -> Result<RouteSettings, AllocError> {
    let own_names = own_names(alloc)?;
    Ok(RouteSettings {
        own_names: Seq::of(own_names),
        delimiter: Some(b'+'),
        default_transport: Transport::Smtp,
        seed: 0,
    })
}

fn tables(alloc: Global) -> Result<(TransportTable, MxTable), AllocError> {
    let transports = TransportTable::parse(alloc, 0, TRANSPORTS)?;
    let exchanges = MxTable::parse(alloc, 0, EXCHANGES)?;
    Ok((transports, exchanges))
}

/// What making a router over the two tables answers.
fn routed(alloc: Global) -> Result<Result<Router, AllocError>, Unready> {
    let settings = settings(alloc)?;
    let (transports, exchanges) = tables(alloc)?;
    Ok(Router::new(alloc, settings, transports, exchanges))
}

pub(crate) fn router(alloc: Global) -> Result<Router, Unready> {
    let router = routed(alloc)??;
    Ok(router)
}

/// How mailboxes are reached: by LMTP at a socket.
pub(crate) fn mailbox_transport(alloc: Global) -> Result<Via, Unready> {
    Via::parse(alloc, b"lmtp:unix:mbox")?.ok_or(Unready::Wrong)
}

/// Whether a route goes to this nexthop, which has one host.
fn leads(
    route: Result<Route, Unrouted>,
    transport: Transport,
    nexthop: &[u8],
    host: &[u8],
) -> Answer {
    match route {
        Ok(route) => judged(route, |route| {
            route.transport == transport
                && is_text(&route.nexthop, nexthop)
                && are_texts(route.hosts.as_slice(), &[host])
        }),
        Err(Unrouted::Memory) => Answer::Refused,
        Err(_) => Answer::Wrong,
    }
}

pub(crate) fn leads_to_hub(route: Result<Route, Unrouted>) -> Answer {
    leads(route, Transport::Relay, HUB, HUB)
}

fn goes_to_gateway(alloc: Global, router: &Router, address: &Address) -> Answer {
    leads(
        router.route(alloc, address),
        Transport::Smtp,
        b"[gw.example.com]",
        b"gw.example.com",
    )
}

fn router_is_made(alloc: Global, address: &Address) -> Result<Answer, Unready> {
    match routed(alloc)? {
        Ok(router) => lent(router, |router| Ok(goes_to_gateway(alloc, router, address))),
        Err(_) => Ok(Answer::Refused),
    }
}

fn makes_a_router(alloc: Global) -> Result<Answer, Unready> {
    let address = address(alloc, b"u@example.net")?;
    router_is_made(alloc, &address)
}

fn routes_to_a_host(alloc: Global, sought: Sought<'_>) -> Result<Seen, Unready> {
    Ok(twice!(goes_to_gateway(alloc, sought.router, sought.address)))
}

fn routes_to_exchangers(alloc: Global, sought: Sought<'_>) -> Result<Seen, Unready> {
    Ok(twice!({ leads_to_hub(sought.router.route(alloc, sought.address)) }))
}

fn routes_to_a_nexthop(alloc: Global, sought: Sought<'_>) -> Result<Seen, Unready> {
    Ok(twice!({
        leads_to_hub(
            sought.router.route_to(
                alloc,
                Transport::Relay,
                b"HUB.a-department-with-a-long-name.example.com:2525",
            )
        )
    }))
}

fn routes_a_mailbox(alloc: Global, sought: Sought<'_>) -> Result<Seen, Unready> {
    Ok(twice!({
        leads(
            sought.router.route_via(alloc, sought.via, sought.address),
            Transport::Lmtp,
            b"unix:mbox",
            b"unix:mbox",
        )
    }))
}

/// Whether a destination is this one.
fn is_destination(
    found: Result<Destination, Unrouted>,
    transport: Transport,
    nexthop: &[u8],
) -> Answer {
    match found {
        Ok(found) => judged(found, |found| {
            found.transport == transport && is_text(&found.nexthop, nexthop)
        }),
        Err(Unrouted::Memory) => Answer::Refused,
        Err(_) => Answer::Wrong,
    }
}

fn finds_a_destination(alloc: Global, sought: Sought<'_>) -> Result<Seen, Unready> {
    Ok(twice!({
        is_destination(
            sought.router.destination(alloc, sought.address),
            Transport::Relay,
            HUB,
        )
    }))
}

fn finds_a_mailboxs_destination(alloc: Global, sought: Sought<'_>) -> Result<Seen, Unready> {
    Ok(twice!({
        is_destination(
            sought
                .router
                .destination_via(alloc, sought.via, sought.address),
            Transport::Lmtp,
            b"unix:mbox",
        )
    }))
}

/// Whether the name that a hub's exchangers are looked up by is the hub's.
fn is_looked_up(alloc: Global, to: &Destination) -> Answer {
    match to.looked_up_name(alloc) {
        Ok(Some(name)) => judged(name, |name| {
            is_text(
                name,
                b"hub.a-department-with-an-even-longer-name.example.com",
            )
        }),
        Ok(None) => Answer::Wrong,
        Err(_) => Answer::Refused,
    }
}

fn finds_a_looked_up_name(alloc: Global) -> Result<Seen, Unready> {
    let to = Destination {
        transport: Transport::Relay,
        nexthop: Text::copy_of(
            alloc,
            b"hub.a-department-with-an-even-longer-name.example.com:2525",
        )?,
    };
    lent(to, |to| Ok(twice!(is_looked_up(alloc, to))))
}

fn tell_of_transports<R: Print + AllocGlobal + Threads + Sync>(teller: &mut Teller<'_, R>) {
    let rt = teller.rt;
    let alloc = rt.alloc();
    call!(teller, "Via::parse", reads_a_setting(alloc));
    call!(teller, "TransportTable::parse", reads_transports(alloc));
    call!(
        teller,
        "TransportTable::parse_by",
        reads_transports_by(rt, alloc)
    );
    case!(teller, "TransportTable::find", finds_a_transport(alloc));
}

fn tell_of_exchangers<R: Print + AllocGlobal + Threads + Sync>(teller: &mut Teller<'_, R>) {
    let rt = teller.rt;
    let alloc = rt.alloc();
    call!(teller, "MxTable::parse", reads_exchangers(alloc));
    call!(teller, "MxTable::parse_by", reads_exchangers_by(rt, alloc));
    case!(
        teller,
        "MxTable::hosts",
        finds_exchangers(alloc, PREFERENCES, b"example.net", &IN_ORDER)
    );
    case!(
        teller,
        "MxTable::hosts, an address",
        finds_exchangers(alloc, EXCHANGES, HUB_NAME, &[HUB_NAME])
    );
}

fn tell_of_routers<R: Print + AllocGlobal>(teller: &mut Teller<'_, R>) {
    let alloc = teller.rt.alloc();
    call!(teller, "Hosts::one", lists_one_host(alloc));
    call!(teller, "Router::new", makes_a_router(alloc));
}

fn tell_of_routes<R: Print + AllocGlobal>(teller: &mut Teller<'_, R>) {
    tell_sought(teller, "Router::route", b"u@example.net", routes_to_a_host);
    tell_sought(
        teller,
        "Router::route, exchangers",
        b"u@a.b.example.net",
        routes_to_exchangers,
    );
    tell_sought(teller, "Router::route_to", b"joe", routes_to_a_nexthop);
    tell_sought(teller, "Router::route_via", b"joe", routes_a_mailbox);
    tell_sought(
        teller,
        "Router::destination",
        b"u@a.b.example.net",
        finds_a_destination,
    );
    tell_sought(
        teller,
        "Router::destination_via",
        b"joe",
        finds_a_mailboxs_destination,
    );
}

pub(crate) fn tell<R: Print + AllocGlobal + Threads + Sync>(teller: &mut Teller<'_, R>) {
    tell_of_transports(teller);
    tell_of_exchangers(teller);
    tell_of_routers(teller);
    tell_of_routes(teller);
    let alloc = teller.rt.alloc();
    case!(
        teller,
        "Destination::looked_up_name",
        finds_a_looked_up_name(alloc)
    );
}
