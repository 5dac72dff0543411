//! Tables that are read, and routes that are found in them.
ghost use Rattle.std.specs.Prelude.{◌≡◌, ◌-◌};

use crate::texts::{addresses, patterns, records, records_of_one};
use crate::watch::{KEY, Watch};
use anyhow::Result;
use relay_routes::{MxTable, RouteSettings, Router, Transport, TransportTable};
use relay_text::{Address, Seq};
use std::alloc::Global;
use std::rt::Clock;

// How many lines are at no fault.
fn good_lines(count: u32, faults: usize) -> usize
    ensures { result ≡ count - faults }
{
    (count as usize).saturating_sub(faults)
}

fn read_transports<R: Clock + Print + AllocGlobal>(
    watch: &Watch<R>,
    text: &str,
) -> Result<TransportTable> {
    let start = watch.start()?;
    let table = TransportTable::parse(watch.rt.alloc(), KEY, text.as_bytes())?;
    let good = good_lines(watch.given.count, table.faults().len());
    watch.report_good("patterns read", good, start)?;
    Ok(table)
}

fn read_exchanges<R: Clock + Print + AllocGlobal>(
    watch: &Watch<R>,
    what: &str,
    text: &str,
) -> Result<MxTable> {
    let start = watch.start()?;
    let table = MxTable::parse(watch.rt.alloc(), KEY, text.as_bytes())?;
    let good = good_lines(watch.given.count, table.faults().len());
    watch.report_good(what, good, start)?;
    Ok(table)
}

fn settings(alloc: Global) -> RouteSettings {
    RouteSettings {
        own_names: Seq::of(Vec::new(alloc)),
        delimiter: Some(b'+'),
        default_transport: Transport::Smtp,
        seed: 1,
    }
}

// Whether an address has a destination.
fn has_destination(alloc: Global, router: &Router, address: &Address) -> bool {
    router.destination(alloc, address).is_ok()
}

// Whether an address has a route, by two hosts, or by one where its number is odd.
fn has_route(alloc: Global, router: &Router, address: &Address) -> bool {
    match router.route(alloc, address) {
        Ok(route) => !route.hosts.as_slice().is_empty(),
        Err(_) => false,
    }
}

fn look_up<R: Clock + Print + AllocGlobal>(
    watch: &Watch<R>,
    router: &Router,
    addresses: &[Address],
) -> Result<()> {
    let alloc = watch.rt.alloc();
    watch.time_calls("destinations found", |number| {
        let address = addresses.get(number as usize);
        Ok(address.is_some_and(|address| has_destination(alloc, router, address)))
    })?;
    watch.time_calls("routes found", |number| {
        let address = addresses.get(number as usize);
        Ok(address.is_some_and(|address| has_route(alloc, router, address)))
    })
}

// As many patterns, records and addresses.
fn time_router<R: Clock + Print + AllocGlobal>(watch: &Watch<R>) -> Result<()> {
    let alloc = watch.rt.alloc();
    let count = watch.given.count;
    let patterns = patterns(alloc, count)?;
    let records = records(alloc, count)?;
    let addresses = addresses(alloc, count)?;
    let transports = read_transports(watch, patterns.as_str())?;
    let exchanges = read_exchanges(watch, "records read", records.as_str())?;
    let router = Router::new(alloc, settings(alloc), transports, exchanges)?;
    look_up(watch, &router, &addresses)
}

// One domain that has as many exchangers, all of one preference.
fn time_one_domain<R: Clock + Print + AllocGlobal>(watch: &Watch<R>) -> Result<()> {
    let alloc = watch.rt.alloc();
    let records = records_of_one(alloc, watch.given.count)?;
    let exchanges = read_exchanges(watch, "records of one domain read", records.as_str())?;
    let start = watch.start()?;
    let hosts = match exchanges.hosts(alloc, b"example.com", &[], 1) {
        Ok(hosts) => hosts.as_slice().len(),
        Err(_) => 0,
    };
    watch.report_good("hosts of one domain", hosts, start)
}

/// Times N patterns, N records and N addresses, and then N records of one domain.
pub fn run<R: Clock + Print + AllocGlobal>(watch: &Watch<R>) -> Result<()> {
    time_router(watch)?;
    time_one_domain(watch)
}
