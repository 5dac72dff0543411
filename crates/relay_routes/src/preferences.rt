//! Mail exchangers in the order in which they are tried.
ghost use Rattle.std.specs.Prelude.{◌≡◌, ◌<◌, ◌≤◌, ◌++◌, not, length, take, drop, map, filter, IfOk, OnOk};
ghost use Rattle.std.specs.Str.{bytes_eq};
ghost use Rattle.relay_text.specs.Bytes.{firsts};
ghost use Rattle.relay_routes.specs.Exchanges.{is_null, in_preference_order, rotated};
ghost use Rattle.relay_routes.specs.Preferences.{exchanges_of, is_within, least_own, IsRising, IsFirstRun};

use crate::exchange::Exchange;
use crate::hosts::Hosts;
use crate::mx_hosts::DistinctHosts;
use relay_text::{Text, TextSet};
use std::alloc::{AllocError, Global};

/// The exchangers without the null ones, in their order.
pub(crate) fn without_null(mut exchangers: Vec<&Exchange>) -> Vec<&Exchange>
    ensures { result.items ≡ filter (λ e. not (is_null e.now)) exchangers.entry.items }
{
    exchangers.retain(|exchange| !exchange.is_null());
    exchangers
}

/// The exchangers that are tried before the relay itself, in their order.
pub(crate) fn before_relay<'a>(
    mut exchangers: Vec<&'a Exchange>,
    own_names: &TextSet,
) -> Vec<&'a Exchange>
    ensures { result.items ≡ filter (λ e. is_within (least_own own_names.now (exchanges_of exchangers.entry.items)) e.now.preference) exchangers.entry.items }
{
    let limit = own_preference(&exchangers, own_names);
    exchangers.retain(|exchange| is_within(limit, exchange.preference));
    exchangers
}

/// The least preference at which the relay itself is an exchanger.
pub(crate) fn own_preference(exchangers: &[&Exchange], own_names: &TextSet) -> Option<u16>
    ensures { result ≡ least_own own_names.now (exchanges_of exchangers.now) }
{
    let mut least = None;
    for exchange in exchangers {
        if own_names.contains(exchange.host.as_bytes()) && is_within(least, exchange.preference) {
            least = Some(exchange.preference);
        }
    }
    least
}

/// Whether a preference comes before a limit, if there is one.
pub(crate) fn is_within(limit: Option<u16>, preference: u16) -> bool
    ensures { result ≡ is_within limit preference }
{
    match limit {
        Some(limit) => preference < limit,
        None => true,
    }
}

/// The hosts of these exchangers in rising preference (RFC 5321 section 5.1). Those of one preference stand in their order, each once,
/// rotated by `seed` places. `Err` where memory runs out.
pub(crate) fn hosts_in_order(
    alloc: Global,
    mut exchangers: Vec<&Exchange>,
    seed: u64,
) -> Result<Hosts, AllocError>
    ensures { IfOk result (λ hosts. hosts ≡ in_preference_order seed (exchanges_of exchangers.entry.items)) }
{
    exchangers.sort_by_key(|exchange| exchange.preference)?;
    hosts_of_runs(alloc, exchangers.as_slice(), seed)
}

/// The hosts of one run of equal preference after another.
fn hosts_of_runs(alloc: Global, exchangers: &[&Exchange], seed: u64) -> Result<Hosts, AllocError>
    requires { IsRising (map (λ e. e.preference) (exchanges_of exchangers.now)) }
    ensures { IfOk result (λ hosts. hosts ≡ in_preference_order seed (exchanges_of exchangers.now)) }
{
    let mut hosts = Hosts::new(alloc);
    let mut start = 0;
    while start < exchangers.len() {
        let rest = &exchangers[start..];
        let count = run_len(rest);
        put_run(alloc, &rest[..count], seed, &mut hosts)?;
        start += count;
    }
    Ok(hosts)
}

/// How many exchangers at the front are of the first's preference.
fn run_len(exchangers: &[&Exchange]) -> usize
    requires some { 0 < length exchangers.now }
    requires rising { IsRising (map (λ e. e.preference) (exchanges_of exchangers.now)) }
    ensures within { result ≤ length exchangers.now }
    ensures run { IsFirstRun (exchanges_of exchangers.now) (exchanges_of (take result exchangers.now)) (exchanges_of (drop result exchangers.now)) }
{
    let preference = exchangers[0].preference;
    for (place, exchange) in exchangers.iter().enumerate() {
        if exchange.preference != preference {
            return place;
        }
    }
    exchangers.len()
}

/// Puts the hosts of exchangers of one preference at the end: each once, rotated.
fn put_run(alloc: Global, run: &[&Exchange], seed: u64, hosts: &mut Hosts) -> Result<(), AllocError>
    requires { 0 < length run.now }
    ensures { OnOk result (hosts.new ≡ hosts.old ++ rotated seed (firsts bytes_eq (map (λ e. e.host) (exchanges_of run.now)))) }
{
    if let [only] = run {
        return hosts.push(Text::copy_of(alloc, only.host.as_bytes())?);
    }
    hosts.append(rotated_hosts(alloc, run, seed)?)
}

/// The distinct hosts of exchangers of one preference, rotated.
fn rotated_hosts(alloc: Global, run: &[&Exchange], seed: u64) -> Result<Vec<Text>, AllocError>
    requires { 0 < length run.now }
    ensures { IfOk result (λ hosts. hosts.items ≡ rotated seed (firsts bytes_eq (map (λ e. e.host) (exchanges_of run.now)))) }
{
    let mut distinct = DistinctHosts::with_room(alloc, run.len())?;
    for exchange in run {
        distinct.add(alloc, exchange.host.as_bytes())?;
    }
    let mut hosts = distinct.into_vec();
    let turn = seed % hosts.len() as u64;
    hosts.rotate_left(turn as usize);
    Ok(hosts)
}
