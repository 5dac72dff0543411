//! The MX table.
use crate::exchange::Exchange;
use crate::fault::LineFault;
use crate::hosts::Hosts;
use crate::mx_records::MxRecords;
use crate::preferences::{before_relay, hosts_in_order, without_null};
use crate::record_lines::RecordLines;
use crate::room::BYTES_FOR_LINE;
use crate::unrouted::Unrouted;
use relay_chains::TextKey;
use relay_halves::{PartRead, about_lines, read_by};
use relay_text::{Seq, Text, TextSet};
use std::alloc::{AllocError, Global};
use std::marker::Model;
use std::thread::Threads;

/// The MX records of domains, which mail is sent by (RFC 5321 section 5.1), and the lines at fault.
pub struct MxTable {
    records: MxRecords,
    faults: Seq<LineFault>,
}

// Written out: what becomes of a derived drop's parts is followed in each proof that has such a value to its end.
impl Drop for MxTable {
    fn drop(self) {
        let MxTable {
            records: _,
            faults: _,
        } = self;
    }
}

impl Model for MxTable {
    ghost use Rattle.std.specs.Prelude.{filter_map};
    ghost use Rattle.relay_routes.specs.MxLines.{MxLines};
    ghost use Rattle.relay_routes.specs.Exchanges.{exchange_in, address_in};

    ghost Value = { MxLines };

    ghost view = { λ a. record { exchanges = filter_map exchange_in a.records; addresses = filter_map address_in a.records; faults = a.faults } };
}

ghost use Rattle.std.specs.Prelude.{◌≡◌, ◌<◌, ℕ, Bool, true, List, [], length, IfOk};
ghost use Rattle.relay_routes.specs.Exchanges.{mx_table_of, hosts_of, hosts_before_relay, exchangers};
ghost use Rattle.relay_routes.specs.Preferences.{exchanges_of};
ghost use Rattle.relay_routes.specs.RecordLines.{AreRead};
ghost use Rattle.relay_routes.specs.Routes.{Answers};

impl MxTable {
    /// The records of a table: on each line that isn't ignored `domain MX number host` or `domain A`, fields apart by white space, the
    /// words in any case. The number is of decimal digits and up to 65535, leading zeros taken; domain and host are names, not address
    /// literals, and the host may be the `.` of the null MX with the number 0 (RFC 7505 section 3). Names are put into lower case,
    /// and hashed under the key. Every text is accepted: any other line is `BadLine`. `Err` where memory runs out.
    pub fn parse(alloc: Global, key: TextKey, bytes: &[u8]) -> Result<MxTable, AllocError>
        ensures { IfOk result (λ table. table ≡ mx_table_of bytes.now) }
    {
        let lines = RecordLines::read(alloc, bytes.len() / BYTES_FOR_LINE, 0, bytes)?;
        MxTable::of_lines(alloc, key, bytes, lines)
    }

    /// The same by so many threads, where the text is long. `Err` where memory runs out.
    pub fn parse_by<R: Threads + Sync>(
        rt: &R,
        alloc: Global,
        key: TextKey,
        workers: usize,
        bytes: &[u8],
    ) -> Result<MxTable, AllocError>
        ensures { IfOk result (λ table. table ≡ mx_table_of bytes.now) }
    {
        let lines = read_by(rt, alloc, workers, about_lines(bytes), 0, bytes)?;
        MxTable::of_lines(alloc, key, bytes, lines)
    }

    /// The table of a text, of whose lines this was read.
    fn of_lines(
        alloc: Global,
        key: TextKey,
        bytes: &[u8],
        lines: RecordLines,
    ) -> Result<MxTable, AllocError>
        requires { AreRead 0 bytes.now lines }
        ensures { IfOk result (λ table. table ≡ mx_table_of bytes.now) }
    {
        let _ = bytes;
        let RecordLines { records, faults } = lines;
        Ok(MxTable {
            records: MxRecords::of(alloc, key, records)?,
            faults: Seq::of(faults),
        })
    }

    /// The lines that are no record, in table order.
    pub fn faults(&self) -> &[LineFault]
        ensures { result.now ≡ self.now.faults }
    {
        self.faults.as_slice()
    }

    /// The hosts that take the mail of a domain, which is given in lower case, for a relay of these names: in rising preference (RFC 5321
    /// section 5.1), those of one preference in table order, each once, and rotated left by `seed` modulo their number. Where the relay
    /// is an exchanger itself, those of its preference and worse ones are left out. A domain without exchangers that has an address
    /// is its own exchanger.
    ///
    /// `Domain`: the table has no record of the domain. `NullMx`: all its exchangers are the null MX (RFC 7505); where others stand beside
    /// it, it's left out. `MxSelf`: no exchanger is left before the relay. `Memory`: memory ran out.
    pub fn hosts(
        &self,
        alloc: Global,
        domain: &[u8],
        own_names: &[Text],
        seed: u64,
    ) -> Result<Hosts, Unrouted>
        ensures { Answers result (hosts_of self.now domain.now own_names.now seed) }
    {
        let own_names = TextSet::of(alloc, own_names)?;
        self.hosts_beside(alloc, domain, &own_names, seed)
    }

    /// The same, for a relay whose names are in a set.
    pub(crate) fn hosts_beside(
        &self,
        alloc: Global,
        domain: &[u8],
        own_names: &TextSet,
        seed: u64,
    ) -> Result<Hosts, Unrouted>
        ensures { Answers result (hosts_of self.now domain.now own_names.now seed) }
    {
        let found = self.records.exchangers_of(alloc, domain)?;
        if !found.is_empty() {
            return explicit_hosts(alloc, found, own_names, seed);
        }
        if self.records.has_address(domain) {
            implicit_host(alloc, domain, own_names)
        } else {
            Err(Unrouted::Domain)
        }
    }
}

/// The hosts of a domain's mail exchangers: those that aren't null, before the relay itself, in rising preference.
fn explicit_hosts(
    alloc: Global,
    found: Vec<&Exchange>,
    own_names: &TextSet,
    seed: u64,
) -> Result<Hosts, Unrouted>
    requires { 0 < length found.items }
    ensures { (domain : List ℕ) (has_address : Bool) → Answers result (hosts_before_relay (exchangers (exchanges_of found.entry.items) has_address domain) own_names.now seed) }
{
    let exchangers = without_null(found);
    if exchangers.is_empty() {
        return Err(Unrouted::NullMx);
    }
    let exchangers = before_relay(exchangers, own_names);
    let hosts = hosts_in_order(alloc, exchangers, seed)?;
    if hosts.as_slice().is_empty() {
        return Err(Unrouted::MxSelf);
    }
    Ok(hosts)
}

/// The host of a domain without mail exchangers that has an address: itself (RFC 5321 section 5.1, the implicit MX).
fn implicit_host(alloc: Global, domain: &[u8], own_names: &TextSet) -> Result<Hosts, Unrouted>
    ensures { (seed : ℕ) → Answers result (hosts_before_relay (exchangers [] true domain.now) own_names.now seed) }
{
    if own_names.contains(domain) {
        return Err(Unrouted::MxSelf);
    }
    let host = Text::copy_of(alloc, domain)?;
    let hosts = Hosts::one(alloc, host)?;
    Ok(hosts)
}
