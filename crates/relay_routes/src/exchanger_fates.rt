//! The lines of a domain's mail exchangers, and what becomes of each.
ghost use Rattle.std.specs.Prelude.{◌≡◌, ◌<◌, ◌^◌, ◌++◌, ◌∷◌, ◌||◌, [], filter, ℕ, List, option_to_list, IfOk, OnOk};
ghost use Rattle.std.specs.Str.{bytes_eq};
ghost use Rattle.relay_text.specs.Bytes.{first_of, has_text};
ghost use Rattle.relay_text.specs.Lines.{kept_lines};
ghost use Rattle.relay_routes.specs.Exchanges.{mx_table_of, hosts_of};
ghost use Rattle.relay_routes.specs.Preferences.{least_own};
ghost use Rattle.relay_routes.specs.ExchangerLines.{address_line_in, exchanger_in, exchangers_on, exchangers_or, exchanger_lines_of, fate_by, first_address, exchange_key, fate_behind, good_exchanges, hosts_by, is_of, line_with, with_fates};

use crate::exchange::Exchange;
use crate::fate::Fate;
use crate::mx_line::record_in;
use crate::mx_record::MxRecord;
use crate::preferences::{is_within, own_preference, without_null};
use relay_text::{KeptLines, Text, TextSet};
use std::alloc::{AllocError, Global};

/// A mail exchanger of a domain, and what becomes of it.
#[derive(Drop)]
pub struct ExchangerLine {
    /// The number of its line, from 1.
    pub line: usize,
    pub preference: u16,
    pub host: Text,
    pub fate: Fate,
}

// An exchanger, and the number of its line.
#[derive(Drop)]
struct Numbered {
    line: usize,
    exchange: Exchange,
}

// A domain's exchangers, and the first line that says that it has an address.
#[derive(Drop)]
struct DomainLines {
    exchangers: Vec<Numbered>,
    address: Option<usize>,
}

impl DomainLines {
    fn read(alloc: Global, table: &[u8], domain: &[u8]) -> Result<DomainLines, AllocError>
        ensures exchangers { IfOk result (λ found. found.exchangers.items ≡ exchangers_on domain.now (kept_lines table.now)) }
        ensures address { IfOk result (λ found. found.address ≡ first_address domain.now (kept_lines table.now)) }
    {
        let mut found = DomainLines {
            exchangers: Vec::new(alloc),
            address: None,
        };
        let mut lines = KeptLines::new(table);
        while let Some(line) = lines.next_line() {
            if let Some(entry) = record_in(alloc, line.text)? {
                found.add(line.number, entry, domain)?;
            }
        }
        Ok(found)
    }

    fn add(&mut self, line: usize, entry: MxRecord, domain: &[u8]) -> Result<(), AllocError>
        ensures exchangers { OnOk result (self.new.exchangers.items ≡ self.old.exchangers.items ++ filter (is_of domain.now) (option_to_list (exchanger_in line entry))) }
        ensures address { OnOk result (self.new.address ≡ first_of (self.old.address ∷ address_line_in domain.now line entry ∷ [])) }
    {
        match entry {
            MxRecord::Mx(exchange) => {
                if exchange.domain.as_bytes() == domain {
                    self.exchangers.push(Numbered { line, exchange })?;
                } else {
                    drop(exchange);
                }
            }
            MxRecord::Address(name) => {
                if self.address.is_none() && name.as_bytes() == domain {
                    self.address = Some(line);
                }
                drop(name);
            }
        }
        Ok(())
    }

    // The exchangers, or where there is none the domain itself, which is its own where it has an address.
    fn into_exchangers(self, alloc: Global, domain: &[u8]) -> Result<Vec<Numbered>, AllocError>
        ensures { IfOk result (λ exchangers. exchangers.items ≡ exchangers_or self.exchangers.items self.address domain.now) }
    {
        let DomainLines {
            mut exchangers,
            address,
        } = self;
        if exchangers.is_empty() {
            if let Some(line) = address {
                let exchange = Exchange {
                    domain: Text::copy_of(alloc, domain)?,
                    preference: 0,
                    host: Text::copy_of(alloc, domain)?,
                };
                exchangers.push(Numbered { line, exchange })?;
            }
        }
        Ok(exchangers)
    }
}

// The least preference at which the relay itself is an exchanger.
fn own_limit(
    alloc: Global,
    exchangers: &[Numbered],
    own_names: &TextSet,
) -> Result<Option<u16>, AllocError>
    ensures { IfOk result (λ limit. limit ≡ least_own own_names.now (good_exchanges exchangers.now)) }
{
    let mut found = Vec::with_capacity(alloc, exchangers.len())?;
    for numbered in exchangers {
        found.push(&numbered.exchange)?;
    }
    let good = without_null(found);
    Ok(own_preference(&good, own_names))
}

// What becomes of an exchanger, where this is what is known of it.
fn fate_of(is_null: bool, is_own: bool, is_before: bool, is_new: bool) -> Fate
    ensures { result ≡ fate_by is_null is_own is_before is_new }
{
    if is_null {
        Fate::Null
    } else if is_own {
        Fate::Own
    } else if !is_before {
        Fate::Discarded
    } else if is_new {
        Fate::Host
    } else {
        Fate::Repeated
    }
}

// The exchangers, each with what becomes of it.
fn with_fates(
    alloc: Global,
    exchangers: Vec<Numbered>,
    own_names: &TextSet,
) -> Result<Vec<ExchangerLine>, AllocError>
    ensures { IfOk result (λ lines. lines.items ≡ with_fates own_names.now exchangers.items) }
{
    let limit = own_limit(alloc, &exchangers, own_names)?;
    let mut seen = TextSet::new(alloc);
    let mut lines = Vec::with_capacity(alloc, exchangers.len())?;
    for numbered in exchangers {
        let Ok(fate) = fate_behind(alloc, &numbered.exchange, limit, own_names, &mut seen) else {
            drop(numbered);
            return Err(AllocError);
        };
        lines.push(line_with(numbered, fate))?;
    }
    Ok(lines)
}

// What becomes of an exchanger behind those whose keys were seen, where this is the least preference of the relay's own. Its key is
// seen from then on.
fn fate_behind(
    alloc: Global,
    exchange: &Exchange,
    limit: Option<u16>,
    own_names: &TextSet,
    seen: &mut TextSet,
) -> Result<Fate, AllocError>
    ensures fits { exchange.now.preference < 2 ^ 16 }
    ensures fate { IfOk result (λ fate. fate ≡ fate_behind own_names.now limit seen.old exchange.now) }
    ensures seen { OnOk result ((q : List ℕ) → has_text seen.new q ≡ (bytes_eq q (exchange_key exchange.now) || has_text seen.old q)) }
{
    let is_before = is_within(limit, exchange.preference);
    let is_own = own_names.contains(exchange.host.as_bytes());
    // No exchanger of another preference or host has this key.
    let mut key = Vec::from_slice(alloc, &exchange.preference.to_be_bytes())?;
    key.extend_from_slice(exchange.host.as_bytes())?;
    let is_new = seen.insert(key)?;
    Ok(fate_of(exchange.is_null(), is_own, is_before, is_new))
}

// The line of an exchanger, and what becomes of it.
fn line_with(numbered: Numbered, fate: Fate) -> ExchangerLine
    ensures { result ≡ line_with fate numbered }
{
    let Numbered { line, exchange } = numbered;
    let Exchange {
        domain: _,
        preference,
        host,
    } = exchange;
    ExchangerLine {
        line,
        preference,
        host,
        fate,
    }
}

/// The mail exchangers of a domain, which is given in lower case, in the order of the table, and what becomes of each for a relay of
/// these names. Of a domain without exchangers that has an address it's the domain itself, with preference 0, on the first line that says
/// so (RFC 5321 section 5.1). `Err` where memory runs out.
pub fn exchanger_lines(
    alloc: Global,
    table: &[u8],
    domain: &[u8],
    own_names: &[Text],
) -> Result<Vec<ExchangerLine>, AllocError>
    ensures { IfOk result (λ lines. lines.items ≡ exchanger_lines_of table.now domain.now own_names.now) }
{
    let own_names = TextSet::of(alloc, own_names)?;
    let found = DomainLines::read(alloc, table, domain)?;
    let exchangers = found.into_exchangers(alloc, domain)?;
    with_fates(alloc, exchangers, &own_names)
}

/// A law, with nothing to run: the hosts of a domain are those of its lines whose fate is `Host`, in the order of trying. Where there are
/// none, the fates say why.
pub fn hosts_by_lines()
    ensures { (table domain : List ℕ) (own_names : List (List ℕ)) (seed : ℕ) → hosts_of (mx_table_of table) domain own_names seed ≡ hosts_by domain seed (exchanger_lines_of table domain own_names) }
{}
