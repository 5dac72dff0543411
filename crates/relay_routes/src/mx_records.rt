//! The records of an MX table, which are found by the hashes of their domains.
ghost use Rattle.std.specs.Prelude.{◌≡◌, map, filter, filter_map, option_copied, IfOk};
ghost use Rattle.std.specs.Str.{bytes_eq};
ghost use Rattle.relay_text.specs.Bytes.{has_text};
ghost use Rattle.relay_routes.specs.Exchanges.{exchange_in, address_in};
ghost use Rattle.relay_routes.specs.MxRecords.{domain_hash, own_exchange, is_own_address};

use crate::exchange::Exchange;
use crate::mx_record::MxRecord;
use crate::room::MOST_TEXTS;
use relay_chains::{Links, TextKey, hash_text};
use relay_text::same_bytes;
use std::alloc::{AllocError, Global};
use std::marker::Model;

/// Records in table order, which contracts see as their list. They are linked by the hashes of their domains, so that a look-up costs one
/// hash and its domain's own records.
#[derive(Drop)]
pub(crate) struct MxRecords {
    records: Vec<MxRecord>,
    links: Links,
    key: TextKey,
}

impl Model for MxRecords {
    ghost use Rattle.std.specs.Prelude.{List};
    ghost use Rattle.relay_routes.specs.declared.mx_record.MxRecord.{MxRecord};
    ghost use Rattle.relay_routes.specs.MxRecords.{AreHashed};

    ghost Value = { List MxRecord };

    ghost view = { λ a. a.records.items };

    ghost invariant = { λ a. AreHashed a.key a.records.items a.links };
}

impl MxRecords {
    /// The records with their links. The key is that of the hashes of their domains. `Err` where memory runs out.
    pub(crate) fn of(
        alloc: Global,
        key: TextKey,
        records: Vec<MxRecord>,
    ) -> Result<MxRecords, AllocError>
        ensures { IfOk result (λ r. r ≡ records.items) }
    {
        if records.len() >= MOST_TEXTS {
            return Err(AllocError);
        }
        let hashes = domain_hashes(alloc, key, &records)?;
        let links = Links::of(alloc, &hashes)?;
        Ok(MxRecords {
            records,
            links,
            key,
        })
    }

    /// Whether a domain has an address.
    pub(crate) fn has_address(&self, domain: &[u8]) -> bool
        ensures { result ≡ has_text (filter_map address_in self.now) domain.now }
    {
        let mut word = self.links.newest(hash_text(self.key, domain));
        while word != 0 {
            if is_own_address(&self.records[(word - 1) as usize], domain) {
                return true;
            }
            word = self.links.before(word);
        }
        false
    }

    /// The mail exchangers of a domain, in table order. `Err` where memory runs out.
    pub(crate) fn exchangers_of(
        &self,
        alloc: Global,
        domain: &[u8],
    ) -> Result<Vec<&Exchange>, AllocError>
        ensures { IfOk result (λ es. map (λ e. e.now) es.items ≡ filter (λ e. bytes_eq e.domain domain.now) (filter_map exchange_in self.now)) }
    {
        let mut exchangers = Vec::new(alloc);
        let mut word = self.links.newest(hash_text(self.key, domain));
        while word != 0 {
            if let Some(exchange) = own_exchange(&self.records[(word - 1) as usize], domain) {
                exchangers.push(exchange)?;
            }
            word = self.links.before(word);
        }
        // The links lead from the last record to the first.
        exchangers.reverse();
        Ok(exchangers)
    }
}

/// The mail exchanger that a record is, where it is this domain's.
fn own_exchange<'a>(candidate: &'a MxRecord, domain: &[u8]) -> Option<&'a Exchange>
    ensures { option_copied result ≡ own_exchange domain.now candidate.now }
{
    match candidate {
        MxRecord::Mx(exchange) if same_bytes(exchange.domain.as_bytes(), domain) => Some(exchange),
        _ => None,
    }
}

/// Whether a record says that this domain has an address.
fn is_own_address(candidate: &MxRecord, domain: &[u8]) -> bool
    ensures { result ≡ is_own_address domain.now candidate.now }
{
    match candidate {
        MxRecord::Address(address) => same_bytes(address.as_bytes(), domain),
        MxRecord::Mx(_) => false,
    }
}

/// The hashes of the records' domains.
fn domain_hashes(alloc: Global, key: TextKey, records: &[MxRecord]) -> Result<Vec<u32>, AllocError>
    ensures { IfOk result (λ hashes. hashes.items ≡ map (domain_hash key) records.now) }
{
    let mut hashes = Vec::with_capacity(alloc, records.len())?;
    for record in records {
        hashes.push_reserved(hash_text(key, record.domain()));
    }
    Ok(hashes)
}
