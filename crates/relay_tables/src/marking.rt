//! Marks of domains: small numbers by which most that aren't local are told without a comparison.
ghost use Rattle.std.specs.Prelude.{◌≡◌, ◌<◌};
ghost use Rattle.relay_tables.specs.Marks.{domain_mark, AreMarks};

use crate::local::Local;

/// How many marks there are.
pub(crate) const MARKS: usize = 256;

/// The mark of a domain, by its length and its last byte.
pub(crate) fn domain_mark(domain: &[u8]) -> usize
    ensures value { result ≡ domain_mark domain.now }
    ensures below { result < 256 }
{
    if domain.is_empty() {
        return 0;
    }
    let last = domain[domain.len() - 1];
    (domain.len() % MARKS + 31 * usize::from(last)) % MARKS
}

/// Which marks the local domains have.
pub(crate) fn marks_of(local: &Local) -> [bool; MARKS]
    ensures { AreMarks local.now result }
{
    let mut marks = [false; MARKS];
    for domain in local.domains.as_slice() {
        marks[domain_mark(domain.as_bytes())] = true;
    }
    marks[domain_mark(local.origin.as_bytes())] = true;
    marks
}
