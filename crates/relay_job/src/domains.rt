//! Lists of domains.
ghost use Rattle.std.specs.Prelude.{◌≡◌, ◌==◌, ◌||◌, IfOk};
ghost use Rattle.relay_text.specs.Bytes.{is_white};
ghost use Rattle.relay_job.specs.Settings.{domains_value};

use relay_text::{Seq, Text, is_domain};
use std::alloc::{AllocError, Global};

/// Whether a byte stands between domains: white space or a comma.
fn is_separator(byte: u8) -> bool
    ensures { result ≡ (is_white byte || (byte == 44)) }
{
    byte == b' ' || byte == b'\t' || byte == b','
}

/// The domains of a list, folded; `None` where it has other pieces.
pub(crate) fn read_domains(alloc: Global, list: &[u8]) -> Result<Option<Seq<Text>>, AllocError>
    ensures { IfOk result (λ domains. domains ≡ domains_value list.now) }
{
    let mut domains = Vec::new(alloc);
    let pieces = list.split(|byte| is_separator(*byte));
    for domain in pieces.filter(|piece| !piece.is_empty()) {
        if !is_domain(domain) {
            return Ok(None);
        }
        domains.push(Text::folded_copy_of(alloc, domain)?)?;
    }
    Ok(Some(Seq::of(domains)))
}
