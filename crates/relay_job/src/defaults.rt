//! What a setting is where no line sets it.
ghost use Rattle.std.specs.Prelude.{◌≡◌, [], ◌∷◌, codes, unwrap_or, IfOk};
ghost use Rattle.relay_job.specs.SettingValues.{default_via};

use relay_routes::{Transport, Via};
use relay_text::{Seq, Text};
use std::alloc::{AllocError, Global};

/// The host's name, the origin and the domains, where they are set: else `localhost`, the host's name, and the host's name and
/// `localhost`.
pub(crate) fn names_or_own(
    alloc: Global,
    hostname: Option<Text>,
    origin: Option<Text>,
    domains: Option<Seq<Text>>,
) -> Result<(Text, Text, Seq<Text>), AllocError>
    ensures { IfOk result (λ names. (names.0 ≡ unwrap_or hostname (codes "localhost")) × (names.1 ≡ unwrap_or origin names.0) × (names.2 ≡ unwrap_or domains (names.0 ∷ codes "localhost" ∷ []))) }
{
    let hostname = text_or(alloc, hostname, b"localhost")?;
    let origin = text_or(alloc, origin, hostname.as_bytes())?;
    let domains = domains_or_own(alloc, domains, hostname.as_bytes())?;
    Ok((hostname, origin, domains))
}

/// A text, or else a copy of the default.
fn text_or(alloc: Global, text: Option<Text>, default: &[u8]) -> Result<Text, AllocError>
    ensures { IfOk result (λ t. t ≡ unwrap_or text default.now) }
{
    match text {
        Some(text) => Ok(text),
        None => Text::copy_of(alloc, default),
    }
}

/// Domains, or else a host's name and `localhost`.
fn domains_or_own(
    alloc: Global,
    domains: Option<Seq<Text>>,
    hostname: &[u8],
) -> Result<Seq<Text>, AllocError>
    ensures { IfOk result (λ d. d ≡ unwrap_or domains (hostname.now ∷ codes "localhost" ∷ [])) }
{
    if let Some(domains) = domains {
        return Ok(domains);
    }
    let mut own = Vec::with_capacity(alloc, 2)?;
    own.push(Text::copy_of(alloc, hostname)?)?;
    own.push(Text::copy_of(alloc, b"localhost")?)?;
    Ok(Seq::of(own))
}

/// A transport, or else LMTP to `unix:mailbox`.
pub(crate) fn via_or_mailbox(alloc: Global, via: Option<Via>) -> Result<Via, AllocError>
    ensures { IfOk result (λ v. v ≡ unwrap_or via default_via) }
{
    match via {
        Some(via) => Ok(via),
        None => Ok(Via {
            transport: Transport::Lmtp,
            nexthop: Some(Text::copy_of(alloc, b"unix:mailbox")?),
        }),
    }
}
