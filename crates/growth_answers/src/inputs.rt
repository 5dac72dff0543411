//! Values that the cases share.
ghost use Rattle.std.specs.Prelude.{◌≡◌, ◌&&◌, map, codes};
ghost use Rattle.std.specs.Str.{bytes_eq};
ghost use Rattle.std.specs.Cmp.Lexicographic.{pointwise};
ghost use Rattle.relay_text.specs.Addresses.{address_of, Answers};

use relay_text::{Address, Text, TextFault, parse_address, same_bytes};
use std::alloc::Global;

/// The address that a text spells at the origin `example.org`.
#[tactic(auto, unfolding(relay_text::specs::Addresses::is_origin, relay_text::specs::Addresses::is_domain))]
pub fn address(alloc: Global, text: &[u8]) -> Result<Address, TextFault>
    ensures { Answers result (address_of (codes "example.org") text.now) }
{
    parse_address(alloc, text, b"example.org")
}

/// Whether an address has this local part and this domain.
pub fn is_address(address: &Address, local: &[u8], domain: &[u8]) -> bool
    ensures { result ≡ (bytes_eq address.now.local local.now && bytes_eq address.now.domain domain.now) }
{
    same_bytes(address.local(), local) && same_bytes(address.domain(), domain)
}

/// Whether these are the texts, in this order.
pub fn are_texts(texts: &[Text], wanted: &[&[u8]]) -> bool
    ensures { result ≡ pointwise bytes_eq texts.now (map (λ it. it.now) wanted.now) }
{
    texts.len() == wanted.len()
        && texts
            .iter()
            .zip(wanted)
            .all(|(text, wanted)| same_bytes(text.as_bytes(), wanted))
}
