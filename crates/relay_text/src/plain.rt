//! Addresses and names that are written without quotes, read in one pass.

use crate::address::Address;
use crate::fault::TextFault;
use crate::local::written_len;
use crate::parse::{MAX_DOMAIN, MAX_LOCAL, MAX_PATH};
use crate::run::{Part, run_at};
use crate::text::Text;
use std::alloc::Global;
use std::marker::Model;

/// A text without quotes: a local part of atext and dots, and where an `@` follows it, a domain name (RFC 5321 section 4.1.2).
#[derive(Drop)]
pub struct PlainText<'a> {
    text: &'a [u8],
    local_len: usize,
    /// Whether the local part is a Dot-string.
    is_joined: bool,
}

impl<'a> Model for PlainText<'a> {
    ghost use Rattle.std.specs.Prelude.{◌≡◌, ◌≤◌, ℕ, List, IsTrue, length, take};
    ghost use Rattle.relay_text.specs.Addresses.{is_dot_string};
    ghost use Rattle.relay_text.specs.PlainTexts.{is_plain_text};

    ghost Value = { List ℕ };

    ghost view = { λ p. p.text.now };

    ghost invariant = { λ p. (p.local_len ≤ length p.text.now) × IsTrue (is_plain_text p.local_len p.text.now) × (p.is_joined ≡ is_dot_string (take p.local_len p.text.now)) };
}

ghost use Rattle.std.specs.Prelude.{◌≡◌, ◌≢◌, ◌<◌, ℕ, List, length, true, false, Some, Err, IsTrue, unwrap_or, IfOk};
ghost use Rattle.relay_text.specs.Bytes.{folded};
ghost use Rattle.relay_text.specs.Addresses.{Answers, is_address, is_origin, address_of, name_of, spelled_domain};
ghost use Rattle.relay_text.specs.PlainTexts.{HasFault, is_open_text, plain_front};
ghost use Rattle.relay_text.specs.declared.fault.TextFault.TheVariants.{BadDomain};

impl<'a> PlainText<'a> {
    /// The longest such text at the front of some bytes; `None` where no byte of a local part stands there, or where no domain name
    /// follows its `@`. What stands behind it is not judged.
    pub fn at_front(bytes: &'a [u8]) -> Option<PlainText<'a>>
        ensures { result ≡ plain_front bytes.now }
    {
        let local = run_at(Part::Local, bytes);
        if local.len == 0 {
            return None;
        }
        if local.len == bytes.len() || bytes[local.len] != b'@' {
            return Some(PlainText {
                text: &bytes[..local.len],
                local_len: local.len,
                is_joined: local.is_joined,
            });
        }
        let domain = run_at(Part::Domain, &bytes[local.len + 1..]);
        if !domain.is_joined {
            return None;
        }
        Some(PlainText {
            text: &bytes[..local.len + 1 + domain.len],
            local_len: local.len,
            is_joined: local.is_joined,
        })
    }

    /// Its bytes: at least one, each of which is atext, a dot or an `@`.
    pub fn text(&self) -> &'a [u8]
        ensures value { result.now ≡ self.now }
        ensures open { IsTrue (is_open_text self.now) }
    {
        self.text
    }

    /// Whether an `@` and a domain name follow the local part, so that it is an address and no name.
    pub fn has_domain(&self) -> bool
        ensures yes { result ≡ true → name_of self.now ≡ Err BadDomain }
        ensures no { result ≡ false → name_of self.now ≢ Err BadDomain }
    {
        self.local_len < self.text.len()
    }

    /// The first fault of every longer text with this front, as a name and as an address: behind a domain name stands a byte that it
    /// can't have, and behind a local part one that is neither its own nor an `@`.
    pub(crate) fn fault_of_longer(&self) -> TextFault
        ensures { (bytes : List ℕ) → plain_front bytes ≡ Some self.now → length self.now < length bytes → HasFault result bytes }
    {
        if self.local_len < self.text.len() {
            TextFault::BadDomain
        } else {
            TextFault::BadByte
        }
    }

    /// The name that it spells; the faults are `parse_name`'s.
    pub fn name(&self, alloc: Global) -> Result<Text, TextFault>
        ensures { Answers result (name_of self.now) }
    {
        if self.local_len < self.text.len() {
            return Err(TextFault::BadDomain);
        }
        if self.text.len() > MAX_LOCAL || written_len(self.text, self.is_joined) > MAX_LOCAL {
            return Err(TextFault::TooLong);
        }
        let Ok(name) = Text::copy_of(alloc, self.text) else {
            return Err(TextFault::Memory);
        };
        Ok(name)
    }

    /// The address that it spells, at the origin where it has no domain; the faults are `parse_address`'s.
    pub fn address(&self, alloc: Global, origin: &[u8]) -> Result<Address, TextFault>
        requires { IsTrue (is_origin origin.now) }
        ensures spelled { Answers result (address_of origin.now self.now) }
        ensures valid { IfOk result (λ a. IsTrue (is_address a)) }
    {
        let local = &self.text[..self.local_len];
        let domain = domain_behind(&self.text[self.local_len..], origin);
        if local.len() > MAX_LOCAL || domain.len() > MAX_DOMAIN {
            return Err(TextFault::TooLong);
        }
        let written_len = written_len(local, self.is_joined);
        if written_len > MAX_LOCAL || written_len + domain.len() + 3 > MAX_PATH {
            return Err(TextFault::TooLong);
        }
        let Ok(address) = Address::of_spelled(alloc, local, domain, self.is_joined) else {
            return Err(TextFault::Memory);
        };
        Ok(address)
    }
}

/// The domain that follows a local part, before it is folded, or else the origin.
fn domain_behind<'a>(rest: &'a [u8], origin: &'a [u8]) -> &'a [u8]
    requires { folded origin.now ≡ origin.now }
    ensures { unwrap_or (spelled_domain rest.now) origin.now ≡ folded result.now }
{
    match rest {
        [_, domain @ ..] => domain,
        [] => origin,
    }
}
