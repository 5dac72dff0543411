//! Addresses.

use crate::inline_bytes::InlineBytes;
use crate::local::is_dot_string;
use std::alloc::{AllocError, Global};
use std::marker::Model;

/// What is known of the bytes of an address.
#[derive(Clone, Copy)]
struct AddressHead {
    local_len: u8,
    /// Whether the local part is a Dot-string.
    is_plain: bool,
}

/// A mailbox: a local part without quotes and escapes, in the case as spelled, and a domain in lower case (RFC 5321 section 4.1.2,
/// Mailbox). Each address is within the limits of RFC 5321 section 4.5.3.1 as it is written. Both parts lie in a row with an `@` between
/// them, up to 44 bytes of it in the value itself, more in memory of their own.
pub struct Address {
    text: InlineBytes<AddressHead, 44>,
}

// Written out: what becomes of a derived drop's parts is followed in each proof that has such a value to its end.
impl Drop for Address {
    fn drop(self) {
        let Address { text: _ } = self;
    }
}

impl Model for Address {
    ghost use Rattle.relay_text.specs.AddressParts.{AddressParts};

    ghost Value = { AddressParts };

    ghost use Rattle.std.specs.Prelude.{◌≡◌, IsTrue};
    ghost use Rattle.relay_text.specs.Addresses.{is_address, is_dot_string};
    ghost use Rattle.relay_text.specs.JoinedAddresses.{joined_text_of, parts_at};

    ghost view = { λ a. parts_at a.text.head.local_len a.text.bytes };

    ghost invariant = { λ a.
        (a.text.bytes ≡ joined_text_of (parts_at a.text.head.local_len a.text.bytes))
        × (a.text.head.is_plain ≡ is_dot_string (parts_at a.text.head.local_len a.text.bytes).local)
        × IsTrue (is_address (parts_at a.text.head.local_len a.text.bytes)) };
}

ghost use Rattle.std.specs.Prelude.{◌≡◌, IsTrue, IfOk, length};
ghost use Rattle.relay_text.specs.AddressParts.{AddressParts};
ghost use Rattle.relay_text.specs.Addresses.{is_address, is_dot_string};
ghost use Rattle.relay_text.specs.Bytes.{folded};
ghost use Rattle.relay_text.specs.JoinedAddresses.{joined_text_of, parts_at};

impl Address {
    /// The address of these parts: a local part without quotes and escapes, and a folded domain, which an address literal gives with its
    /// brackets. `Err` where memory runs out.
    pub fn new(alloc: Global, local: &[u8], domain: &[u8]) -> Result<Address, AllocError>
        requires { IsTrue (is_address (record { local = local.now; domain = domain.now })) }
        ensures { IfOk result (λ a. a ≡ record { local = local.now; domain = domain.now }) }
    {
        Address::of_spelled(alloc, local, domain, is_dot_string(local))
    }

    /// The address of a local part without quotes and escapes, and of a domain as it is spelled, before it is folded. `Err` where memory
    /// runs out.
    pub(crate) fn of_spelled(
        alloc: Global,
        local: &[u8],
        domain: &[u8],
        is_plain: bool,
    ) -> Result<Address, AllocError>
        requires plain { is_plain ≡ is_dot_string local.now }
        requires valid { IsTrue (is_address (record { local = local.now; domain = folded domain.now })) }
        ensures { IfOk result (λ a. a ≡ record { local = local.now; domain = folded domain.now }) }
    {
        let head = AddressHead {
            local_len: local.len() as u8,
            is_plain,
        };
        let text = InlineBytes::joined_folded_of(alloc, head, local, b'@', domain)?;
        Ok(Address { text })
    }

    /// The address whose local part is the first `local_len` bytes of a text, and whose domain follows the `@` behind it.
    pub(crate) fn from_joined(
        text: InlineBytes<(), 44>,
        local_len: usize,
        is_plain: bool,
    ) -> Address
        requires joined { text.bytes ≡ joined_text_of (parts_at local_len text.bytes) }
        requires plain { is_plain ≡ is_dot_string (parts_at local_len text.bytes).local }
        requires valid { IsTrue (is_address (parts_at local_len text.bytes)) }
        ensures { result ≡ parts_at local_len text.bytes }
    {
        let head = AddressHead {
            local_len: local_len as u8,
            is_plain,
        };
        Address {
            text: text.with_head(head),
        }
    }

    /// The local part, without quotes and escapes, in the case as spelled.
    pub fn local(&self) -> &[u8]
        ensures value { result.now ≡ self.now.local }
        ensures valid { IsTrue (is_address self.now) }
    {
        &self.text.as_slice()[..self.local_len()]
    }

    /// The domain, in lower case; an address literal stands in its brackets (RFC 5321 section 4.1.3).
    pub fn domain(&self) -> &[u8]
        ensures { result.now ≡ self.now.domain }
    {
        &self.text.as_slice()[self.local_len() + 1..]
    }

    /// How long the local part is.
    fn local_len(&self) -> usize
        ensures { result ≡ length self.now.local }
    {
        usize::from(self.text.head().local_len)
    }

    /// The local part, `@` and the domain in a row, without quotes: no other address has these bytes.
    pub fn joined(&self) -> &[u8]
        ensures value { result.now ≡ joined_text_of self.now }
        ensures valid { IsTrue (is_address self.now) }
    {
        self.text.as_slice()
    }

    /// Whether the local part is a Dot-string, so that the address is written as `joined` lends it.
    pub fn is_plain(&self) -> bool
        ensures { result ≡ is_dot_string self.now.local }
    {
        self.text.head().is_plain
    }

    /// The same address in a value of its own. `Err` where memory runs out.
    pub fn copy(&self, alloc: Global) -> Result<Address, AllocError>
        ensures same { IfOk result (λ a. a ≡ self.now) }
    {
        let text = self.text.copy(alloc)?;
        Ok(Address { text })
    }
}

/// A law, with nothing to run: the joined bytes determine the address, since no domain has an `@`.
pub fn one_joined_text()
    ensures { (a b : AddressParts) → IsTrue (is_address a) → IsTrue (is_address b) → joined_text_of a ≡ joined_text_of b → a ≡ b }
{}
