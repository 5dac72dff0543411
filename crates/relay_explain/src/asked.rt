//! What is asked for.
use relay_text::Address;

/// An address, or a local name.
#[derive(Drop)]
pub enum Asked {
    Address(Address),
    /// The local part of this address, whose domain says nothing.
    Name(Address),
}

ghost use Rattle.std.specs.Prelude.{◌≡◌, ◌++◌, Ok, IfOk, OnOk};
ghost use Rattle.relay_text.specs.Addresses.{Answers, address_of, result_map, spelling_of};
ghost use Rattle.relay_wire.specs.Findings.{after_spaces};
ghost use Rattle.relay_explain.specs.AskedTexts.{asked_as, asked_of, inner_text, no_domain};
ghost use Rattle.relay_explain.specs.ExplanationText.{asked_words};

use relay_text::{TextFault, parse_address, parse_name};
use relay_wire::{put_name, put_path};
use std::alloc::{AllocError, Global};

/// What stands between `<` and `>`, where these are the first and the last byte; else the text.
fn inner_text(text: &[u8]) -> &[u8]
    ensures { result.now ≡ inner_text text.now }
{
    let len = text.len();
    if len > 1 && text[0] == b'<' && text[len - 1] == b'>' {
        &text[1..len - 1]
    } else {
        text
    }
}

/// What a text asks for that is this address where it has no domain.
fn asked_with(alloc: Global, text: &[u8], address: Address) -> Result<Asked, TextFault>
    requires { address_of no_domain text.now ≡ Ok address }
    ensures { Answers result (result_map asked_as (spelling_of text.now)) }
{
    match parse_name(alloc, text) {
        Ok(_) => Ok(Asked::Name(address)),
        Err(fault) => match fault {
            TextFault::Memory => Err(fault),
            _ => Ok(Asked::Address(address)),
        },
    }
}

impl Asked {
    /// The name or the address that a text spells, in angle brackets or without (RFC 5321 section 4.1.2, Mailbox): a name where no domain
    /// stands in it. The faults are those of `parse_address`.
    #[tactic(auto, unfolding(crate::specs::AskedTexts::asked_of))]
    pub fn parse(alloc: Global, bytes: &[u8]) -> Result<Asked, TextFault>
        ensures { Answers result (asked_of bytes.now) }
    {
        let text = inner_text(bytes);
        match parse_address(alloc, text, b"localhost") {
            Ok(address) => asked_with(alloc, text, address),
            Err(fault) => Err(fault),
        }
    }

    /// A copy of its own. `Err` where memory runs out.
    pub fn copy(&self, alloc: Global) -> Result<Asked, AllocError>
        ensures { IfOk result (λ asked. asked ≡ self.now) }
    {
        match self {
            Asked::Address(address) => Ok(Asked::Address(address.copy(alloc)?)),
            Asked::Name(address) => Ok(Asked::Name(address.copy(alloc)?)),
        }
    }

    pub(crate) fn put(&self, out: &mut Vec<u8>) -> Result<(), AllocError>
        ensures { OnOk result (out.new.items ≡ out.old.items ++ after_spaces (asked_words self.now)) }
    {
        match self {
            Asked::Address(address) => put_path(Some(address), out),
            Asked::Name(address) => put_name(address.local(), out),
        }
    }
}
