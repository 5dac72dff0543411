//! Tables and addresses in scattered order.
ghost use Rattle.std.specs.Prelude.{◌≡◌, ◌<◌, IfOk, vec_len};

use crate::shuffling::shuffled;
use anyhow::{Context, Result};
use relay_text::{Address, TextFault, parse_address};
use std::alloc::{AllocError, Global};

// The domain whose mail exchangers a pattern names: one for each two patterns.
fn nexthop_of(number: u32) -> u32 {
    number / 2
}

/// The patterns of `count` parent domains, each with a nexthop whose mail exchangers are looked up.
pub fn patterns(alloc: Global, count: u32) -> Result<String, AllocError> {
    let mut text = String::new(alloc);
    for number in 0..count {
        let pattern = shuffled(number, count);
        let nexthop = nexthop_of(pattern);
        writeln!(text, ".p{pattern}.example.net smtp:x{nexthop}.example.com")?;
    }
    Ok(text)
}

/// The records of `count` mail exchangers, two of one preference to each domain.
pub fn records(alloc: Global, count: u32) -> Result<String, AllocError> {
    let mut text = String::new(alloc);
    for number in 0..count {
        let record = shuffled(number, count);
        let domain = nexthop_of(record);
        writeln!(text, "x{domain}.example.com MX 10 mx{record}.example.com")?;
    }
    Ok(text)
}

/// The records of `count` mail exchangers of one domain and one preference.
pub fn records_of_one(alloc: Global, count: u32) -> Result<String, AllocError> {
    let mut text = String::new(alloc);
    for number in 0..count {
        let record = shuffled(number, count);
        writeln!(text, "example.com MX 10 mx{record}.example.com")?;
    }
    Ok(text)
}

#[tactic(auto, unfolding(relay_text::specs::Addresses::is_origin, relay_text::specs::Addresses::is_domain))]
fn address(alloc: Global, text: &[u8]) -> Result<Address, TextFault> {
    parse_address(alloc, text, b"example.org")
}

// The address of this number, of so many.
fn numbered_address(alloc: Global, number: u32, count: u32) -> Result<Address>
    requires { number < count }
{
    let pattern = shuffled(count - 1 - number, count);
    let text = format!(in alloc; "u{number}@a.b.p{pattern}.example.net")?;
    let address = address(alloc, text.as_bytes());
    address.ok().context("reading an address")
}

/// An address below each parent domain, two labels deeper.
pub fn addresses(alloc: Global, count: u32) -> Result<Vec<Address>>
    ensures { IfOk result (λ addresses. vec_len addresses ≡ count) }
{
    let mut addresses = Vec::new(alloc);
    for number in 0..count {
        addresses.push(numbered_address(alloc, number, count)?)?;
    }
    Ok(addresses)
}
