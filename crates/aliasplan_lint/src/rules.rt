//! The rules that lines break.
use relay_text::{TextFault, parse_name, trimmed, trimmed_end, trimmed_start};
use std::alloc::{AllocError, Global};

/// The rule that a name breaks, which is none.
fn name_rule(alloc: Global, name: &[u8]) -> Result<&'static [u8], AllocError> {
    match parse_name(alloc, name) {
        Err(TextFault::Memory) => Err(AllocError),
        Err(TextFault::Empty) => Ok(b"no name"),
        Err(TextFault::BadByte) => Ok(b"a byte that may not stand in a name"),
        Err(TextFault::BadQuote) => Ok(b"no closing quote, or something behind it"),
        Err(TextFault::BadDomain) => Ok(b"a name with an @"),
        Err(TextFault::TooLong) => Ok(b"a name over 64 octets"),
        Ok(name) => {
            drop(name);
            Ok(b"no line of this file")
        }
    }
}

/// The rule that a line of an alias file breaks, a logical one, or one that continues none.
pub(crate) fn alias_rule(alloc: Global, line: Option<&[u8]>) -> Result<&'static [u8], AllocError> {
    let Some(text) = line else {
        return Ok(b"white space first, and no line before it that it could continue");
    };
    let Some(colon) = text.iter().position(|byte| *byte == b':') else {
        return Ok(b"no colon behind a name");
    };
    let name = trimmed_end(text.get(..colon).unwrap_or(text));
    if name.starts_with(b"\"") {
        return Ok(b"no name in quotes with a colon behind them");
    }
    name_rule(alloc, name)
}

/// The rule that a line of a mailbox file breaks.
pub(crate) fn mailbox_rule(alloc: Global, line: &[u8]) -> Result<&'static [u8], AllocError> {
    name_rule(alloc, trimmed(line))
}

/// What stands before the first white space of a text, and what behind it.
fn first_field(text: &[u8]) -> (&[u8], &[u8]) {
    match text.iter().position(|byte| *byte == b' ' || *byte == b'\t') {
        Some(place) => (
            text.get(..place).unwrap_or(text),
            trimmed(text.get(place..).unwrap_or(&[])),
        ),
        None => (text, &[]),
    }
}

/// The first field of a line, by which a table has it.
pub(crate) fn line_key(line: &[u8]) -> &[u8] {
    let (field, _) = first_field(trimmed_start(line));
    field
}

fn is_unprintable(byte: u8) -> bool {
    byte != b'\t' && (byte < 32 || byte > 126)
}

/// The rule that a line of a transport table breaks, a logical one, or one that continues none.
pub(crate) fn transport_rule(line: Option<&[u8]>) -> &'static [u8] {
    let Some(text) = line else {
        return b"white space first, and no line before it that it could continue";
    };
    let (_, result) = first_field(text);
    if result.is_empty() {
        b"no result behind the pattern"
    } else if result.iter().any(|byte| is_unprintable(*byte)) {
        b"a byte in the result outside printable ASCII"
    } else if !result.starts_with(b"error:") && !first_field(result).1.is_empty() {
        b"white space in a result that doesn't begin with error:"
    } else {
        b"no pattern of transport(5): an address, a domain, .domain, *, or a name and @"
    }
}

/// The rule that a line of an MX table breaks.
pub(crate) fn mx_rule(line: &[u8]) -> &'static [u8] {
    let (_, rest) = first_field(trimmed(line));
    let (word, rest) = first_field(rest);
    let (preference, host) = first_field(rest);
    if word.eq_ignore_ascii_case(b"a") {
        return if preference.is_empty() {
            b"no domain name first"
        } else {
            b"something behind A"
        };
    }
    if !word.eq_ignore_ascii_case(b"mx") {
        return b"neither MX nor A behind the domain";
    }
    if preference.is_empty() || !preference.iter().all(|byte| byte.is_ascii_digit()) {
        b"no preference in decimal digits behind MX"
    } else if host.is_empty() {
        b"no host behind the preference"
    } else if !first_field(host).1.is_empty() {
        b"something behind the host"
    } else {
        b"a domain or host that is no domain name, or a preference over 65535"
    }
}

/// Why an address has no route, by the words of its finding.
pub(crate) fn route_rule(words: &[u8]) -> &[u8] {
    match words {
        b"domain" => b"the domain has neither mail exchangers nor an address",
        b"mxself" => b"no mail exchanger is left before the relay itself",
        b"nullmx" => b"the domain takes no mail",
        b"transport" => b"no known transport, or no nexthop of its forms",
        b"refused" => b"the transport table refuses the address",
        _ => words,
    }
}
