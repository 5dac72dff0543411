//! The nexthops that name a host.
ghost use Rattle.std.specs.Prelude.{◌≡◌, ◌≤◌, ◌==◌, ◌||◌, ◌&&◌, length, drop, Some, None, option_map, if◌then◌else◌};
ghost use Rattle.std.specs.List.{list_all, position_or_len};
ghost use Rattle.std.specs.Char.{is_ascii_alphanumeric};
ghost use Rattle.relay_text.specs.Addresses.{is_run_of};
ghost use Rattle.relay_text.specs.Bytes.{begins_with_word};
ghost use Rattle.relay_routes.specs.Nexthops.{is_port, named_host, bracketed_host, host_form, inet_form};
ghost use Rattle.relay_routes.specs.Forms.{hosted};

use relay_text::{begins_with_word, is_domain_name, is_literal_content};

/// A host as a nexthop names it, read in place (smtp(8), "SMTP DESTINATION SYNTAX").
#[derive(Drop)]
pub(crate) struct HostForm<'a> {
    /// The whole nexthop.
    pub(crate) text: &'a [u8],
    /// The host, without brackets.
    pub(crate) host: &'a [u8],
    /// Nothing, or `:` and the port.
    pub(crate) port: &'a [u8],
    /// Whether the host's mail exchangers are looked up.
    pub(crate) looks_up: bool,
}

/// `host`, `host:port`, `[host]` or `[host]:port`.
pub(crate) fn host_form(text: &[u8]) -> Option<HostForm<'_>>
    ensures { option_map hosted result ≡ host_form text.now }
{
    match named_host(text) {
        Some(form) => Some(form),
        None => bracketed_host(text),
    }
}

/// `inet:` and a host of these forms (lmtp(8), "LMTP DESTINATION SYNTAX").
pub(crate) fn inet_form(text: &[u8]) -> Option<HostForm<'_>>
    ensures { option_map hosted result ≡ inet_form text.now }
{
    let named = after_word(b"inet:", text)?;
    match host_form(named) {
        Some(form) => Some(HostForm {
            text,
            host: form.host,
            port: form.port,
            looks_up: form.looks_up,
        }),
        None => None,
    }
}

/// What follows a word at the front of a text. The word is given in lower case, and its letters may stand in any case.
pub(crate) fn after_word<'a>(word: &[u8], text: &'a [u8]) -> Option<&'a [u8]>
    ensures { option_map (λ rest. rest.now) result ≡ (if begins_with_word word.now text.now then Some (drop (length word.now) text.now) else None) }
{
    if !begins_with_word(word, text) {
        return None;
    }
    Some(&text[word.len()..])
}

/// `host` or `host:port`.
fn named_host(text: &[u8]) -> Option<HostForm<'_>>
    ensures { option_map hosted result ≡ named_host text.now }
{
    // Most nexthops are a name alone, and no name has a colon.
    if is_domain_name(text) {
        return Some(HostForm {
            text,
            host: text,
            port: b"",
            looks_up: true,
        });
    }
    let (host, port) = text.split_at(place_of(b':', text));
    if is_domain_name(host) && is_port(port) {
        Some(HostForm {
            text,
            host,
            port,
            looks_up: true,
        })
    } else {
        None
    }
}

/// `[host]` or `[host]:port`.
fn bracketed_host(text: &[u8]) -> Option<HostForm<'_>>
    ensures { option_map hosted result ≡ bracketed_host text.now }
{
    let [b'[', inner @ ..] = text else {
        return None;
    };
    let (host, rest) = inner.split_at(place_of(b']', inner));
    let [_, port @ ..] = rest else {
        return None;
    };
    if is_literal_content(host) && is_port(port) {
        Some(HostForm {
            text,
            host,
            port,
            looks_up: false,
        })
    } else {
        None
    }
}

/// The place of the first such byte, or the length where there is none.
pub(crate) fn place_of(byte: u8, text: &[u8]) -> usize
    ensures place { result ≡ position_or_len (λ b. b == byte) text.now }
    ensures within { result ≤ length text.now }
{
    for (place, other) in text.iter().enumerate() {
        if *other == byte {
            return place;
        }
    }
    text.len()
}

/// Whether a text is nothing, or `:` and a run of at least one letter, digit or hyphen: a number or a service's name.
#[tactic(auto, using(crate::proofs::Readings::is_run_of_some))]
fn is_port(text: &[u8]) -> bool
    ensures { result ≡ is_port text.now }
{
    match text {
        [] => true,
        [b':', port @ ..] => !port.is_empty() && all_port_bytes(port),
        _ => false,
    }
}

/// Whether every byte is a letter, a digit or a hyphen.
fn all_port_bytes(text: &[u8]) -> bool
    ensures { result ≡ list_all (λ b. is_ascii_alphanumeric b || (b == 45)) text.now }
{
    for byte in text {
        if !byte.is_ascii_alphanumeric() && *byte != b'-' {
            return false;
        }
    }
    true
}
