//! The local part at the front of a text.
use crate::fault::TextFault;
use crate::inline_bytes::InlineBytes;
use crate::place::place_or_len;
use crate::run::{Part, run_at};
use std::alloc::{AllocError, Global};
use std::marker::Model;

/// The local part as it stands at the front of a text, and what follows it (RFC 5321 section 4.1.2, Local-part).
#[derive(Drop)]
pub(crate) struct Cut<'a> {
    quoted: bool,
    closed: bool,
    raw: &'a [u8],
    rest: &'a [u8],
}

impl<'a> Model for Cut<'a> {
    ghost use Rattle.relay_text.specs.Addresses.{LocalCut};

    ghost Value = { LocalCut };

    ghost view = { λ c. record { quoted = c.quoted; closed = c.closed; raw = c.raw.now; rest = c.rest.now } };
}

ghost use Rattle.std.specs.Prelude.{◌≡◌, ◌≤◌, ◌+◌, ◌++◌, ◌==◌, ◌||◌, not, codes, length, vec_len, vec_capacity, IfOk};
ghost use Rattle.std.specs.List.{list_all, position_or_len};
ghost use Rattle.relay_text.specs.Addresses.{local_cut, quoted_cut, local_of, is_local_byte, is_quotable, is_atext, is_dot, local_checks, checked, is_empty};
ghost use Rattle.relay_text.specs.Bytes.{begins_with};
ghost use Rattle.relay_text.specs.Quotes.{marks, is_quote, without_escapes};
ghost use Rattle.relay_text.specs.QuotedStrings.{is_whole_string};

impl<'a> Cut<'a> {
    /// The local part at the front of a text.
    pub(crate) fn of(bytes: &'a [u8]) -> Cut<'a>
        ensures { result ≡ local_cut bytes.now }
    {
        match bytes {
            [b'"', quoted @ ..] => Cut::quoted(quoted),
            _ => {
                let place = place_or_len(b'@', bytes);
                Cut {
                    quoted: false,
                    closed: true,
                    raw: &bytes[..place],
                    rest: &bytes[place..],
                }
            }
        }
    }

    /// A quoted local part, up to the next unescaped `"` or to the end.
    fn quoted(bytes: &'a [u8]) -> Cut<'a>
        ensures { result ≡ quoted_cut bytes.now }
    {
        let place = closing_place(bytes);
        if place < bytes.len() {
            Cut {
                quoted: true,
                closed: true,
                raw: &bytes[..place],
                rest: &bytes[place + 1..],
            }
        } else {
            Cut {
                quoted: true,
                closed: false,
                raw: bytes,
                rest: &bytes[place..],
            }
        }
    }

    /// What follows the local part: nothing, or `@` and a domain, once the checks are passed.
    pub(crate) fn rest(&self) -> &'a [u8]
        ensures { result.now ≡ self.now.rest }
    {
        self.rest
    }

    /// Whether a quoted string is all there is.
    #[tactic(auto, using(crate::proofs::Spellings::is_empty_is))]
    pub(crate) fn is_whole_string(&self) -> bool
        ensures { result ≡ is_whole_string self.now }
    {
        self.quoted && self.closed && self.rest.is_empty()
    }

    /// The first fault of the local part.
    #[tactic(auto, using(crate::proofs::Spellings::is_empty_is))]
    pub(crate) fn check(&self) -> Result<(), TextFault>
        ensures { result ≡ checked (local_checks self.now) tt }
    {
        if self.raw.is_empty() {
            return Err(TextFault::Empty);
        }
        if self.has_bad_byte() {
            return Err(TextFault::BadByte);
        }
        if !self.closed || !is_end(self.rest) {
            return Err(TextFault::BadQuote);
        }
        Ok(())
    }

    /// Whether some byte may not stand in the local part.
    #[tactic(auto, using(crate::proofs::Spellings::all_local_bytes))]
    fn has_bad_byte(&self) -> bool
        ensures { result ≡ not (list_all (is_local_byte self.now) self.now.raw) }
    {
        if self.quoted {
            !all_quotable(self.raw)
        } else {
            !all_plain(self.raw)
        }
    }

    /// The length of the local part that is spelled.
    pub(crate) fn local_len(&self) -> usize
        ensures { result ≡ length (local_of self.now) }
    {
        if self.quoted {
            unescaped_len(self.raw)
        } else {
            self.raw.len()
        }
    }

    /// The local part that is spelled. `Err` where memory runs out.
    pub(crate) fn local<const N: usize>(
        &self,
        alloc: Global,
    ) -> Result<InlineBytes<(), N>, AllocError>
        ensures { IfOk result (λ local. local.bytes ≡ local_of self.now) }
    {
        if self.quoted {
            unescaped(alloc, self.raw)
        } else {
            InlineBytes::copy_of(alloc, (), self.raw)
        }
    }
}

/// The place of the first unescaped `"`, or the length where there is none.
fn closing_place(bytes: &[u8]) -> usize
    ensures place { result ≡ position_or_len is_quote (marks bytes.now) }
    ensures within { result ≤ length bytes.now }
{
    let mut escaped = false;
    for (place, byte) in bytes.iter().enumerate() {
        if *byte == b'"' && !escaped {
            return place;
        }
        escaped = !escaped && *byte == b'\\';
    }
    bytes.len()
}

/// Whether a local part may end before this text.
#[tactic(auto, using(crate::proofs::Spellings::ends_before))]
fn is_end(rest: &[u8]) -> bool
    ensures { result ≡ (is_empty rest.now || begins_with (codes "@") rest.now) }
{
    match rest {
        [] => true,
        [first, ..] => *first == b'@',
    }
}

/// Whether every byte may stand between quotes.
fn all_quotable(raw: &[u8]) -> bool
    ensures { result ≡ list_all is_quotable raw.now }
{
    raw.iter().all(|byte| *byte >= 32 && *byte <= 126)
}

/// Whether every byte may stand outside quotes.
fn all_plain(raw: &[u8]) -> bool
    ensures { result ≡ list_all (λ b. is_atext b || is_dot b) raw.now }
{
    run_at(Part::Local, raw).len == raw.len()
}

/// How many bytes are left of a quoted string's content without its escapes.
fn unescaped_len(content: &[u8]) -> usize
    ensures { result ≡ length (without_escapes content.now) }
{
    let mut len = 0;
    let mut escaped = false;
    for byte in content {
        escaped = !escaped && *byte == b'\\';
        if !escaped {
            len += 1;
        }
    }
    len
}

/// A quoted string's content without its escapes.
fn unescaped<const N: usize>(
    alloc: Global,
    content: &[u8],
) -> Result<InlineBytes<(), N>, AllocError>
    ensures { IfOk result (λ text. text.bytes ≡ without_escapes content.now) }
{
    let mut text = Vec::with_capacity(alloc, unescaped_len(content))?;
    put_unescaped(content, &mut text);
    Ok(InlineBytes::of((), text))
}

/// Writes a quoted string's content without its escapes into room that is there.
fn put_unescaped(content: &[u8], text: &mut Vec<u8>)
    requires { vec_len text.old + length (without_escapes content.now) ≤ vec_capacity text.old }
    ensures { text.new.items ≡ text.old.items ++ without_escapes content.now }
{
    let mut escaped = false;
    for byte in content {
        escaped = !escaped && *byte == b'\\';
        if !escaped {
            text.push_reserved(*byte);
        }
    }
}
