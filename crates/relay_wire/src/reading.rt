//! The lines of a script, read in place.
ghost use Rattle.std.specs.Prelude.{◌≡◌, ℕ, ◌++◌, List, Option, option_map, IsTrue, IfOk, IfSome, IfNone};
ghost use Rattle.std.specs.List.{concat, list_all};
ghost use Rattle.std.specs.Str.{bytes_eq};
ghost use Rattle.relay_text.specs.AddressParts.{AddressParts};
ghost use Rattle.relay_text.specs.Addresses.{is_address, path_text_of};
ghost use Rattle.relay_wire.specs.declared.commands.Greeting as greetings;
ghost use Rattle.relay_wire.specs.Script.{HasRecipients, crlf, greeting_line, is_hostname, is_sender, recipient_line, recipient_lines, sender_line};

use crate::commands::Greeting;
use crate::hostname::is_hostname;
use relay_text::{Address, TextFault, parse_path, split_line, write_path};
use std::alloc::{AllocError, Global};

// What stands in a line between its first word and its end.
fn behind_word<'a>(line: &'a [u8], word: &[u8]) -> Option<&'a [u8]>
    ensures some { IfSome result (λ text. line.entry.now ≡ word.now ++ (text.now ++ crlf)) }
    ensures none { IfNone result ((text : List ℕ) → line.entry.now ≡ word.now ++ (text ++ crlf) → ⊥) }
{
    line.strip_prefix(word)?.strip_suffix(b"\r\n")
}

// The greeting of a line, and its host name.
pub(crate) fn greeting_in(line: &[u8]) -> Option<(Greeting, &[u8])>
    ensures some { IfSome result (λ found. IsTrue (is_hostname found.1.now) × (line.now ≡ greeting_line found.0 found.1.now)) }
    ensures none { IfNone result ((greeting : greetings.Greeting) (hostname : List ℕ) → IsTrue (is_hostname hostname) → line.now ≡ greeting_line greeting hostname → ⊥) }
{
    let (greeting, hostname) = match behind_word(line, b"EHLO ") {
        Some(hostname) => (Greeting::Ehlo, hostname),
        None => (Greeting::Lhlo, behind_word(line, b"LHLO ")?),
    };
    if !is_hostname(hostname) {
        return None;
    }
    Some((greeting, hostname))
}

// Whether a text is the one spelling of a path; `spelled` is room to write it.
fn is_spelling(
    path: Option<&Address>,
    text: &[u8],
    spelled: &mut Vec<u8>,
) -> Result<bool, AllocError>
    ensures { IfOk result (λ same. same ≡ bytes_eq (path_text_of (option_map (λ a. a.now) path.entry)) text.now) }
{
    spelled.clear();
    write_path(path, spelled)?;
    Ok(spelled.as_slice() == text)
}

// The path that a text is the one spelling of; `spelled` is room to write a path.
#[tactic(auto, unfolding(relay_text::specs::Addresses::is_origin, relay_text::specs::Addresses::is_domain))]
fn path_in(
    alloc: Global,
    text: &[u8],
    spelled: &mut Vec<u8>,
) -> Result<Option<Option<Address>>, AllocError>
    ensures some { IfOk result (λ found. IfSome found (λ path. IsTrue (is_sender path) × (text.now ≡ path_text_of path))) }
    ensures none { IfOk result (λ found. IfNone found ((path : Option AddressParts) → IsTrue (is_sender path) → text.now ≡ path_text_of path → ⊥)) }
{
    let path = match parse_path(alloc, text, b"localhost") {
        Ok(path) => path,
        Err(fault) => {
            return match fault {
                TextFault::Memory => Err(AllocError),
                _ => Ok(None),
            };
        }
    };
    let is_same = is_spelling(path.as_ref(), text, spelled)?;
    if !is_same {
        return Ok(None);
    }
    Ok(Some(path))
}

// The sender of a line; `spelled` is room to write a path.
pub(crate) fn sender_in(
    alloc: Global,
    line: &[u8],
    spelled: &mut Vec<u8>,
) -> Result<Option<Option<Address>>, AllocError>
    ensures some { IfOk result (λ found. IfSome found (λ from. IsTrue (is_sender from) × (line.now ≡ sender_line from))) }
    ensures none { IfOk result (λ found. IfNone found ((from : Option AddressParts) → IsTrue (is_sender from) → line.now ≡ sender_line from → ⊥)) }
{
    match behind_word(line, b"MAIL FROM:") {
        Some(text) => path_in(alloc, text, spelled),
        None => Ok(None),
    }
}

// The recipient of a line; `spelled` is room to write a path.
fn recipient_in(
    alloc: Global,
    line: &[u8],
    spelled: &mut Vec<u8>,
) -> Result<Option<Address>, AllocError>
    ensures some { IfOk result (λ found. IfSome found (λ a. IsTrue (is_address a) × (line.now ≡ recipient_line a))) }
    ensures none { IfOk result (λ found. IfNone found ((a : AddressParts) → IsTrue (is_address a) → line.now ≡ recipient_line a → ⊥)) }
{
    let Some(text) = behind_word(line, b"RCPT TO:") else {
        return Ok(None);
    };
    match path_in(alloc, text, spelled)? {
        Some(path) => Ok(path),
        None => Ok(None),
    }
}

// The recipients of the lines up to `DATA`, behind which nothing stands; `spelled` is room to write a path.
pub(crate) fn read_recipients(
    alloc: Global,
    bytes: &[u8],
    spelled: &mut Vec<u8>,
) -> Result<Option<Vec<Address>>, AllocError>
    ensures some { IfOk result (λ found. IfSome found (λ to. IsTrue (list_all is_address to.items) × (bytes.now ≡ concat (recipient_lines to.items)))) }
    ensures none { IfOk result (λ found. IfNone found (HasRecipients bytes.now → ⊥)) }
{
    let mut to = Vec::new(alloc);
    let mut rest = bytes;
    while let Some((line, after)) = split_line(rest) {
        if line == b"DATA\r\n".as_slice() {
            if !after.is_empty() {
                return Ok(None);
            }
            return Ok(Some(to));
        }
        let Some(address) = recipient_in(alloc, line, spelled)? else {
            return Ok(None);
        };
        to.push(address)?;
        rest = after;
    }
    Ok(None)
}
