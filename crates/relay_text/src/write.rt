//! The one spelling of each address.
ghost use Rattle.std.specs.Prelude.{◌≡◌, ◌+◌, ◌^◌, ◌++◌, ◌∷◌, [], ◌<◌, ◌≤◌, ◌==◌, ◌||◌, List, ℕ, length, flat_map, count_by, Option, Some, None, Ok, option_map, vec_len, vec_capacity, IsTrue, IfSome, IfNone, OnOk, OnErr};
ghost use Rattle.std.specs.List.{list_all};
ghost use Rattle.relay_text.specs.AddressParts.{AddressParts};
ghost use Rattle.relay_text.specs.JoinedAddresses.{address_text_of};
ghost use Rattle.relay_text.specs.Addresses.{is_address, is_atext, is_dot_string, is_quotable, quoted_byte, path_of, path_text_of, local_text_of, name_of};

use crate::address::Address;
use crate::local::{is_dot_string, local_text_len, needs_escape, quoted_len};
use crate::room::put_bytes;
use std::alloc::AllocError;

/// Writes a byte of a local part as it stands between quotes into room that is there.
#[inline]
fn put_quoted_byte(byte: u8, out: &mut Vec<u8>)
    requires { vec_len out.old + length (quoted_byte byte) ≤ vec_capacity out.old }
    ensures items { out.new.items ≡ out.old.items ++ quoted_byte byte }
    ensures len { vec_len out.new ≡ vec_len out.old + length (quoted_byte byte) }
    ensures capacity { vec_capacity out.old ≤ vec_capacity out.new }
{
    if needs_escape(byte) {
        out.push_reserved(b'\\');
    }
    out.push_reserved(byte);
}

/// Writes a local part between quotes into room that is there.
fn put_quoted(local: &[u8], out: &mut Vec<u8>)
    requires { vec_len out.old + (length (flat_map quoted_byte local.now) + 2) ≤ vec_capacity out.old }
    ensures items { out.new.items ≡ out.old.items ++ (34 ∷ flat_map quoted_byte local.now ++ 34 ∷ []) }
    ensures len { vec_len out.new ≡ vec_len out.old + (length (flat_map quoted_byte local.now) + 2) }
    ensures capacity { vec_capacity out.old ≤ vec_capacity out.new }
{
    out.push_reserved(b'"');
    for byte in local {
        put_quoted_byte(*byte, out);
    }
    out.push_reserved(b'"');
}

/// How many octets stand between the brackets of a path: at most 254 (RFC 5321 section 4.5.3.1.3).
#[tactic(auto, using(crate::proofs::JoinedAddresses::address_text_plain, crate::proofs::JoinedAddresses::address_text_length))]
fn inner_len(address: &Address) -> usize
    ensures value { result ≡ length (address_text_of address.now) }
    ensures fits { result ≤ 254 }
{
    if address.is_plain() {
        return address.joined().len();
    }
    local_text_len(address.local()) + address.domain().len() + 1
}

/// Writes what stands between the brackets of a path into room that is there.
#[tactic(auto, using(crate::proofs::JoinedAddresses::address_text_plain, crate::proofs::JoinedAddresses::address_text_quoted))]
fn put_address(address: &Address, out: &mut Vec<u8>)
    requires { vec_len out.old + length (address_text_of address.now) ≤ vec_capacity out.old }
    ensures items { out.new.items ≡ out.old.items ++ address_text_of address.now }
    ensures len { vec_len out.new ≡ vec_len out.old + length (address_text_of address.now) }
    ensures capacity { vec_capacity out.old ≤ vec_capacity out.new }
{
    if address.is_plain() {
        put_bytes(address.joined(), out);
        return;
    }
    put_quoted(address.local(), out);
    out.push_reserved(b'@');
    put_bytes(address.domain(), out);
}

/// How many octets `write_path` writes of an address, with `<`, `@` and `>`: 2 where there is none, and at most 256
/// (RFC 5321 section 4.5.3.1.3).
pub fn path_len(address: Option<&Address>) -> usize
    ensures { result ≡ length (path_text_of (option_map (λ a. a.now) address.entry)) }
{
    match address {
        None => 2,
        Some(address) => inner_len(address) + 2,
    }
}

/// Writes the one spelling of a local part at the end: as it is where it's a Dot-string, else between quotes, with `\` before
/// `"` and `\` (RFC 5321 section 4.1.2, Local-part). `Err` where memory runs out; then nothing is written.
pub fn write_local(local: &[u8], out: &mut Vec<u8>) -> Result<(), AllocError>
    ensures ok { OnOk result (out.new.items ≡ out.old.items ++ local_text_of local.now) }
    ensures err { OnErr result (out.new.items ≡ out.old.items) }
    ensures full { OnErr result (vec_capacity out.old < vec_len out.old + length (local_text_of local.now)) }
{
    if is_dot_string(local) {
        return out.extend_from_slice(local);
    }
    let Some(len) = quoted_len(local) else {
        return Err(AllocError);
    };
    out.reserve(len)?;
    put_quoted(local, out);
    Ok(())
}

/// Writes the one spelling of a path at the end: `<`, the local part as `write_local` does, `@`, the domain and `>`; `<>` where
/// there is no address (RFC 5321 section 4.1.2, Path). `Err` where memory runs out; then nothing is written.
pub fn write_path(address: Option<&Address>, out: &mut Vec<u8>) -> Result<(), AllocError>
    ensures ok { OnOk result (out.new.items ≡ out.old.items ++ path_text_of (option_map (λ a. a.now) address.entry)) }
    ensures fits { OnOk result (length (path_text_of (option_map (λ a. a.now) address.entry)) ≤ 256) }
    ensures err { OnErr result (out.new.items ≡ out.old.items) }
    ensures full { OnErr result (vec_capacity out.old < vec_len out.old + length (path_text_of (option_map (λ a. a.now) address.entry))) }
{
    let Some(address) = address else {
        return out.extend_from_slice(b"<>");
    };
    out.reserve(inner_len(address) + 2)?;
    out.push_reserved(b'<');
    put_address(address, out);
    out.push_reserved(b'>');
    Ok(())
}

/// A law, with nothing to run: the null path `<>` reads back as no address (RFC 5321 section 4.1.2, Path).
pub fn null_path()
    ensures { (origin : List ℕ) → path_of origin (path_text_of None) ≡ Ok None }
{}

/// A law, with nothing to run: each address has one path, which reads back as that address, at any origin (RFC 5321 section 4.1.2,
/// Path).
pub fn one_spelling()
    ensures reads_back { (origin : List ℕ) (a : AddressParts) → IsTrue (is_address a) → path_of origin (path_text_of (Some a)) ≡ Ok (Some a) }
    ensures one_address { (a b : AddressParts) → IsTrue (is_address a) → IsTrue (is_address b) → path_text_of (Some a) ≡ path_text_of (Some b) → a ≡ b }
{}

/// A law, with nothing to run: a local part of at most 64 octets as it is written reads back from there as a name (RFC 5321 section
/// 4.5.3.1.1).
pub fn one_name()
    ensures { (local : List ℕ) → 0 < length local → IsTrue (list_all is_quotable local) → length (local_text_of local) ≤ 64 → name_of (local_text_of local) ≡ Ok local }
{}
