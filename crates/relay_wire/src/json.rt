//! JSON (RFC 8259) of bytes that need not be UTF-8: a string has each byte as the character of its number, so Latin-1 gives the bytes back.
//!
//! What is written is ASCII, without white space between tokens. Each call has `Err` where memory runs out; then some front of what was
//! to come stands behind what was there.
ghost use Rattle.std.specs.Prelude.{◌≡◌, ◌<◌, ◌∷◌, ◌++◌, decimal, flat_map, map, option_map, OnOk};
ghost use Rattle.std.specs.Char.{digit_char};
ghost use Rattle.relay_text.specs.Addresses.{path_text_of};
ghost use Rattle.relay_wire.specs.Json.{comma_at, escape_letter, json_byte, json_key, json_string, json_strings, number_escape, with_commas};

use itoa::Buffer;
use relay_text::{Address, Text, path_len, write_path};
use std::alloc::{AllocError, Global};

fn hexadecimal(digit: u8) -> u8
    requires { digit < 16 }
    ensures { result ≡ digit_char digit }
{
    if digit < 10 {
        b'0' + digit
    } else {
        b'a' - 10 + digit
    }
}

// Puts a byte's number as an escape.
fn put_number_escape(byte: u8, out: &mut Vec<u8>) -> Result<(), AllocError>
    ensures { OnOk result (out.new.items ≡ out.old.items ++ number_escape byte) }
{
    out.extend_from_slice(b"\\u00")?;
    out.push(hexadecimal(byte / 16))?;
    out.push(hexadecimal(byte % 16))?;
    Ok(())
}

// The letter of a byte's short escape.
fn escape_letter(byte: u8) -> Option<u8>
    ensures { result ≡ escape_letter byte }
{
    match byte {
        b'"' | b'\\' => Some(byte),
        8 => Some(b'b'),
        b'\t' => Some(b't'),
        b'\n' => Some(b'n'),
        12 => Some(b'f'),
        b'\r' => Some(b'r'),
        _ => None,
    }
}

// Puts what stands in a string for a byte.
fn put_byte(byte: u8, out: &mut Vec<u8>) -> Result<(), AllocError>
    ensures { OnOk result (out.new.items ≡ out.old.items ++ json_byte byte) }
{
    if let Some(letter) = escape_letter(byte) {
        return out.extend_from_slice(&[b'\\', letter]);
    }
    if byte < 32 || byte >= 128 {
        return put_number_escape(byte, out);
    }
    out.push(byte)?;
    Ok(())
}

// Puts what stands in a string for bytes.
fn put_bytes(text: &[u8], out: &mut Vec<u8>) -> Result<(), AllocError>
    ensures { OnOk result (out.new.items ≡ out.old.items ++ flat_map json_byte text.now) }
{
    for byte in text {
        put_byte(*byte, out)?;
    }
    Ok(())
}

/// Puts a string of these bytes at the end.
pub fn put_json_string(text: &[u8], out: &mut Vec<u8>) -> Result<(), AllocError>
    ensures { OnOk result (out.new.items ≡ out.old.items ++ json_string text.now) }
{
    out.push(b'"')?;
    put_bytes(text, out)?;
    out.push(b'"')?;
    Ok(())
}

/// Puts the name of a member and its colon at the end, with the byte before it: `{` where it's the first, else `,`.
pub fn put_json_key(before: u8, name: &[u8], out: &mut Vec<u8>) -> Result<(), AllocError>
    ensures { OnOk result (out.new.items ≡ out.old.items ++ before ∷ json_key name.now) }
{
    out.push(before)?;
    put_json_string(name, out)?;
    out.push(b':')?;
    Ok(())
}

/// Puts a number at the end.
pub fn put_json_number(number: usize, out: &mut Vec<u8>) -> Result<(), AllocError>
    ensures { OnOk result (out.new.items ≡ out.old.items ++ decimal number) }
{
    out.extend_from_slice(Buffer::new().format(number).as_bytes())
}

/// Puts the string of a path at the end, `<>` for the null sender, which is `None`.
pub fn put_json_path(
    alloc: Global,
    address: Option<&Address>,
    out: &mut Vec<u8>,
) -> Result<(), AllocError>
    ensures { OnOk result (out.new.items ≡ out.old.items ++ json_string (path_text_of (option_map (λ a. a.now) address.entry))) }
{
    let mut path = Vec::with_capacity(alloc, path_len(address))?;
    write_path(address, &mut path)?;
    put_json_string(&path, out)
}

/// Puts the comma at the end that stands before the value of this index in an array; before the first there is none.
pub fn put_json_comma(index: usize, out: &mut Vec<u8>) -> Result<(), AllocError>
    ensures { OnOk result (out.new.items ≡ out.old.items ++ comma_at index) }
{
    if index > 0 {
        out.push(b',')?;
    }
    Ok(())
}

// Puts strings with commas between them.
fn put_strings(texts: &[Text], out: &mut Vec<u8>) -> Result<(), AllocError>
    ensures { OnOk result (out.new.items ≡ out.old.items ++ with_commas (map json_string texts.now)) }
{
    for (index, text) in texts.iter().enumerate() {
        put_json_comma(index, out)?;
        put_json_string(text.as_bytes(), out)?;
    }
    Ok(())
}

/// Puts an array of strings at the end.
pub fn put_json_strings(texts: &[Text], out: &mut Vec<u8>) -> Result<(), AllocError>
    ensures { OnOk result (out.new.items ≡ out.old.items ++ json_strings texts.now) }
{
    out.push(b'[')?;
    put_strings(texts, out)?;
    out.push(b']')?;
    Ok(())
}
