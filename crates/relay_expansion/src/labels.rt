//! Labels of a graph for Graphviz.
ghost use Rattle.std.specs.Prelude.{◌≡◌, ◌++◌, OnOk};
ghost use Rattle.relay_expansion.specs.Dots.{label_byte, label_text, octal_text};

use std::alloc::AllocError;

/// Puts a byte by its number, in three octal digits behind a backslash that stands for itself.
fn put_octal(byte: u8, out: &mut Vec<u8>) -> Result<(), AllocError>
    ensures { OnOk result (out.new.items ≡ out.old.items ++ octal_text byte) }
{
    out.extend_from_slice(&[
        b'\\',
        b'\\',
        b'0' + byte / 64,
        b'0' + byte / 8 % 8,
        b'0' + byte % 8,
    ])
}

/// Puts what stands in a label for a byte. A quote, an escape or the beginning of a character's name is kept from being one.
#[tactic(auto, unfolding(crate::specs::Dots::label_byte))]
fn put_byte(byte: u8, out: &mut Vec<u8>) -> Result<(), AllocError>
    ensures { OnOk result (out.new.items ≡ out.old.items ++ label_byte byte) }
{
    if byte == b'"' || byte == b'\\' {
        return out.extend_from_slice(&[b'\\', byte]);
    }
    if byte == b'&' {
        return out.extend_from_slice(b"&amp;");
    }
    if byte < 32 || byte > 126 {
        return put_octal(byte, out);
    }
    out.push(byte)?;
    Ok(())
}

/// Puts these bytes as they stand in a label between quotes.
pub(crate) fn put_label(text: &[u8], out: &mut Vec<u8>) -> Result<(), AllocError>
    ensures { OnOk result (out.new.items ≡ out.old.items ++ label_text text.now) }
{
    for byte in text {
        put_byte(*byte, out)?;
    }
    Ok(())
}
