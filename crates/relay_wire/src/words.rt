//! Words of a line, each with a space before it, whole lines, and the text of what was put.
ghost use Rattle.std.specs.Prelude.{◌≡◌, ◌∷◌, ◌++◌, [], ℕ, List, decimal, option_map, IfOk, OnOk};
ghost use Rattle.relay_text.specs.Addresses.{local_text_of, path_text_of};
ghost use Rattle.relay_wire.specs.Findings.{after_spaces};
ghost use Rattle.relay_wire.specs.PlanText.{line, lines_of};

use crate::lengths::texts_len;
use itoa::Buffer;
use relay_text::{Address, Text, write_local, write_path};
use std::alloc::AllocError;

/// Puts a space and a word at the end. A word may have spaces of its own. `Err` where memory runs out; then some front of what was to
/// come stands behind what was there.
pub fn put_word(word: &[u8], out: &mut Vec<u8>) -> Result<(), AllocError>
    ensures { OnOk result (out.new.items ≡ out.old.items ++ 32 ∷ word.now) }
{
    out.push(b' ')?;
    out.extend_from_slice(word)
}

/// Puts a space and a number in decimal digits at the end. `Err` as in `put_word`.
pub fn put_number(number: usize, out: &mut Vec<u8>) -> Result<(), AllocError>
    ensures { OnOk result (out.new.items ≡ out.old.items ++ 32 ∷ decimal number) }
{
    put_word(Buffer::new().format(number).as_bytes(), out)
}

/// Puts a space and a name at the end, in the one spelling of a local part: in quotes where it has to be. `Err` as in `put_word`.
pub fn put_name(name: &[u8], out: &mut Vec<u8>) -> Result<(), AllocError>
    ensures { OnOk result (out.new.items ≡ out.old.items ++ 32 ∷ local_text_of name.now) }
{
    out.push(b' ')?;
    write_local(name, out)
}

/// Puts a space and a path at the end, `<>` for the null sender, which is `None`. `Err` as in `put_word`.
pub fn put_path(address: Option<&Address>, out: &mut Vec<u8>) -> Result<(), AllocError>
    ensures { OnOk result (out.new.items ≡ out.old.items ++ 32 ∷ path_text_of (option_map (λ a. a.now) address.entry)) }
{
    out.push(b' ')?;
    write_path(address, out)
}

/// Puts a number and the word for what it counts at the end, each with a space before it. `Err` as in `put_word`.
pub fn put_count(number: usize, counted: &[u8], out: &mut Vec<u8>) -> Result<(), AllocError>
    ensures { OnOk result (out.new.items ≡ out.old.items ++ after_spaces (decimal number ∷ counted.now ∷ [])) }
{
    put_number(number, out)?;
    put_word(counted, out)
}

/// Puts lines at the end, which are given without their ends. `Err` as in `put_word`.
pub fn put_lines(lines: &[Text], out: &mut Vec<u8>) -> Result<(), AllocError>
    ensures { OnOk result (out.new.items ≡ out.old.items ++ lines_of lines.now) }
{
    // Room for all at once, so that none of them moves what is there.
    out.reserve(texts_len(lines, b"\n".len()))?;
    put_each_line(lines, out)
}

/// Puts lines at the end as `put_lines` does, where their room was reckoned before. `Err` as in `put_word`.
pub(crate) fn put_each_line(lines: &[Text], out: &mut Vec<u8>) -> Result<(), AllocError>
    ensures { OnOk result (out.new.items ≡ out.old.items ++ lines_of lines.now) }
{
    for text in lines {
        put_line(text.as_bytes(), out)?;
    }
    Ok(())
}

// Puts a line at the end, which is given without its end.
pub(crate) fn put_line(text: &[u8], out: &mut Vec<u8>) -> Result<(), AllocError>
    ensures { OnOk result (out.new.items ≡ out.old.items ++ line text.now) }
{
    out.extend_from_slice(text)?;
    end_line(out)
}

// Puts the end of a line.
#[inline]
pub(crate) fn end_line(out: &mut Vec<u8>) -> Result<(), AllocError>
    ensures { OnOk result (out.new.items ≡ out.old.items ++ 10 ∷ []) }
{
    out.push(b'\n')?;
    Ok(())
}

// The text of what was put, or the `Err` of putting it.
pub(crate) fn text_put(put: Result<(), AllocError>, out: Vec<u8>) -> Result<Text, AllocError>
    ensures { (bytes : List ℕ) → OnOk put (out.items ≡ bytes) → IfOk result (λ text. text ≡ bytes) }
{
    put?;
    Ok(Text::of(out))
}
