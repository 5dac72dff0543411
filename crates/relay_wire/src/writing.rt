//! The lines of a script, written.
ghost use Rattle.std.specs.Prelude.{◌≡◌, ◌++◌, map, option_map, IsTrue, OnOk};
ghost use Rattle.std.specs.List.{concat, list_all};
ghost use Rattle.relay_text.specs.Addresses.{is_address, path_text_of};
ghost use Rattle.relay_wire.specs.Script.{HasAddresses, crlf, greeting_line, is_sender, recipient_line, script_of, script_text};

use crate::commands::Greeting;
use crate::plan::Planned;
use relay_text::{Address, write_path};
use std::alloc::AllocError;

// Writes the greeting.
fn put_greeting(greeting: Greeting, hostname: &[u8], out: &mut Vec<u8>) -> Result<(), AllocError>
    ensures { OnOk result (out.new.items ≡ out.old.items ++ greeting_line greeting hostname.now) }
{
    out.extend_from_slice(greeting.word())?;
    out.push(b' ')?;
    out.extend_from_slice(hostname)?;
    out.extend_from_slice(b"\r\n")
}

// Says of a path's address that it's one; there is nothing to run.
fn is_valid(path: Option<&Address>)
    ensures { IsTrue (is_sender (option_map (λ a. a.now) path.entry)) }
{
    if let Some(address) = path {
        let _ = address.local();
    }
}

// Writes a command that ends with a path.
fn put_command(word: &[u8], path: Option<&Address>, out: &mut Vec<u8>) -> Result<(), AllocError>
    ensures text { OnOk result (out.new.items ≡ out.old.items ++ (word.now ++ path_text_of (option_map (λ a. a.now) path.entry) ++ crlf)) }
    ensures valid { OnOk result (IsTrue (is_sender (option_map (λ a. a.now) path.entry))) }
{
    is_valid(path);
    out.extend_from_slice(word)?;
    write_path(path, out)?;
    out.extend_from_slice(b"\r\n")
}

// Writes the command of each recipient.
fn put_recipient_commands(to: &[Address], out: &mut Vec<u8>) -> Result<(), AllocError>
    ensures text { OnOk result (out.new.items ≡ out.old.items ++ concat (map recipient_line to.now)) }
    ensures valid { OnOk result (IsTrue (list_all is_address to.now)) }
{
    for address in to {
        put_command(b"RCPT TO:", Some(address), out)?;
    }
    Ok(())
}

// Writes the script of a transaction.
pub(crate) fn put_script(
    planned: &Planned,
    hostname: &[u8],
    out: &mut Vec<u8>,
) -> Result<(), AllocError>
    ensures text { OnOk result (out.new.items ≡ out.old.items ++ script_text (script_of planned.now hostname.now)) }
    ensures valid { OnOk result (HasAddresses (script_of planned.now hostname.now)) }
{
    put_greeting(Greeting::of(planned.transport), hostname, out)?;
    put_command(b"MAIL FROM:", planned.from.as_ref(), out)?;
    put_recipient_commands(planned.to.as_slice(), out)?;
    out.extend_from_slice(b"DATA\r\n")
}
