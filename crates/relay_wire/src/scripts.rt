//! The commands of a transaction.
ghost use Rattle.std.specs.Prelude.{◌≡◌, ◌≤◌, length, All, IsTrue, IfOk, IfSome, IfNone, OnOk};
ghost use Rattle.relay_wire.specs.declared.commands.Script as scripts;
ghost use Rattle.relay_wire.specs.Script.{is_hostname, is_script, script_lines, script_of, script_text};

use crate::commands::Script;
use crate::lengths::script_len;
use crate::plan::Planned;
use crate::reading::{greeting_in, read_recipients, sender_in};
use crate::writing::put_script;
use relay_text::{Seq, Text, split_line};
use std::alloc::{AllocError, Global};

/// The most octets of a path as it is written (RFC 5321 section 4.5.3.1.3).
const MAX_PATH: usize = 256;

/// The commands that hand a transaction over, up to the message itself: `EHLO` (over LMTP `LHLO`) and the host name, `MAIL FROM:` and
/// the sender's path, `RCPT TO:` and the path of each recipient, and `DATA` (RFC 5321 sections 3.3 and 4.1.1, RFC 2033 section 4.1). Each
/// stands on a line of its own that ends with CR and LF and has at most 512 octets with them (RFC 5321 section 4.5.3.1.4).
///
/// The host name is the client's: a folded domain of at most 255 octets, as `is_hostname` tells. `Err` where memory runs out.
pub fn script(alloc: Global, planned: &Planned, hostname: &[u8]) -> Result<Text, AllocError>
    requires { IsTrue (is_hostname hostname.now) }
    ensures text { IfOk result (λ text. text ≡ script_text (script_of planned.now hostname.now)) }
    ensures valid { OnOk result (IsTrue (is_script (script_of planned.now hostname.now))) }
    ensures lines { OnOk result (All (λ line. length line ≤ 512) (script_lines (script_of planned.now hostname.now))) }
{
    let mut out = Vec::with_capacity(alloc, script_len(planned, hostname))?;
    put_script(planned, hostname, &mut out)?;
    Ok(Text::of(out))
}

/// What a script says: its greeting, host name, sender and recipients; `None` where the bytes are no script that `script` writes.
///
/// One spelling is taken alone: the commands in capitals, each path as `write_path` spells it, the host name in lower case, and CR and
/// LF behind each line and nowhere else. What `script` wrote reads back as what the transaction had. A script may have no recipient, and
/// the same one more than once. `Err` where memory runs out.
pub fn read_script(alloc: Global, bytes: &[u8]) -> Result<Option<Script>, AllocError>
    ensures found { IfOk result (λ found. IfSome found (λ script. IsTrue (is_script script) × (bytes.now ≡ script_text script))) }
    ensures none { IfOk result (λ found. IfNone found ((script : scripts.Script) → IsTrue (is_script script) → bytes.now ≡ script_text script → ⊥)) }
{
    let Some((first, behind_first)) = split_line(bytes) else {
        return Ok(None);
    };
    let Some((greeting, hostname)) = greeting_in(first) else {
        return Ok(None);
    };
    let Some((second, behind_second)) = split_line(behind_first) else {
        return Ok(None);
    };
    let mut spelled = Vec::with_capacity(alloc, MAX_PATH)?;
    let Some(from) = sender_in(alloc, second, &mut spelled)? else {
        return Ok(None);
    };
    let Some(to) = read_recipients(alloc, behind_second, &mut spelled)? else {
        return Ok(None);
    };
    let hostname = Text::of(Vec::from_slice(alloc, hostname)?);
    Ok(Some(Script {
        greeting,
        hostname,
        from,
        to: Seq::of(to),
    }))
}

/// A law, with nothing to run: a script's text determines what it says, so that what `read_script` answers for what `script` wrote is the
/// transaction's greeting, host name, sender and recipients.
pub fn one_script()
    ensures { (a b : scripts.Script) → IsTrue (is_script a) → IsTrue (is_script b) → script_text a ≡ script_text b → a ≡ b }
{}
