//! The answers to `%tables` as JSON objects. `Err` where memory runs out; then some front of what was to come stands behind what was there.
ghost use Rattle.std.specs.Prelude.{◌≡◌, ◌++◌, OnOk};
ghost use Rattle.aliasplan_each.specs.Changes.{kept_json, line_json, reason_json, taken_json};

use aliasplan::RunFault;
use relay_envelopes::{put_json_end, put_json_line_end, put_json_pair};
use std::alloc::AllocError;

/// Puts the object at the end that says that tables are taken whose text has this sum, in hexadecimal digits.
pub(crate) fn put_taken_json(sum: &[u8], out: &mut Vec<u8>) -> Result<(), AllocError>
    ensures { OnOk result (out.new.items ≡ out.old.items ++ taken_json sum.now) }
{
    put_json_pair(b"tables", b"ok", b"sha256", sum, out)?;
    put_json_end(out)
}

// Puts the object that says that tables are refused, and why.
fn put_reason(words: &[u8], out: &mut Vec<u8>) -> Result<(), AllocError>
    ensures { OnOk result (out.new.items ≡ out.old.items ++ reason_json words.now) }
{
    put_json_pair(b"tables", b"refused", b"reason", words, out)?;
    put_json_end(out)
}

// The same for the line of this number.
fn put_line_reason(words: &[u8], number: usize, out: &mut Vec<u8>) -> Result<(), AllocError>
    ensures { OnOk result (out.new.items ≡ out.old.items ++ line_json words.now number) }
{
    put_json_pair(b"tables", b"refused", b"reason", words, out)?;
    put_json_line_end(number, out)
}

/// Puts the object at the end that says why the old tables are kept.
pub(crate) fn put_kept_json(fault: RunFault, out: &mut Vec<u8>) -> Result<(), AllocError>
    ensures { OnOk result (out.new.items ≡ out.old.items ++ kept_json fault) }
{
    match fault {
        RunFault::BadJob(number) => put_line_reason(b"bad job line", number, out),
        RunFault::BadSetting(number) => put_line_reason(b"bad setting", number, out),
        RunFault::BadEnvelope(number) => put_line_reason(b"bad envelope", number, out),
        RunFault::Read => put_reason(b"cannot read", out),
        RunFault::TooLong => put_reason(b"too long", out),
        RunFault::TooManyNames => put_reason(b"too many names", out),
        RunFault::TooManyOwners => put_reason(b"too many owners", out),
        RunFault::TooManyPairs => put_reason(b"too many pairs", out),
        RunFault::Write => put_reason(b"cannot write", out),
        RunFault::Memory => put_reason(b"out of memory", out),
    }
}
