//! Plans with their scripts.
ghost use Rattle.std.specs.Prelude.{◌≡◌, ◌++◌, IfOk, OnOk};
ghost use Rattle.std.specs.List.{enumerate_from};
ghost use Rattle.relay_wire.specs.PlanText.{line, numbered_texts, recipient_count, script_line, scripted_text, wire_text_of};

use crate::lengths::{script_len, wire_len};
use crate::plan::{
    Plan, Planned, put_first_line, put_last_lines, put_route, put_transaction_line, recipient_count,
};
use crate::words::{end_line, put_number, text_put};
use crate::writing::put_script;
use relay_text::Text;
use std::alloc::{AllocError, Global};

// Writes how long a script is.
fn put_script_line(octets: usize, out: &mut Vec<u8>) -> Result<(), AllocError>
    ensures { OnOk result (out.new.items ≡ out.old.items ++ line (script_line octets)) }
{
    out.extend_from_slice(b"script")?;
    put_number(octets, out)?;
    end_line(out)
}

// Writes a transaction with its script; an `Err` too where a `usize` doesn't count the script.
fn put_scripted(
    number: usize,
    planned: &Planned,
    hostname: &[u8],
    out: &mut Vec<u8>,
) -> Result<(), AllocError>
    ensures { OnOk result (out.new.items ≡ out.old.items ++ scripted_text hostname.now number planned.now) }
{
    let octets = script_len(planned, hostname);
    if octets == usize::MAX {
        return Err(AllocError);
    }
    put_transaction_line(number, out)?;
    put_route(planned, out)?;
    put_script_line(octets, out)?;
    put_script(planned, hostname, out)
}

// Writes the transactions with their scripts.
#[tactic(auto, using(crate::proofs::Pieces::numbered_all))]
fn put_scripted_transactions(
    transactions: &[Planned],
    hostname: &[u8],
    out: &mut Vec<u8>,
) -> Result<(), AllocError>
    ensures { OnOk result (out.new.items ≡ out.old.items ++ numbered_texts (scripted_text hostname.now) (enumerate_from 1 transactions.now)) }
{
    for (index, planned) in transactions.iter().enumerate() {
        put_scripted(index + 1, planned, hostname, out)?;
    }
    Ok(())
}

/// The text of a plan in which each transaction stands as the commands that hand it over: as `plan_text` gives it, but without the
/// line of the sender, and with the line `script`, the number of octets and the script itself (see `script`) in place of the
/// recipients' lines. The host name of the greetings is the plan's. `Err` where memory runs out; a plan whose recipients or octets a
/// `usize` doesn't count is larger than memory.
pub fn wire_text(alloc: Global, plan: &Plan) -> Result<Text, AllocError>
    ensures { IfOk result (λ text. text ≡ wire_text_of plan.now) }
{
    let Some(recipients) = recipient_count(plan.transactions.as_slice()) else {
        return Err(AllocError);
    };
    let mut out = Vec::with_capacity(alloc, wire_len(plan, recipients))?;
    let put = put_wire(plan, recipients, &mut out);
    text_put(put, out)
}

// Writes a plan of so many recipients, with its scripts.
fn put_wire(plan: &Plan, recipients: usize, out: &mut Vec<u8>) -> Result<(), AllocError>
    requires { recipients ≡ recipient_count plan.now }
    ensures { OnOk result (out.new.items ≡ out.old.items ++ wire_text_of plan.now) }
{
    put_first_line(plan, recipients, out)?;
    put_scripted_transactions(plan.transactions.as_slice(), plan.hostname.as_bytes(), out)?;
    put_last_lines(plan, out)
}
