//! Plans as JSON objects.
ghost use Rattle.std.specs.Prelude.{◌≡◌, ◌++◌, map, IfOk, OnOk};
ghost use Rattle.std.specs.List.{enumerate_from};
ghost use Rattle.relay_wire.specs.Json.{json_array, with_commas};
ghost use Rattle.relay_wire.specs.JsonPlan.{counts_json, finding_json, findings_member, front_members, json_text_of, path_json, plan_members, transaction_json, transactions_json, words_of};

use crate::json::{
    put_json_comma, put_json_key, put_json_number, put_json_path, put_json_string, put_json_strings,
};
use crate::plan::{Plan, Planned, recipient_count};
use crate::words::text_put;
use relay_text::{Address, Text};
use std::alloc::{AllocError, Global};

// Puts the numbers of a plan's first line.
fn put_counts(
    transactions: usize,
    recipients: usize,
    findings: usize,
    out: &mut Vec<u8>,
) -> Result<(), AllocError>
    ensures { OnOk result (out.new.items ≡ out.old.items ++ counts_json transactions recipients findings) }
{
    put_json_key(b'{', b"transactions", out)?;
    put_json_number(transactions, out)?;
    put_json_key(b',', b"recipients", out)?;
    put_json_number(recipients, out)?;
    put_json_key(b',', b"findings", out)?;
    put_json_number(findings, out)?;
    out.push(b'}')?;
    Ok(())
}

// Puts the paths of recipients with commas between them.
fn put_paths(alloc: Global, to: &[Address], out: &mut Vec<u8>) -> Result<(), AllocError>
    ensures { OnOk result (out.new.items ≡ out.old.items ++ with_commas (map path_json to.now)) }
{
    for (index, address) in to.iter().enumerate() {
        put_json_comma(index, out)?;
        put_json_path(alloc, Some(address), out)?;
    }
    Ok(())
}

// Puts an array of the paths of recipients.
fn put_recipients(alloc: Global, to: &[Address], out: &mut Vec<u8>) -> Result<(), AllocError>
    ensures { OnOk result (out.new.items ≡ out.old.items ++ json_array (map path_json to.now)) }
{
    out.push(b'[')?;
    put_paths(alloc, to, out)?;
    out.push(b']')?;
    Ok(())
}

// Puts a transaction.
fn put_transaction(
    alloc: Global,
    number: usize,
    planned: &Planned,
    out: &mut Vec<u8>,
) -> Result<(), AllocError>
    ensures { OnOk result (out.new.items ≡ out.old.items ++ transaction_json number planned.now) }
{
    put_json_key(b'{', b"transaction", out)?;
    put_json_number(number, out)?;
    put_json_key(b',', b"from", out)?;
    put_json_path(alloc, planned.from.as_ref(), out)?;
    put_json_key(b',', b"transport", out)?;
    put_json_string(planned.transport.name(), out)?;
    put_json_key(b',', b"nexthop", out)?;
    put_json_string(planned.nexthop.as_bytes(), out)?;
    put_json_key(b',', b"hosts", out)?;
    put_json_strings(planned.hosts.as_slice(), out)?;
    put_json_key(b',', b"recipients", out)?;
    put_recipients(alloc, planned.to.as_slice(), out)?;
    out.push(b'}')?;
    Ok(())
}

// Puts transactions, numbered from 1, with commas between them.
fn put_numbered(
    alloc: Global,
    transactions: &[Planned],
    out: &mut Vec<u8>,
) -> Result<(), AllocError>
    ensures { OnOk result (out.new.items ≡ out.old.items ++ with_commas (map (λ t. transaction_json t.0 t.1) (enumerate_from 1 transactions.now))) }
{
    for (index, planned) in transactions.iter().enumerate() {
        put_json_comma(index, out)?;
        put_transaction(alloc, index + 1, planned, out)?;
    }
    Ok(())
}

// Puts an array of transactions, numbered from 1.
fn put_transactions(
    alloc: Global,
    transactions: &[Planned],
    out: &mut Vec<u8>,
) -> Result<(), AllocError>
    ensures { OnOk result (out.new.items ≡ out.old.items ++ transactions_json transactions.now) }
{
    out.push(b'[')?;
    put_numbered(alloc, transactions, out)?;
    out.push(b']')?;
    Ok(())
}

// A finding's line without its first word.
fn words_of(finding: &[u8]) -> &[u8]
    ensures { result.now ≡ words_of finding.now }
{
    finding.strip_prefix(b"finding ").unwrap_or(finding)
}

// Puts the words of findings with commas between them.
fn put_words(findings: &[Text], out: &mut Vec<u8>) -> Result<(), AllocError>
    ensures { OnOk result (out.new.items ≡ out.old.items ++ with_commas (map finding_json findings.now)) }
{
    for (index, finding) in findings.iter().enumerate() {
        put_json_comma(index, out)?;
        put_json_string(words_of(finding.as_bytes()), out)?;
    }
    Ok(())
}

/// Puts the member `findings` at the end: the words of each line, as they stand behind `finding`. `Err` as in `put_json_string`.
pub fn put_json_findings(findings: &[Text], out: &mut Vec<u8>) -> Result<(), AllocError>
    ensures { OnOk result (out.new.items ≡ out.old.items ++ findings_member findings.now) }
{
    put_json_string(b"findings", out)?;
    out.extend_from_slice(b":[")?;
    put_words(findings, out)?;
    out.push(b']')?;
    Ok(())
}

/// Puts the members `plan` and `transactions` at the end. `Err` as in `put_json_string`, and for a plan whose recipients a `usize`
/// doesn't count, which is larger than memory.
pub fn put_json_front(alloc: Global, plan: &Plan, out: &mut Vec<u8>) -> Result<(), AllocError>
    ensures { OnOk result (out.new.items ≡ out.old.items ++ with_commas (front_members plan.now)) }
{
    let transactions = plan.transactions.as_slice();
    let Some(recipients) = recipient_count(transactions) else {
        return Err(AllocError);
    };
    put_json_string(b"plan", out)?;
    out.push(b':')?;
    put_counts(transactions.len(), recipients, plan.findings.len(), out)?;
    put_json_key(b',', b"transactions", out)?;
    put_transactions(alloc, transactions, out)
}

/// Puts the members of a plan's object at the end, without its brackets. `Err` as in `put_json_front`.
pub fn put_json_members(alloc: Global, plan: &Plan, out: &mut Vec<u8>) -> Result<(), AllocError>
    ensures { OnOk result (out.new.items ≡ out.old.items ++ with_commas (plan_members plan.now)) }
{
    put_json_front(alloc, plan, out)?;
    out.push(b',')?;
    put_json_findings(plan.findings.as_slice(), out)
}

// Puts a plan's object on a line.
fn put_object(alloc: Global, plan: &Plan, out: &mut Vec<u8>) -> Result<(), AllocError>
    ensures { OnOk result (out.new.items ≡ out.old.items ++ json_text_of plan.now) }
{
    out.push(b'{')?;
    put_json_members(alloc, plan, out)?;
    out.extend_from_slice(b"}\n")
}

/// The text of a plan as one JSON object on a line: `plan` has the numbers of the first line of `plan_text`, `transactions` each
/// transaction, `findings` the words of each finding. `Err` as in `put_json_front`.
pub fn json_text(alloc: Global, plan: &Plan) -> Result<Text, AllocError>
    ensures { IfOk result (λ text. text ≡ json_text_of plan.now) }
{
    let mut out = Vec::new(alloc);
    let put = put_object(alloc, plan, &mut out);
    text_put(put, out)
}
