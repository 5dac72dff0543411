//! How long the texts are, reckoned before they are written. A length that is larger than a `usize` counts is `usize::MAX`.
ghost use Rattle.std.specs.Prelude.{◌≡◌, ◌+◌, ◌<◌, ◌≤◌, ◌^◌, Some, decimal, length, sum_by};
ghost use Rattle.std.specs.List.{enumerate_from};
ghost use Rattle.relay_text.specs.Addresses.{path_text_of};
ghost use Rattle.relay_wire.specs.Lengths.{saturated};
ghost use Rattle.relay_wire.specs.PlanText.{counts_line, host_lines, line, lines_of, numbered_texts, plan_text_of, recipient_count, scripted_text, transaction_text, wire_text_of};
ghost use Rattle.relay_wire.specs.Script.{script_of, script_text};

use crate::plan::{Plan, Planned};
use itoa::Buffer;
use relay_text::{Address, Text, path_len};

// How many digits a number has.
fn decimal_len(number: usize) -> usize
    ensures digits { result ≡ length (decimal number) }
    ensures few { result ≤ 40 }
{
    Buffer::new().format(number).len()
}

// The length of the line that counts.
fn counts_len(transactions: usize, recipients: usize, findings: usize) -> usize
    ensures { result ≡ length (line (counts_line transactions recipients findings)) }
{
    decimal_len(transactions)
        + decimal_len(recipients)
        + decimal_len(findings)
        + b"plan  transactions  recipients  findings\n".len()
}

// The length of the addresses' paths, with so much for each line.
fn paths_len(addresses: &[Address], each: usize) -> usize
    ensures { result ≡ saturated (sum_by (λ a. each + length (path_text_of (Some a))) addresses.now) }
{
    let mut len: usize = 0;
    for address in addresses {
        len = len
            .saturating_add(each)
            .saturating_add(path_len(Some(address)));
    }
    len
}

/// The length of texts, and so much more for each of them, as for the end of a line; `usize::MAX` where a `usize` doesn't count it.
pub fn texts_len(texts: &[Text], each: usize) -> usize
    ensures { result ≡ saturated (sum_by (λ t. each + length t) texts.now) }
{
    let mut len: usize = 0;
    for text in texts {
        len = len.saturating_add(each).saturating_add(text.len());
    }
    len
}

// The length of the lines that say where a transaction goes.
fn route_len(planned: &Planned) -> usize
    ensures { result ≡ saturated (length (lines_of (host_lines planned.now))) }
{
    b"via  \n"
        .len()
        .saturating_add(planned.transport.name().len())
        .saturating_add(planned.nexthop.len())
        .saturating_add(texts_len(planned.hosts.as_slice(), b"host \n".len()))
}

// The length of a transaction.
fn transaction_len(number: usize, planned: &Planned) -> usize
    ensures { result ≡ saturated (length (transaction_text number planned.now)) }
{
    b"transaction \nfrom \n"
        .len()
        .saturating_add(decimal_len(number))
        .saturating_add(path_len(planned.from.as_ref()))
        .saturating_add(route_len(planned))
        .saturating_add(paths_len(planned.to.as_slice(), b"to \n".len()))
}

// The length of transactions, of which the first has this number.
pub(crate) fn transactions_len(number: usize, transactions: &[Planned]) -> usize
    requires { number + length transactions.now < 2 ^ 64 }
    ensures { result ≡ saturated (length (numbered_texts transaction_text (enumerate_from number transactions.now))) }
{
    let mut len: usize = 0;
    for (index, planned) in transactions.iter().enumerate() {
        len = len.saturating_add(transaction_len(number + index, planned));
    }
    len
}

// The length of a plan's text.
pub(crate) fn plan_len(plan: &Plan, recipients: usize) -> usize
    requires { recipients ≡ recipient_count plan.now }
    ensures { result ≡ saturated (length (plan_text_of plan.now)) }
{
    counts_len(plan.transactions.len(), recipients, plan.findings.len())
        .saturating_add(transactions_len(1, plan.transactions.as_slice()))
        .saturating_add(texts_len(plan.findings.as_slice(), b"\n".len()))
        .saturating_add(b"end\n".len())
}

// The length of a script.
pub(crate) fn script_len(planned: &Planned, hostname: &[u8]) -> usize
    ensures { result ≡ saturated (length (script_text (script_of planned.now hostname.now))) }
{
    b"EHLO \r\nMAIL FROM:\r\nDATA\r\n"
        .len()
        .saturating_add(hostname.len())
        .saturating_add(path_len(planned.from.as_ref()))
        .saturating_add(paths_len(planned.to.as_slice(), b"RCPT TO:\r\n".len()))
}

// The length of a transaction with its script.
fn scripted_len(number: usize, planned: &Planned, hostname: &[u8]) -> usize
    ensures { result ≡ saturated (length (scripted_text hostname.now number planned.now)) }
{
    let script = script_len(planned, hostname);
    b"transaction \nscript \n"
        .len()
        .saturating_add(decimal_len(number))
        .saturating_add(route_len(planned))
        .saturating_add(decimal_len(script))
        .saturating_add(script)
}

// The length of the transactions with their scripts.
fn scripted_transactions_len(transactions: &[Planned], hostname: &[u8]) -> usize
    ensures { result ≡ saturated (length (numbered_texts (scripted_text hostname.now) (enumerate_from 1 transactions.now))) }
{
    let mut len: usize = 0;
    for (index, planned) in transactions.iter().enumerate() {
        len = len.saturating_add(scripted_len(index + 1, planned, hostname));
    }
    len
}

// The length of a plan's text with scripts.
pub(crate) fn wire_len(plan: &Plan, recipients: usize) -> usize
    requires { recipients ≡ recipient_count plan.now }
    ensures { result ≡ saturated (length (wire_text_of plan.now)) }
{
    counts_len(plan.transactions.len(), recipients, plan.findings.len())
        .saturating_add(scripted_transactions_len(
            plan.transactions.as_slice(),
            plan.hostname.as_bytes(),
        ))
        .saturating_add(texts_len(plan.findings.as_slice(), b"\n".len()))
        .saturating_add(b"end\n".len())
}
