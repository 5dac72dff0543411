//! Plans.
ghost use Rattle.std.specs.Prelude.{◌≡◌, ◌≤◌, ◌<◌, ◌+◌, ◌^◌, ◌∷◌, ◌++◌, [], codes, length, map, option_map, sum_by, IfOk, IfSome, IfNone, OnOk};
ghost use Rattle.std.specs.List.{enumerate_from};
ghost use Rattle.relay_wire.specs.PlanText.{line, lines_of, recipient_count, counts_line, first_line, via_line, host_line, host_lines, from_line, to_line, transaction_line, transaction_text, numbered_texts, plan_text_of};

use crate::lengths::plan_len;
use crate::words::{end_line, put_count, put_each_line, put_number, put_path, put_word, text_put};
use relay_routes::{Hosts, Transport};
use relay_text::{Address, Seq, Text, write_path};
use std::alloc::{AllocError, Global};

/// A transaction as it's planned.
#[derive(Drop)]
pub struct Planned {
    /// The sender; the null sender is `None` (RFC 5321 section 4.5.5).
    pub from: Option<Address>,
    pub transport: Transport,
    /// As the plan writes it.
    pub nexthop: Text,
    /// In the order in which they are tried.
    pub hosts: Hosts,
    /// The recipients.
    pub to: Seq<Address>,
}

/// A plan: the relay's host name, the transactions, and the lines of its findings.
#[derive(Drop)]
pub struct Plan {
    pub hostname: Text,
    pub transactions: Seq<Planned>,
    /// Each without its end.
    pub findings: Seq<Text>,
}

/// How many recipients the transactions have; `None` where a `usize` holds no such number.
#[tactic(auto, using(std::proofs::lemmas::List::Sums::sum_by_more_le))]
pub fn recipient_count(transactions: &[Planned]) -> Option<usize>
    ensures some { IfSome result (λ count. count ≡ sum_by (λ t. length t.to) transactions.now) }
    ensures none { IfNone result (2 ^ 64 ≤ sum_by (λ t. length t.to) transactions.now) }
{
    let mut count: usize = 0;
    for planned in transactions {
        count = count.checked_add(planned.to.len())?;
    }
    Some(count)
}

// Writes the line that counts.
pub(crate) fn put_counts(
    transactions: usize,
    recipients: usize,
    findings: usize,
    out: &mut Vec<u8>,
) -> Result<(), AllocError>
    ensures { OnOk result (out.new.items ≡ out.old.items ++ line (counts_line transactions recipients findings)) }
{
    out.extend_from_slice(b"plan")?;
    put_count(transactions, b"transactions", out)?;
    put_count(recipients, b"recipients", out)?;
    put_count(findings, b"findings", out)?;
    end_line(out)
}

// Writes the line of a transaction's number.
pub(crate) fn put_transaction_line(number: usize, out: &mut Vec<u8>) -> Result<(), AllocError>
    ensures { OnOk result (out.new.items ≡ out.old.items ++ line (transaction_line number)) }
{
    out.extend_from_slice(b"transaction")?;
    put_number(number, out)?;
    end_line(out)
}

// Writes the line of a transaction's number, and the line of its sender.
fn put_sender(number: usize, from: Option<&Address>, out: &mut Vec<u8>) -> Result<(), AllocError>
    ensures { OnOk result (out.new.items ≡ out.old.items ++ lines_of (transaction_line number ∷ from_line (option_map (λ a. a.now) from.entry) ∷ [])) }
{
    put_transaction_line(number, out)?;
    out.extend_from_slice(b"from")?;
    put_path(from, out)?;
    end_line(out)
}

// Writes the line of a transaction's transport and nexthop.
fn put_via(planned: &Planned, out: &mut Vec<u8>) -> Result<(), AllocError>
    ensures { OnOk result (out.new.items ≡ out.old.items ++ line (via_line planned.now)) }
{
    out.extend_from_slice(b"via")?;
    put_word(planned.transport.name(), out)?;
    put_word(planned.nexthop.as_bytes(), out)?;
    end_line(out)
}

// Writes the line of each host.
fn put_hosts(hosts: &[Text], out: &mut Vec<u8>) -> Result<(), AllocError>
    ensures { OnOk result (out.new.items ≡ out.old.items ++ lines_of (map host_line hosts.now)) }
{
    for host in hosts {
        put_host(host, out)?;
    }
    Ok(())
}

// Writes the line of a host.
fn put_host(host: &Text, out: &mut Vec<u8>) -> Result<(), AllocError>
    ensures { OnOk result (out.new.items ≡ out.old.items ++ line (host_line host.now)) }
{
    out.extend_from_slice(b"host")?;
    put_word(host.as_bytes(), out)?;
    end_line(out)
}

// Writes the word of a recipient's line and the space behind it. A plan has more of these than of all other lines.
fn put_to(out: &mut Vec<u8>) -> Result<(), AllocError>
    ensures { OnOk result (out.new.items ≡ out.old.items ++ codes "to ") }
{
    out.reserve(3)?;
    out.push_reserved(b't');
    out.push_reserved(b'o');
    out.push_reserved(b' ');
    Ok(())
}

// Writes the line of each recipient.
fn put_recipients(to: &[Address], out: &mut Vec<u8>) -> Result<(), AllocError>
    ensures { OnOk result (out.new.items ≡ out.old.items ++ lines_of (map to_line to.now)) }
{
    for address in to {
        put_recipient(address, out)?;
    }
    Ok(())
}

// Writes the line of a recipient.
#[inline]
fn put_recipient(address: &Address, out: &mut Vec<u8>) -> Result<(), AllocError>
    ensures { OnOk result (out.new.items ≡ out.old.items ++ line (to_line address.now)) }
{
    put_to(out)?;
    write_path(Some(address), out)?;
    end_line(out)
}

// Writes where a transaction goes.
pub(crate) fn put_route(planned: &Planned, out: &mut Vec<u8>) -> Result<(), AllocError>
    ensures { OnOk result (out.new.items ≡ out.old.items ++ lines_of (host_lines planned.now)) }
{
    put_via(planned, out)?;
    put_hosts(planned.hosts.as_slice(), out)
}

// Writes a transaction.
fn put_transaction(number: usize, planned: &Planned, out: &mut Vec<u8>) -> Result<(), AllocError>
    ensures { OnOk result (out.new.items ≡ out.old.items ++ transaction_text number planned.now) }
{
    put_sender(number, planned.from.as_ref(), out)?;
    put_route(planned, out)?;
    put_recipients(planned.to.as_slice(), out)
}

// Writes transactions, of which the first has this number.
#[tactic(auto, using(crate::proofs::Pieces::numbered_all_from))]
pub(crate) fn put_transactions(
    number: usize,
    transactions: &[Planned],
    out: &mut Vec<u8>,
) -> Result<(), AllocError>
    requires { number + length transactions.now < 2 ^ 64 }
    ensures { OnOk result (out.new.items ≡ out.old.items ++ numbered_texts transaction_text (enumerate_from number transactions.now)) }
{
    for (index, planned) in transactions.iter().enumerate() {
        put_transaction(number + index, planned, out)?;
    }
    Ok(())
}

/// The text of a plan: a line of counts, each transaction, the findings, and `end`. A plan whose recipients a `usize` doesn't
/// count is larger than memory, and gets an `Err`.
pub fn plan_text(alloc: Global, plan: &Plan) -> Result<Text, AllocError>
    ensures { IfOk result (λ text. text ≡ plan_text_of plan.now) }
{
    let Some(recipients) = recipient_count(plan.transactions.as_slice()) else {
        return Err(AllocError);
    };
    let mut out = Vec::with_capacity(alloc, plan_len(plan, recipients))?;
    let put = put_plan(plan, recipients, &mut out);
    text_put(put, out)
}

// Writes a plan of so many recipients.
fn put_plan(plan: &Plan, recipients: usize, out: &mut Vec<u8>) -> Result<(), AllocError>
    requires { recipients ≡ recipient_count plan.now }
    ensures { OnOk result (out.new.items ≡ out.old.items ++ plan_text_of plan.now) }
{
    put_first_line(plan, recipients, out)?;
    put_transactions(1, plan.transactions.as_slice(), out)?;
    put_last_lines(plan, out)
}

// Writes the line that counts what a plan of so many recipients has.
pub(crate) fn put_first_line(
    plan: &Plan,
    recipients: usize,
    out: &mut Vec<u8>,
) -> Result<(), AllocError>
    requires { recipients ≡ recipient_count plan.now }
    ensures { OnOk result (out.new.items ≡ out.old.items ++ line (first_line plan.now)) }
{
    put_counts(
        plan.transactions.len(),
        recipients,
        plan.findings.len(),
        out,
    )
}

// Writes the findings of a plan, and `end`.
pub(crate) fn put_last_lines(plan: &Plan, out: &mut Vec<u8>) -> Result<(), AllocError>
    ensures { OnOk result (out.new.items ≡ out.old.items ++ (lines_of plan.now.findings ++ line (codes "end"))) }
{
    put_each_line(plan.findings.as_slice(), out)?;
    out.extend_from_slice(b"end\n")
}
