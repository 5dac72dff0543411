//! The text of a plan in parts, which a crew writes.
//!
//! Each thread writes to room of its own, so that what it writes is copied nowhere else, and meets the new pages of that room itself.
use relay_text::Text;

/// The text of a plan in parts that stand one behind the other, and how many recipients and findings it has.
#[derive(Drop)]
pub struct PlanTexts {
    pub texts: Vec<Text>,
    pub recipients: usize,
    pub findings: usize,
}

ghost use Rattle.std.specs.Prelude.{◌≡◌, ◌+◌, ◌<◌, ◌^◌, ◌++◌, ℕ, List, length, sum_by, IfOk, OnOk};
ghost use Rattle.std.specs.List.{concat, enumerate_from};
ghost use Rattle.std.specs.Thread.{IsSync};
ghost use Rattle.relay_wire.specs.Lengths.{saturated};
ghost use Rattle.relay_wire.specs.PlanText.{counts_line, line, lines_of, numbered_texts, plan_text_of, transaction_text};
ghost use Rattle.relay_wire.specs.PlanTexts.{bare, plan_from};

use crate::lengths::transactions_len;
use crate::plan::{Planned, put_counts, put_transactions, recipient_count};
use crate::words::{put_line, text_put};
use relay_sharing::Crew;
use std::alloc::{AllocError, Global};
use std::thread::{Threads, join};

// With fewer lines of recipients and findings, one thread writes them all.
const FEWEST: usize = 65_536;

// A thread has so many of them at least: starting it takes as long as writing some thousands.
const LEAST: usize = 16_384;

// The first line and the last have at most so many bytes.
const FRAME: usize = 128;

/// The text of transactions, of which the first has this number.
fn transactions_text(
    alloc: Global,
    number: usize,
    transactions: &[Planned],
) -> Result<Text, AllocError>
    requires { number + length transactions.now < 2 ^ 64 }
    ensures { IfOk result (λ text. text ≡ numbered_texts transaction_text (enumerate_from number transactions.now)) }
{
    let mut out = Vec::with_capacity(alloc, transactions_len(number, transactions))?;
    let put = put_transactions(number, transactions, &mut out);
    text_put(put, out)
}

/// The length of lines with their ends; `usize::MAX` where a `usize` doesn't count it.
fn lines_len(lines: &[&[u8]]) -> usize
    ensures { result ≡ saturated (sum_by (λ line. 1 + length line.now) lines.now) }
{
    let mut len: usize = 0;
    for line in lines {
        len = len.saturating_add(1).saturating_add(line.len());
    }
    len
}

/// Puts lines at the end, which are given without their ends. `Err` where memory runs out.
fn put_bare_lines(lines: &[&[u8]], out: &mut Vec<u8>) -> Result<(), AllocError>
    ensures { OnOk result (out.new.items ≡ out.old.items ++ lines_of (bare lines.now)) }
{
    for line in lines {
        put_line(line, out)?;
    }
    Ok(())
}

/// The text of lines, which are given without their ends.
fn lines_text(alloc: Global, lines: &[&[u8]]) -> Result<Text, AllocError>
    ensures { IfOk result (λ text. text ≡ lines_of (bare lines.now)) }
{
    let mut out = Vec::with_capacity(alloc, lines_len(lines))?;
    let put = put_bare_lines(lines, &mut out);
    text_put(put, out)
}

/// The text of a plan's first line.
fn counts_text(
    alloc: Global,
    transactions: usize,
    recipients: usize,
    findings: usize,
) -> Result<Text, AllocError>
    ensures { IfOk result (λ text. text ≡ line (counts_line transactions recipients findings)) }
{
    let mut out = Vec::new(alloc);
    let put = put_counts(transactions, recipients, findings, &mut out);
    text_put(put, out)
}

/// The text of transactions, of which the first has this number, in as many parts as there are threads, this one among them. Each new
/// thread has the last share of what is left, and is started from this one: a thread that is started by one that has just begun waits
/// behind it.
#[cycle(transactions)]
fn transactions_by<R: Threads + Sync>(
    rt: &R,
    alloc: Global,
    threads: usize,
    number: usize,
    transactions: &[Planned],
) -> Result<Vec<Text>, AllocError>
    requires { number + length transactions.now < 2 ^ 64 }
    ensures { IfOk result (λ texts. concat texts.items ≡ numbered_texts transaction_text (enumerate_from number transactions.now)) }
{
    if threads < 2 {
        return one_text(alloc, transactions_text(alloc, number, transactions));
    }
    let (first, last) = transactions.split_at(transactions.len() - transactions.len() / threads);
    let behind = number + first.len();
    let others = threads - 1;
    let (there, here) = join(
        rt,
        || -> Result<Text, AllocError>
            requires { behind + length last.now < 2 ^ 64 }
            ensures { IfOk result (λ text. text ≡ numbered_texts transaction_text (enumerate_from behind last.entry.now)) }
        { transactions_text(alloc, behind, last) },
        || -> Result<Vec<Text>, AllocError>
            requires { IsSync R.row × (number + length first.now < 2 ^ 64) }
            ensures { IfOk result (λ texts. concat texts.items ≡ numbered_texts transaction_text (enumerate_from number first.entry.now)) }
        { transactions_by(rt, alloc, others, number, first) },
    );
    with_last(here, there)
}

/// The same of lines, which are given without their ends.
#[cycle(lines)]
fn lines_by<R: Threads + Sync>(
    rt: &R,
    alloc: Global,
    threads: usize,
    lines: &[&[u8]],
) -> Result<Vec<Text>, AllocError>
    ensures { IfOk result (λ texts. concat texts.items ≡ lines_of (bare lines.now)) }
{
    if threads < 2 {
        return one_text(alloc, lines_text(alloc, lines));
    }
    let (first, last) = lines.split_at(lines.len() - lines.len() / threads);
    let others = threads - 1;
    let (there, here) = join(
        rt,
        || -> Result<Text, AllocError>
            ensures { IfOk result (λ text. text ≡ lines_of (bare last.entry.now)) }
        { lines_text(alloc, last) },
        || -> Result<Vec<Text>, AllocError>
            requires { IsSync R.row }
            ensures { IfOk result (λ texts. concat texts.items ≡ lines_of (bare first.entry.now)) }
        { lines_by(rt, alloc, others, first) },
    );
    with_last(here, there)
}

/// A text by itself.
fn one_text(alloc: Global, text: Result<Text, AllocError>) -> Result<Vec<Text>, AllocError>
    ensures { (bytes : List ℕ) → IfOk text (λ text. text ≡ bytes) → IfOk result (λ texts. concat texts.items ≡ bytes) }
{
    let mut texts = Vec::new(alloc);
    texts.push(text?)?;
    Ok(texts)
}

/// Texts, and one behind them.
fn with_last(
    texts: Result<Vec<Text>, AllocError>,
    last: Result<Text, AllocError>,
) -> Result<Vec<Text>, AllocError>
    ensures { (front back : List ℕ) → IfOk texts (λ texts. concat texts.items ≡ front) → IfOk last (λ text. text ≡ back) → IfOk result (λ texts. concat texts.items ≡ front ++ back) }
{
    let mut texts = texts?;
    texts.push(last?)?;
    Ok(texts)
}

/// Adds texts to others.
fn add(more: Result<Vec<Text>, AllocError>, texts: &mut Vec<Text>) -> Result<(), AllocError>
    ensures { (bytes : List ℕ) → IfOk more (λ more. concat more.items ≡ bytes) → OnOk result (concat texts.new.items ≡ concat texts.old.items ++ bytes) }
{
    let mut more = more?;
    texts.append(&mut more)?;
    Ok(())
}

/// The text of a plan in parts, by so many threads.
fn shared_texts<R: Threads + Sync>(
    crew: &Crew<'_, R>,
    threads: usize,
    transactions: &[Planned],
    recipients: usize,
    findings: &[&[u8]],
) -> Result<Vec<Text>, AllocError>
    requires { recipients ≡ sum_by (λ t. length t.to) transactions.now }
    ensures { IfOk result (λ texts. (hostname : List ℕ) → concat texts.items ≡ plan_text_of (plan_from hostname transactions.now (bare findings.now))) }
{
    let rt = crew.rt;
    let alloc = crew.alloc;
    let counts = counts_text(alloc, transactions.len(), recipients, findings.len());
    let mut texts = one_text(alloc, counts)?;
    add(
        transactions_by(rt, alloc, threads, 1, transactions),
        &mut texts,
    )?;
    add(lines_by(rt, alloc, threads, findings), &mut texts)?;
    texts.push(Text::copy_of(alloc, b"end\n")?)?;
    Ok(texts)
}

/// Writes a plan.
fn put_whole(
    transactions: &[Planned],
    recipients: usize,
    findings: &[&[u8]],
    out: &mut Vec<u8>,
) -> Result<(), AllocError>
    requires { recipients ≡ sum_by (λ t. length t.to) transactions.now }
    ensures { OnOk result ((hostname : List ℕ) → out.new.items ≡ out.old.items ++ plan_text_of (plan_from hostname transactions.now (bare findings.now))) }
{
    put_counts(transactions.len(), recipients, findings.len(), out)?;
    put_transactions(1, transactions, out)?;
    put_bare_lines(findings, out)?;
    out.extend_from_slice(b"end\n")
}

/// The text of a plan as one part.
fn whole_text(
    alloc: Global,
    transactions: &[Planned],
    recipients: usize,
    findings: &[&[u8]],
) -> Result<Text, AllocError>
    requires { recipients ≡ sum_by (λ t. length t.to) transactions.now }
    ensures { IfOk result (λ text. (hostname : List ℕ) → text ≡ plan_text_of (plan_from hostname transactions.now (bare findings.now))) }
{
    let len = transactions_len(1, transactions)
        .saturating_add(lines_len(findings))
        .saturating_add(FRAME);
    let mut out = Vec::with_capacity(alloc, len)?;
    put_whole(transactions, recipients, findings, &mut out)?;
    Ok(Text::of(out))
}

/// The text of a plan of so many recipients in parts: one part, or where the plan has many lines those that a crew writes.
fn texts_by<R: Threads + Sync>(
    crew: &Crew<'_, R>,
    transactions: &[Planned],
    recipients: usize,
    findings: &[&[u8]],
) -> Result<Vec<Text>, AllocError>
    requires { recipients ≡ sum_by (λ t. length t.to) transactions.now }
    ensures { IfOk result (λ texts. (hostname : List ℕ) → concat texts.items ≡ plan_text_of (plan_from hostname transactions.now (bare findings.now))) }
{
    let lines = recipients.saturating_add(findings.len());
    let threads = crew.workers.min(lines / LEAST);
    if threads < 2 || lines < FEWEST {
        let text = whole_text(crew.alloc, transactions, recipients, findings);
        return one_text(crew.alloc, text);
    }
    shared_texts(crew, threads, transactions, recipients, findings)
}

/// The text of the plan of these transactions, with these lines as its findings, in parts that stand one behind the other. A plan whose
/// recipients a `usize` doesn't count is larger than memory, and gets an `Err`.
pub(crate) fn plan_texts<R: Threads + Sync>(
    crew: &Crew<'_, R>,
    transactions: &[Planned],
    findings: &[&[u8]],
) -> Result<PlanTexts, AllocError>
    ensures texts { IfOk result (λ it. (hostname : List ℕ) → concat it.texts.items ≡ plan_text_of (plan_from hostname transactions.now (bare findings.now))) }
    ensures recipients { IfOk result (λ it. it.recipients ≡ sum_by (λ t. length t.to) transactions.now) }
    ensures findings { IfOk result (λ it. it.findings ≡ length findings.now) }
{
    let Some(recipients) = recipient_count(transactions) else {
        return Err(AllocError);
    };
    Ok(PlanTexts {
        texts: texts_by(crew, transactions, recipients, findings)?,
        recipients,
        findings: findings.len(),
    })
}
