//! The lines of what is returned, by the numbers of senders.
ghost use Rattle.std.specs.Prelude.{◌≡◌, ◌<◌, ◌≤◌, ◌^◌, ◌-◌, ◌↔◌, ℕ, List, [], All, length, IsTrue, Err, IfOk, OnOk};
ghost use Rattle.relay_text.specs.Bytes.{has_text};
ghost use Rattle.relay_pairs.specs.declared.reached.Reached as numbers;
ghost use Rattle.relay_pairs.specs.Pairs.{ArePairsFrom, HasMorePairsFrom};
ghost use Rattle.relay_planning.specs.Findings.{Reports};
ghost use Rattle.aliasplan.specs.ReturnLines.{lines_at, AreCounted, AreFindings, HasTooMany, HavePairLine, IsLineBefore, IsLineFor, IsLineFrom, IsPairLine, IsRootLine, ReportsEach};

use relay_pairs::{Reached, Search};
use relay_planning::{Listing, report_target};
use relay_returns::return_line;
use relay_rounds::{Gate, ReachFault};
use relay_tables::Graph;
use relay_text::{Address, Seq, Text, TextSet};
use relay_wire::FindingLines;
use std::alloc::{AllocError, Global};
use std::thread::Threads;

/// Adds the lines of findings for a recipient.
fn add_lines(
    alloc: Global,
    findings: &[Text],
    recipient: &Address,
    lines: &mut TextSet,
) -> Result<(), AllocError>
    requires { AreFindings findings.now }
    ensures { OnOk result (Reports lines.old lines.new (IsLineFor findings.now recipient.now)) }
{
    for finding in findings {
        lines.insert(return_line(alloc, finding.as_bytes(), recipient)?)?;
    }
    Ok(())
}

/// Adds the line of what a recipient itself is, where it is no entry and no address.
fn add_root(
    alloc: Global,
    graph: &Graph,
    root: u32,
    recipient: &Address,
    lines: &mut TextSet,
) -> Result<(), AllocError>
    requires { root < length graph.now.nodes }
    ensures { OnOk result (Reports lines.old lines.new (IsRootLine graph.now root recipient.now)) }
{
    let mut found = FindingLines::new(alloc);
    report_target(alloc, graph, Listing::Envelope, root, &mut found)?;
    let found = found.into_seq(alloc)?;
    add_lines(alloc, found.as_slice(), recipient, lines)
}

/// Adds the lines of what can't be delivered at a pair's node.
fn add_pair(
    alloc: Global,
    graph: &Graph,
    undelivered: &[Seq<Text>],
    recipient: &Address,
    pair: Reached,
    lists: &mut Vec<TextSet>,
) -> Result<(), AllocError>
    requires findings { All AreFindings undelivered.now }
    requires nodes { length undelivered.now ≡ length graph.now.nodes }
    requires senders { length lists.old.items ≡ length graph.now.senders }
    requires sender { pair.sender < length graph.now.senders }
    requires node { pair.node < length graph.now.nodes }
    ensures { OnOk result (ReportsEach lists.old.items lists.new.items (λ s q. IsPairLine graph.now undelivered.now recipient.now s q pair)) }
{
    let findings = undelivered[pair.node as usize].as_slice();
    if findings.is_empty() {
        return Ok(());
    }
    // For what the call says alone: the sender after the node is one of the graph's.
    let _ = graph.nodes();
    let sender = graph.sender_after(pair.sender, pair.node);
    add_lines(alloc, findings, recipient, &mut lists[sender as usize])
}

/// Adds the lines of what can't be delivered at the nodes of pairs.
fn add_pairs(
    alloc: Global,
    graph: &Graph,
    undelivered: &[Seq<Text>],
    recipient: &Address,
    pairs: &[Reached],
    lists: &mut Vec<TextSet>,
) -> Result<(), AllocError>
    requires findings { All AreFindings undelivered.now }
    requires nodes { length undelivered.now ≡ length graph.now.nodes }
    requires senders { length lists.old.items ≡ length graph.now.senders }
    requires pairs { All (λ p. (p.sender < length graph.now.senders) × (p.node < length graph.now.nodes)) pairs.now }
    ensures { OnOk result (ReportsEach lists.old.items lists.new.items (HavePairLine graph.now undelivered.now pairs.now recipient.now)) }
{
    for pair in pairs {
        add_pair(alloc, graph, undelivered, recipient, *pair, lists)?;
    }
    Ok(())
}

/// Adds the lines of what can't be delivered for a recipient, and says how many pairs are reached from it.
fn add_recipient<G: Gate, R: Threads + Sync>(
    search: &Search<G, R>,
    undelivered: &[Seq<Text>],
    recipient: &Address,
    root: u32,
    left: usize,
    lists: &mut Vec<TextSet>,
) -> Result<usize, ReachFault>
    requires findings { All AreFindings undelivered.now }
    requires nodes { length undelivered.now ≡ length search.now.graph.now.nodes }
    requires senders { length lists.old.items ≡ length search.now.graph.now.senders }
    requires root { root < length search.now.graph.now.nodes }
    requires left { left ≤ 2 ^ 32 - 2 }
    ensures lines { OnOk result (ReportsEach lists.old.items lists.new.items (IsLineFrom search.now.graph.now undelivered.now recipient.now root)) }
    ensures counted { IfOk result (λ count. (pairs : List numbers.Reached) × ArePairsFrom search.now.graph.now root pairs × (length pairs ≡ count)) }
    ensures within { IfOk result (λ count. count ≤ left) }
    ensures refused { result ≡ Err ReachFault.TooManyPairs → HasMorePairsFrom search.now.graph.now root left }
{
    // For what the call says alone: there is a sender.
    let _ = search.graph.nodes();
    let pairs = search.pairs_from(root, left)?;
    add_root(
        search.crew.alloc,
        search.graph,
        root,
        recipient,
        &mut lists[0],
    )?;
    add_pairs(
        search.crew.alloc,
        search.graph,
        undelivered,
        recipient,
        &pairs,
        lists,
    )?;
    Ok(pairs.len())
}

/// No lines for each sender.
fn no_lines(alloc: Global, graph: &Graph) -> Result<Vec<TextSet>, AllocError>
    ensures long { IfOk result (λ lists. length lists.items ≡ length graph.now.senders) }
    ensures empty { IfOk result (λ lists. All (λ lines. lines ≡ []) lists.items) }
{
    let mut lists = Vec::with_capacity(alloc, graph.senders())?;
    for _ in 0..graph.senders() {
        lists.push(TextSet::new(alloc))?;
    }
    Ok(lists)
}

/// The lines of what can't be delivered for the recipients, by the numbers of senders. `TooManyPairs` where more pairs than `limit` are
/// reached, each counted for each recipient.
pub(crate) fn lines_by_sender<G: Gate, R: Threads + Sync>(
    search: &Search<G, R>,
    undelivered: &[Seq<Text>],
    recipients: &[Address],
    limit: usize,
) -> Result<Vec<TextSet>, ReachFault>
    requires findings { All AreFindings undelivered.now }
    requires nodes { length undelivered.now ≡ length search.now.graph.now.nodes }
    requires roots { length recipients.now ≡ length search.now.graph.now.roots }
    requires limit { limit ≤ 2 ^ 32 - 2 }
    ensures long { IfOk result (λ lists. length lists.items ≡ length search.now.graph.now.senders) }
    ensures lines { IfOk result (λ lists. (s : ℕ) (q : List ℕ) → s < length search.now.graph.now.senders → IsTrue (has_text (lines_at lists.items s) q) ↔ IsLineBefore search.now.graph.now undelivered.now recipients.now (length recipients.now) s q) }
    ensures counted { OnOk result ((left : ℕ) × AreCounted search.now.graph.now limit left (length recipients.now)) }
    ensures refused { result ≡ Err ReachFault.TooManyPairs → HasTooMany search.now.graph.now limit }
{
    // For what the call says alone: roots are nodes of the graph.
    let _ = search.graph.nodes();
    let roots = search.graph.roots();
    let mut lists = no_lines(search.crew.alloc, search.graph)?;
    let mut left = limit;
    for place in 0..recipients.len() {
        let recipient = &recipients[place];
        let root = roots[place];
        let count = add_recipient(search, undelivered, recipient, root, left, &mut lists)?;
        left -= count;
    }
    Ok(lists)
}
