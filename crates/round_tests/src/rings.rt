//! Rings and their batches: worked examples, sizes, and refused growths, after which nothing is changed and the next call answers.
ghost use Rattle.std.specs.Prelude.{◌≡◌, ℕ, ◌<◌, ◌≤◌, ◌-◌, ◌^◌, ◌↔◌, length, All, IfOk, IsTrue};
ghost use Rattle.relay_rings.specs.Batches.{comes_before, IsAscendingPlaced};
ghost use Rattle.relay_rings.specs.RingLists.{RingLists, list_at};

use crate::compared::expect;
use relay_rings::{Placed, RingFault, Rings, Transaction, Walk, batches};
use std::alloc::{AllocError, Global};
use std::process::Abort;
use std::test::Fail;

const fn at(key: u32, item: u32) -> Placed {
    Placed { key, item }
}

fn is_before(p: Placed, q: Placed) -> bool
    ensures { result ≡ comes_before p q }
{
    p.key < q.key || (p.key == q.key && p.item < q.item)
}

fn are_ascending(placed: &[Placed]) -> bool
    ensures { IsTrue result → IsAscendingPlaced placed.now }
{
    for i in 1..placed.len() {
        if !is_before(placed[i - 1], placed[i]) {
            return false;
        }
    }
    true
}

fn are_within(placed: &[Placed], limits: &[u32]) -> bool
    ensures { IsTrue result ↔ All (λ p. p.key < length limits.now) placed.now }
{
    placed.iter().all(|p| (p.key as usize) < limits.len())
}

fn are_positive(limits: &[u32]) -> bool
    ensures { IsTrue result ↔ All (λ limit. 0 < limit) limits.now }
{
    limits.iter().all(|limit| 0 < *limit)
}

/// `batches`, once more where a growth was refused.
fn batched(
    rt: &impl Abort,
    alloc: Global,
    placed: &[Placed],
    limits: &[u32],
) -> Result<Vec<Transaction>, AllocError> {
    assert!(rt; are_ascending(placed));
    assert!(rt; are_within(placed, limits));
    assert!(rt; are_positive(limits));
    assert!(rt; placed.len() <= 4_294_967_294);
    match batches(alloc, placed, limits) {
        Ok(transactions) => Ok(transactions),
        Err(AllocError) => batches(alloc, placed, limits),
    }
}

fn expect_transactions(rt: &impl Abort, made: &[Transaction], wanted: &[(u32, &[u32])]) {
    expect(rt, made.len(), wanted.len());
    for (transaction, wanted) in made.iter().zip(wanted) {
        expect(rt, (transaction.key, transaction.items.as_slice()), *wanted);
    }
}

fn expect_batches(
    rt: &(impl Abort + AllocGlobal),
    placed: &[Placed],
    limits: &[u32],
    wanted: &[(u32, &[u32])],
) -> Result<(), AllocError> {
    let made = batched(rt, rt.alloc(), placed, limits)?;
    expect_transactions(rt, made.as_slice(), wanted);
    Ok(())
}

/// `Rings::new`, once more where a growth was refused.
fn empty_rings(alloc: Global, dests: usize, limit: usize) -> Result<Rings, AllocError>
    requires dests { dests ≤ 2 ^ 32 - 2 }
    requires limit { limit ≤ 2 ^ 32 - 2 }
    ensures { IfOk result (λ rings. length rings.lists ≡ dests) }
{
    match Rings::new(alloc, dests, limit) {
        Ok(rings) => Ok(rings),
        Err(AllocError) => Rings::new(alloc, dests, limit),
    }
}

/// `append`, once more where a growth was refused, after which the list has to be as it was.
fn append(rt: &impl Abort, rings: &mut Rings, dest: usize, item: u32) -> Result<(), RingFault>
    requires { dest < length rings.old.lists }
    ensures { length rings.new.lists ≡ length rings.old.lists }
{
    let before = rings.len(dest);
    let first = rings.append(dest, item);
    if first == Err(RingFault::Memory) {
        expect(rt, rings.len(dest), before);
        return rings.append(dest, item);
    }
    first
}

fn items_at(alloc: Global, rings: &Rings, dest: usize) -> Result<Vec<u32>, AllocError>
    requires { dest < length rings.now.lists }
    ensures { IfOk result (λ items. items.items ≡ list_at rings.now dest) }
{
    rings.walk(dest).collect(alloc)
}

fn expect_items(
    rt: &(impl Abort + AllocGlobal),
    rings: &Rings,
    dest: usize,
    wanted: &[u32],
) -> Result<(), AllocError>
    requires { dest < length rings.now.lists }
{
    let items = items_at(rt.alloc(), rings, dest)?;
    expect(rt, items.as_slice(), wanted);
    Ok(())
}

/// The answers of a walk's next four calls.
fn next_four(mut walk: Walk<'_>) -> [Option<u32>; 4] {
    [walk.next(), walk.next(), walk.next(), walk.next()]
}

/// The lists of the worked example: 8 and 6 at the destination 2, 5 at 0, and none at 1.
fn expect_worked_lists(rt: &impl Abort, rings: &Rings)
    requires { length rings.now.lists ≡ 3 }
{
    expect(rt, [rings.len(0), rings.len(1), rings.len(2)], [1, 0, 2]);
    expect(rt, rings.walk(2).size_hint(), (2, Some(2)));
    expect(rt, next_four(rings.walk(2)), [Some(8), Some(6), None, None]);
}

/// Appends the items of the worked example to empty lists.
fn append_worked_items(rt: &impl Abort, rings: &mut Rings)
    requires { length rings.old.lists ≡ 3 }
    ensures { length rings.new.lists ≡ 3 }
{
    expect(rt, next_four(rings.walk(2)), [None; 4]);
    let answers = [
        append(rt, rings, 2, 8),
        append(rt, rings, 0, 5),
        append(rt, rings, 2, 6),
    ];
    expect(rt, answers, [Ok(()); 3]);
}

/// Appends one item more than the limit of the worked example, which changes nothing.
fn append_past_the_limit(rt: &impl Abort, rings: &mut Rings)
    requires { length rings.old.lists ≡ 3 }
    ensures { length rings.new.lists ≡ 3 }
{
    expect_worked_lists(rt, rings);
    expect(rt, append(rt, rings, 1, 7), Err(RingFault::Full));
    expect_worked_lists(rt, rings);
}

#[test]
fn appends_at_the_end_up_to_the_limit(rt: HostRuntime) -> Result<(), Fail> {
    let mut rings = empty_rings(rt.alloc(), 3, 3)?;
    append_worked_items(&rt, &mut rings);
    append_past_the_limit(&rt, &mut rings);
    expect_items(&rt, &rings, 0, &[5])?;
    Ok(())
}

/// Appends the greatest number to the list 3, and the numbers below 300 in turn to the lists 0, 1 and 2.
fn append_in_turn(rt: &impl Abort, rings: &mut Rings)
    requires { length rings.old.lists ≡ 5 }
    ensures { length rings.new.lists ≡ 5 }
{
    expect(rt, append(rt, rings, 3, 4_294_967_295), Ok(()));
    for i in 0..300 {
        expect(rt, append(rt, rings, (i % 3) as usize, i), Ok(()));
    }
}

/// Every third number below 300, from the first on.
fn expect_every_third(rt: &impl Abort, walk: Walk<'_>, first: u32)
    requires { first < 3 }
{
    let mut wanted = first;
    for item in walk {
        expect(rt, item, wanted);
        wanted = wanted.wrapping_add(3);
    }
    expect(rt, wanted, first + 300);
}

fn expect_lists_apart(rt: &impl Abort, rings: &Rings)
    requires { length rings.now.lists ≡ 5 }
{
    expect(rt, rings.len(4), 0);
    expect(
        rt,
        next_four(rings.walk(3)),
        [Some(4_294_967_295), None, None, None],
    );
    for dest in 0..3u32 {
        expect_every_third(rt, rings.walk(dest as usize), dest);
    }
}

#[test]
fn keeps_many_lists_apart(rt: HostRuntime) -> Result<(), Fail> {
    let mut rings = empty_rings(rt.alloc(), 5, 1000)?;
    append_in_turn(&rt, &mut rings);
    expect_lists_apart(&rt, &rings);
    Ok(())
}

const BY_TWOS: [(u32, &[u32]); 3] = [(0, &[1, 2]), (0, &[3]), (2, &[1])];

const BY_ONES: [(u32, &[u32]); 4] = [(0, &[1]), (0, &[2]), (0, &[3]), (2, &[1])];

const WHOLE: [(u32, &[u32]); 2] = [(0, &[1, 2, 3]), (2, &[1])];

#[test]
fn cuts_each_key(rt: HostRuntime) -> Result<(), Fail> {
    let placed = [at(0, 1), at(0, 2), at(0, 3), at(2, 1)];
    expect_batches(&rt, &placed, &[2, 2, 2], &BY_TWOS)?;
    expect_batches(&rt, &placed, &[1, 7, 1], &BY_ONES)?;
    expect_batches(&rt, &placed, &[3, 1, 4_294_967_295], &WHOLE)?;
    expect_batches(&rt, &[], &[], &[])?;
    Ok(())
}

const FAR_BY_TWOS: [(u32, &[u32]); 4] = [
    (0, &[5]),
    (7, &[0, 4_294_967_295]),
    (1_000_000, &[1, 5]),
    (1_000_000, &[6]),
];

#[test]
fn takes_keys_far_apart(rt: HostRuntime) -> Result<(), Fail> {
    let limits = vec![in rt.alloc(); 2; 1_000_001]?;
    let placed = [
        at(0, 5),
        at(7, 0),
        at(7, 4_294_967_295),
        at(1_000_000, 1),
        at(1_000_000, 5),
        at(1_000_000, 6),
    ];
    expect_batches(&rt, &placed, limits.as_slice(), &FAR_BY_TWOS)?;
    Ok(())
}

/// The items from 0 up to a million, at the key 3.
fn million_of_one_key(alloc: Global) -> Result<Vec<Placed>, AllocError> {
    let mut placed = Vec::with_capacity(alloc, 1_000_001)?;
    for item in 0..1_000_001 {
        placed.push(at(3, item))?;
    }
    Ok(placed)
}

/// Sees that the items count up from `first`, and gives the number after the last.
fn expect_rising(rt: &impl Abort, items: &[u32], first: u32) -> u32 {
    let mut next = first;
    for item in items {
        expect(rt, *item, next);
        next = next.wrapping_add(1);
    }
    next
}

/// Whole thousands of rising items at the key 3, and the one item left over.
fn expect_thousands(rt: &impl Abort, made: &[Transaction]) {
    expect(rt, made.len(), 1001);
    let mut next = 0u32;
    for transaction in made {
        let items = transaction.items.as_slice();
        expect(rt, transaction.key, 3);
        assert!(rt; items.len() == 1000 || next == 1_000_000);
        next = expect_rising(rt, items, next);
    }
    expect(rt, next, 1_000_001);
}

#[test]
fn cuts_a_million_items_of_one_key(rt: HostRuntime) -> Result<(), Fail> {
    let placed = million_of_one_key(rt.alloc())?;
    let made = batched(&rt, rt.alloc(), placed.as_slice(), &[9, 9, 9, 1000])?;
    expect_thousands(&rt, made.as_slice());
    Ok(())
}
