//! Transactions within the limits of their keys.
ghost use Rattle.std.specs.Prelude.{◌≡◌, ◌<◌, ◌≤◌, ◌-◌, ◌^◌, ◌++◌, List, length, map, flat_map, take, drop, All, IfOk, OnOk};
ghost use Rattle.relay_rings.specs.Batches.{batches_at, batches_of, items_at, keys_of, transactions_of, IsAscendingPlaced};
ghost use Rattle.relay_rings.specs.RingLists.{list_at};
ghost use Rattle.relay_rings.specs.Sound.{IsSoundFor};
ghost use Rattle.relay_rings.specs.Walks.{walk_rest};

use crate::linking::{RingFault, Rings};
use crate::walking::Walk;
use std::alloc::{AllocError, Global};
use std::marker::Model;

/// An item at a key: the keys number the groups, and the items the addresses.
#[derive(Clone, Copy, Debug, PartialEq, Eq)]
pub struct Placed {
    pub key: u32,
    pub item: u32,
}

/// Items in order, which contracts see as their list.
#[derive(Drop)]
pub struct Items {
    items: Vec<u32>,
}

impl Model for Items {
    ghost use Rattle.std.specs.Prelude.{List, ℕ};

    ghost Value = { List ℕ };

    ghost view = { λ a. a.items.items };
}

impl Items {
    /// The items in order.
    pub fn as_slice(&self) -> &[u32]
        ensures { result.now ≡ self.now }
    {
        self.items.as_slice()
    }
}

/// A transaction: some of the items of one key.
#[derive(Drop)]
pub struct Transaction {
    pub key: u32,
    pub items: Items,
}

/// The batches of each key: its items in order, `limits[key]` in each transaction, and perhaps fewer in the last one.
///
/// `placed` is sorted by key and then by item, with no repeats. No list of transactions within the limits that brings
/// each item to its key is shorter. The time is linear in `placed`. Memory is taken for the distinct keys, for a node of
/// 8 bytes per item, and for the items of each transaction once, in their exact size; the only error is that it's refused.
pub fn batches(
    alloc: Global,
    placed: &[Placed],
    limits: &[u32],
) -> Result<Vec<Transaction>, AllocError>
    requires ascending { IsAscendingPlaced placed.now }
    requires keys { All (λ p. p.key < length limits.now) placed.now }
    requires limits { All (λ limit. 0 < limit) limits.now }
    requires count { length placed.now ≤ 2 ^ 32 - 2 }
    ensures batches { IfOk result (λ ts. ts.items ≡ batches_of limits.now placed.now) }
    ensures sound { IfOk result (λ ts. IsSoundFor limits.now placed.now ts.items) }
    ensures fewest { IfOk result (λ ts. (other : List Transaction) → IsSoundFor limits.now placed.now other → length ts.items ≤ length other) }
{
    let keys = distinct_keys(alloc, placed)?;
    let rings = rings_by_key(alloc, placed, keys.as_slice())?;
    cut_rings(alloc, &rings, keys.as_slice(), limits)
}

/// The distinct keys, in order.
fn distinct_keys(alloc: Global, placed: &[Placed]) -> Result<Vec<u32>, AllocError>
    ensures { IfOk result (λ keys. keys.items ≡ keys_of placed.now) }
{
    let mut keys = Vec::new(alloc);
    for p in placed {
        if keys.last().copied() != Some(p.key) {
            keys.push(p.key)?;
        }
    }
    Ok(keys)
}

/// One ring for each of the distinct keys, by its place among them.
fn rings_by_key(alloc: Global, placed: &[Placed], keys: &[u32]) -> Result<Rings, AllocError>
    requires ascending { IsAscendingPlaced placed.now }
    requires keys { keys.now ≡ keys_of placed.now }
    requires count { length placed.now ≤ 2 ^ 32 - 2 }
    ensures { IfOk result (λ rings. rings.lists ≡ map (items_at placed.now) keys.now) }
{
    let mut rings = Rings::new(alloc, keys.len(), placed.len())?;
    let mut dest = 0;
    for p in placed {
        if keys[dest] != p.key {
            dest += 1;
        }
        match rings.append(dest, p.item) {
            Ok(()) => {}
            Err(RingFault::Memory) => return Err(AllocError),
            Err(RingFault::Full) => unreachable!(),
        }
    }
    Ok(rings)
}

/// The transactions of each key in turn, cut from the ring at the key's place.
fn cut_rings(
    alloc: Global,
    rings: &Rings,
    keys: &[u32],
    limits: &[u32],
) -> Result<Vec<Transaction>, AllocError>
    requires keys { All (λ key. key < length limits.now) keys.now }
    requires limits { All (λ limit. 0 < limit) limits.now }
    requires rings { length rings.now.lists ≡ length keys.now }
    ensures { IfOk result (λ ts. (placed : List Placed) → rings.now.lists ≡ map (items_at placed) keys.now → ts.items ≡ flat_map (batches_at limits.now placed) keys.now) }
{
    let mut transactions = Vec::new(alloc);
    for (dest, key) in keys.iter().enumerate() {
        let limit = limits[*key as usize];
        cut_ring(alloc, rings, dest, *key, limit, &mut transactions)?;
    }
    Ok(transactions)
}

/// Cuts a key's ring into transactions of `limit` items, in one walk; the last may be shorter.
fn cut_ring(
    alloc: Global,
    rings: &Rings,
    dest: usize,
    key: u32,
    limit: u32,
    transactions: &mut Vec<Transaction>,
) -> Result<(), AllocError>
    requires dest { dest < length rings.now.lists }
    requires limit { 0 < limit }
    ensures { OnOk result (transactions.new.items ≡ transactions.old.items ++ transactions_of key limit (list_at rings.now dest)) }
{
    let mut walk = rings.walk(dest);
    let mut left = rings.len(dest);
    while left > 0 {
        let count = left.min(limit as usize);
        let items = next_items(alloc, &mut walk, count)?;
        transactions.push(Transaction { key, items })?;
        left -= count;
    }
    Ok(())
}

/// The next `count` items of a walk, in memory for as many.
fn next_items(alloc: Global, walk: &mut Walk<'_>, count: usize) -> Result<Items, AllocError>
    requires { count ≤ length (walk_rest walk.old) }
    ensures taken { IfOk result (λ items. items ≡ take count (walk_rest walk.old)) }
    ensures rest { OnOk result (walk_rest walk.new ≡ drop count (walk_rest walk.old)) }
{
    let mut items = Vec::with_capacity(alloc, count)?;
    for _ in 0..count {
        let item = walk.next().unwrap();
        items.push(item)?;
    }
    Ok(Items { items })
}
