//! Lists per destination, and transactions within limits.
ghost use Rattle.std.specs.Prelude.{◌≡◌, ◌<◌, length};

use crate::lending::made;
use growth_answers::{Answer, Seen, Teller, Unready, case, twice};
use relay_rings::{Placed, RingFault, Rings, Transaction, batches};
use std::alloc::Global;

/// What is appended to which list, and what the three lists are from then on.
#[derive(Clone, Copy)]
struct Step {
    dest: usize,
    item: u32,
    lists: [&'static [u32]; 3],
}

const NONE: [&[u32]; 3] = [&[], &[], &[]];

/// So many that the nodes grow where there are some.
const STEPS: [Step; 5] = [
    Step {
        dest: 2,
        item: 8,
        lists: [&[], &[], &[8]],
    },
    Step {
        dest: 0,
        item: 5,
        lists: [&[5], &[], &[8]],
    },
    Step {
        dest: 2,
        item: 6,
        lists: [&[5], &[], &[8, 6]],
    },
    Step {
        dest: 1,
        item: 7,
        lists: [&[5], &[7], &[8, 6]],
    },
    Step {
        dest: 0,
        item: 9,
        lists: [&[5, 9], &[7], &[8, 6]],
    },
];

fn makes_rings(alloc: Global) -> Answer {
    match Rings::new(alloc, 3, 3) {
        Ok(rings) => Answer::given(are_lists(&rings, &NONE)),
        Err(_) => Answer::Refused,
    }
}

/// Whether a destination has these items.
fn has_items(rings: &Rings, dest: usize, items: &[u32]) -> bool
    requires { dest < length rings.now.lists }
{
    rings.len(dest) == items.len() && rings.walk(dest).eq(items.iter().copied())
}

fn are_lists(rings: &Rings, lists: &[&[u32]; 3]) -> bool
    requires { length rings.now.lists ≡ 3 }
{
    has_items(rings, 0, lists[0]) && has_items(rings, 1, lists[1]) && has_items(rings, 2, lists[2])
}

/// What a step answers; where it's refused, all lists are as they were.
fn appended(rings: &mut Rings, step: &Step, before: &[&[u32]; 3]) -> Answer
    requires { length rings.old.lists ≡ 3 }
    ensures { length rings.new.lists ≡ 3 }
{
    if step.dest >= 3 {
        return Answer::Wrong;
    }
    match rings.append(step.dest, step.item) {
        Ok(()) => Answer::given(are_lists(rings, &step.lists)),
        Err(RingFault::Memory) => Answer::refused(are_lists(rings, before)),
        Err(RingFault::Full) => Answer::Wrong,
    }
}

/// The same, again where it's refused.
fn appended_at_last(rings: &mut Rings, next: &Step, before: &[&[u32]; 3]) -> Seen
    requires { length rings.old.lists ≡ 3 }
    ensures { length rings.new.lists ≡ 3 }
{
    match appended(rings, next, before) {
        Answer::Refused => Seen::at_last(appended(rings, next, before)),
        answer => Seen::at_once(answer),
    }
}

/// Takes the steps in turn.
fn takes_steps(rings: &mut Rings) -> Seen
    requires { length rings.old.lists ≡ 3 }
    ensures { length rings.new.lists ≡ 3 }
{
    let mut seen = Seen::Answered;
    let mut before = NONE;
    for next in &STEPS {
        seen = seen.max(appended_at_last(rings, next, &before));
        if !seen.is_answered() {
            return seen;
        }
        before = next.lists;
    }
    seen
}

/// Whether nothing more is appended behind the last step.
fn are_full(rings: &mut Rings) -> bool
    requires { length rings.old.lists ≡ 3 }
{
    rings.append(1, 4) == Err(RingFault::Full) && are_lists(rings, &STEPS[4].lists)
}

fn appends(alloc: Global) -> Result<Seen, Unready> {
    let mut rings = Rings::new(alloc, 3, 5)?;
    let seen = takes_steps(&mut rings);
    let is_wrong = seen.is_answered() && !are_full(&mut rings);
    Ok(if is_wrong { Seen::Wrong } else { seen })
}

fn is_transaction(transaction: &Transaction, key: u32, items: &[u32]) -> bool {
    transaction.key == key && transaction.items.as_slice() == items
}

fn are_batches(batches: &Vec<Transaction>) -> bool {
    match batches.as_slice() {
        [first, second, third] => {
            is_transaction(first, 0, &[1, 2])
                && is_transaction(second, 0, &[3])
                && is_transaction(third, 2, &[1])
        }
        _ => false,
    }
}

fn at(key: u32, item: u32) -> Placed
    ensures { result ≡ record { key = key; item = item } }
{
    Placed { key, item }
}

fn cuts_batches(alloc: Global) -> Answer {
    let placed = [at(0, 1), at(0, 2), at(0, 3), at(2, 1)];
    made(batches(alloc, &placed, &[2, 2, 2]), are_batches)
}

pub(crate) fn tell<R: Print + AllocGlobal>(teller: &mut Teller<'_, R>) {
    let alloc = teller.rt.alloc();
    case!(teller, "Rings::new", Ok(twice!(makes_rings(alloc))));
    case!(teller, "Rings::append", appends(alloc));
    case!(teller, "batches", Ok(twice!(cuts_batches(alloc))));
}
