ghost use Rattle.std.specs.Prelude.{◌≤◌, ◌<◌, ◌-◌, ◌^◌, length, All};

use crate::compared::expect;
use crate::rounds_gates::{Counts, Meeting};
use crate::rounds_graphs::{Arrows, Halves, Path, Tenths, Thrice, Wide};
use relay_rounds::{Crew, Gate, Key, NoGate, ReachFault, Steps, reach};
use std::process::Abort;
use std::sync::atomic::{AtomicBool, AtomicUsize, Ordering};
use std::test::Fail;
use std::thread::Threads;

// The answer, by `workers` threads. Where there is no memory at first, that of a second call.
fn reach_at_last<S: Steps, R: AllocGlobal + Threads + Sync>(
    rt: &R,
    steps: &S,
    roots: &[Key],
    workers: usize,
    cut: usize,
    limit: usize,
) -> Result<Vec<Key>, ReachFault>
    requires roots { All (λ key. key < S.key_bound steps.now) roots.now }
    requires workers { 1 ≤ workers }
    requires cut { 1 ≤ cut }
    requires limit { limit ≤ 2 ^ 32 - 2 }
{
    let crew = Crew {
        rt,
        alloc: rt.alloc(),
        workers,
        cut,
        salt: 0,
        gate: &NoGate,
    };
    match reach(&crew, steps, roots, limit) {
        Err(ReachFault::Memory) => reach(&crew, steps, roots, limit),
        answer => answer,
    }
}

// Sees that these keys are reached where the limit is their number.
fn gives_exactly<S: Steps, R: Abort + AllocGlobal + Threads + Sync>(
    rt: &R,
    steps: &S,
    roots: &[Key],
    keys: &[Key],
    workers: usize,
    cut: usize,
) -> Result<(), ReachFault>
    requires roots { All (λ key. key < S.key_bound steps.now) roots.now }
    requires keys { length keys.now ≤ 1000 }
    requires workers { 1 ≤ workers }
    requires cut { 1 ≤ cut }
{
    let found = reach_at_last(rt, steps, roots, workers, cut, keys.len())?;
    expect(rt, found.as_slice(), keys);
    Ok(())
}

// Sees that more workers than keys, and pieces and a limit above their number, give these keys.
fn gives_amply<S: Steps, R: Abort + AllocGlobal + Threads + Sync>(
    rt: &R,
    steps: &S,
    roots: &[Key],
    keys: &[Key],
) -> Result<(), ReachFault>
    requires roots { All (λ key. key < S.key_bound steps.now) roots.now }
{
    let found = reach_at_last(rt, steps, roots, 64, 1000, 1000)?;
    expect(rt, found.as_slice(), keys);
    Ok(())
}

// Sees that so many keys, if any, are too many for a limit below their number.
fn refuses_fewer<S: Steps, R: Abort + AllocGlobal + Threads + Sync>(
    rt: &R,
    steps: &S,
    roots: &[Key],
    count: usize,
    workers: usize,
    cut: usize,
)
    requires roots { All (λ key. key < S.key_bound steps.now) roots.now }
    requires count { count ≤ 1000 }
    requires workers { 1 ≤ workers }
    requires cut { 1 ≤ cut }
{
    if count > 0 {
        let refused = reach_at_last(rt, steps, roots, workers, cut, count - 1).err();
        expect(rt, refused, Some(ReachFault::TooManyPairs));
    }
}

// Sees that any number of workers and any cut give these keys, and that they are too many for a limit below their number.
fn always_gives<S: Steps, R: Abort + AllocGlobal + Threads + Sync>(
    rt: &R,
    steps: &S,
    roots: &[Key],
    keys: &[Key],
) -> Result<(), ReachFault>
    requires roots { All (λ key. key < S.key_bound steps.now) roots.now }
    requires keys { length keys.now ≤ 1000 }
{
    for workers in 1..9 {
        for cut in 1..4 {
            gives_exactly(rt, steps, roots, keys, workers, cut)?;
        }
    }
    gives_amply(rt, steps, roots, keys)?;
    refuses_fewer(rt, steps, roots, keys.len(), 7, 3);
    Ok(())
}

#[test]
fn tenths(rt: HostRuntime) -> Result<(), Fail> {
    always_gives(&rt, &Tenths, &[1, 1], &[0, 1, 2, 3, 4, 5, 6, 7, 8, 9])?;
    gives_exactly(&rt, &Tenths, &[], &[], 2, 1)?;
    Ok(())
}

#[test]
fn tenths_at_their_limit(rt: HostRuntime) -> Result<(), Fail> {
    for workers in [1, 2, 7, 64] {
        for cut in [1, 3, 1000] {
            gives_exactly(
                &rt,
                &Tenths,
                &[1, 1],
                &[0, 1, 2, 3, 4, 5, 6, 7, 8, 9],
                workers,
                cut,
            )?;
            refuses_fewer(&rt, &Tenths, &[1, 1], 10, workers, cut);
        }
    }
    Ok(())
}

#[test]
fn diamond(rt: HostRuntime) -> Result<(), Fail> {
    let steps = Arrows {
        first: &[1, 3, 3, 3, 4],
        second: &[2, 3, 3, 3, 0],
    };
    always_gives(&rt, &steps, &[0], &[0, 1, 2, 3])?;
    Ok(())
}

#[test]
fn ring_and_loops(rt: HostRuntime) -> Result<(), Fail> {
    let steps = Arrows {
        first: &[1, 2, 0, 3, 4],
        second: &[1, 1, 2, 4, 4],
    };
    always_gives(&rt, &steps, &[1], &[0, 1, 2])?;
    always_gives(&rt, &steps, &[4], &[4])?;
    always_gives(&rt, &steps, &[3, 3], &[3, 4])?;
    Ok(())
}

// How many keys there are, and the lowest and the highest.
fn expect_span(rt: &impl Abort, keys: &[Key], count: usize, lowest: Key, highest: Key) {
    let ends = (keys.first().copied(), keys.last().copied());
    expect(
        rt,
        (keys.len(), ends),
        (count, (Some(lowest), Some(highest))),
    );
}

#[test]
fn keys_past_32_bits(rt: HostRuntime) -> Result<(), Fail> {
    let keys = reach_at_last(&rt, &Halves, &[1099511627775], 2, 1, 41)?;
    expect_span(&rt, keys.as_slice(), 41, 0, 1099511627775);
    Ok(())
}

// Sees that two workers come through the gate to the keys, piece by piece.
fn comes_through<S: Steps, G: Gate, R: Abort + AllocGlobal + Threads + Sync>(
    rt: &R,
    steps: &S,
    roots: &[Key],
    keys: &[Key],
    gate: &G,
) -> Result<(), ReachFault>
    requires roots { All (λ key. key < S.key_bound steps.now) roots.now }
    requires keys { length keys.now ≤ 1000 }
{
    let crew = Crew {
        rt,
        alloc: rt.alloc(),
        workers: 2,
        cut: 1,
        salt: 0,
        gate,
    };
    let found = reach(&crew, steps, roots, keys.len())?;
    expect(rt, found.as_slice(), keys);
    Ok(())
}

#[test]
fn enters_each_piece(rt: HostRuntime) -> Result<(), Fail> {
    let gate = Counts {
        entered: [
            AtomicUsize::new(0),
            AtomicUsize::new(0),
            AtomicUsize::new(0),
        ],
    };
    comes_through(&rt, &Thrice, &[0], &[0, 1], &gate)?;
    expect(&rt, gate.counts(), [2, 1, 1]);
    Ok(())
}

#[test]
fn two_threads_meet(rt: HostRuntime) -> Result<(), Fail> {
    let gate = Meeting {
        first: AtomicBool::new(false),
        third: AtomicBool::new(false),
        late: AtomicBool::new(false),
    };
    comes_through(&rt, &Halves, &[0, 1, 2], &[0, 1, 2], &gate)?;
    assert!(rt; !gate.late.load(Ordering::SeqCst));
    Ok(())
}

#[test]
fn path_of_many_rounds(rt: HostRuntime) -> Result<(), Fail> {
    let steps = Path { keys: 100000 };
    let keys = reach_at_last(&rt, &steps, &[0], 4, 1000, 100000)?;
    expect_span(&rt, keys.as_slice(), 100000, 0, 99999);
    Ok(())
}

#[test]
fn wide_graph(rt: HostRuntime) -> Result<(), Fail> {
    let steps = Wide { keys: 60013 };
    let keys = reach_at_last(&rt, &steps, &[0], 4, 1000, 4294967294)?;
    let alone = reach_at_last(&rt, &steps, &[0], 1, 1000, 4294967294)?;
    expect(&rt, keys.len(), 60013);
    assert!(rt; keys.as_slice() == alone.as_slice());
    Ok(())
}
