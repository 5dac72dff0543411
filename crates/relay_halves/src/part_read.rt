//! What the parts of a text say, read by several threads and put together.
ghost use Rattle.std.specs.Prelude.{◌≡◌, ◌<◌, ◌+◌, ◌^◌, length, IfOk};
ghost use Rattle.std.specs.Result.{result_ok};
ghost use Rattle.std.specs.Thread.{IsSync};
ghost use Rattle.relay_halves.specs.PartReads.{BothMake};

use crate::halving::{halves, line_count};
use std::alloc::{AllocError, Global};
use std::thread::{Threads, join};

/// What was read of a part of a text.
pub trait PartRead {
    ghost use Rattle.std.specs.Prelude.{◌≡◌, ◌<◌, ◌+◌, ◌^◌, ◌++◌, ℕ, List, length, IfOk, OnOk};
    ghost use Rattle.relay_text.specs.Lines.{raw_lines};
    ghost use Rattle.relay_halves.specs.Halves.{EndsWithLine, BeginsLogicalLine};

    // this was read of a part, where so many lines of the text stand before it
    ghost is_read: { ℕ → List ℕ → Self → Type 0 };

    // a part and the one behind it make this
    ghost makes: { Self → Self → Self → Type 0 };

    /// Reads one line after another, where so many lines stand before the part. About so many lines are expected, of this part and of those
    /// that are put behind it. `Err` where memory runs out.
    fn read(alloc: Global, expected: usize, passed: usize, bytes: &[u8]) -> Result<Self, AllocError>
        requires { passed + length bytes.now < 2 ^ 64 }
        ensures { IfOk result (is_read passed bytes.now) };

    /// Puts the part behind it at its end. `Err` where memory runs out.
    fn append(&mut self, more: Self) -> Result<(), AllocError>
        ensures { OnOk result (makes self.old more self.new) };

    // What both parts make was read of the whole.
    ghost reads_on: { (passed behind : ℕ) (front back : List ℕ) (first second both : Self) → EndsWithLine front → BeginsLogicalLine back
        → behind ≡ passed + length (raw_lines front) → is_read passed front first → is_read behind back second → makes first second both
        → is_read passed (front ++ back) both };
}

/// What a text says, read by so many threads, this one among them, where it is long enough for two. `Err` where memory runs out.
pub fn read_by<R: Threads + Sync, P: PartRead + Send + Drop>(
    rt: &R,
    alloc: Global,
    workers: usize,
    expected: usize,
    passed: usize,
    bytes: &[u8],
) -> Result<P, AllocError>
    requires { passed + length bytes.now < 2 ^ 64 }
    ensures { IfOk result (P.is_read passed bytes.now) }
{
    let Some((front, back)) = halves(workers, bytes) else {
        return P::read(alloc, expected, passed, bytes);
    };
    let behind = passed + line_count(front);
    let share = workers / 2;
    let rest = workers - share;
    let fewer = expected / 2;
    let (here, there) = join(
        rt,
        || -> Result<P, AllocError>
            requires { IsSync R.row × (passed + length front.now < 2 ^ 64) }
            ensures { IfOk result (P.is_read passed front.entry.now) }
        { read_by(rt, alloc, share, expected, passed, front) },
        || -> Result<P, AllocError>
            requires { IsSync R.row × (behind + length back.now < 2 ^ 64) }
            ensures { IfOk result (P.is_read behind back.entry.now) }
        { read_by(rt, alloc, rest, fewer, behind, back) },
    );
    both(here, there)
}

/// What both parts make, where both were read.
fn both<P: PartRead + Drop>(
    here: Result<P, AllocError>,
    there: Result<P, AllocError>,
) -> Result<P, AllocError>
    ensures { IfOk result (BothMake P.makes (result_ok here) (result_ok there)) }
{
    let Ok(mut part) = here else {
        return Err(AllocError);
    };
    let Ok(more) = there else {
        return Err(AllocError);
    };
    part.append(more)?;
    Ok(part)
}
