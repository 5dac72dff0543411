//! A watch over steps, which prints a line on each.
ghost use Rattle.std.specs.Prelude.{◌≡◌, ◌≤◌, IfOk, is_some};

use crate::bench_words::BenchWords;
use anyhow::Result;
use relay_chains::TextKey;
use relay_rounds::{Crew, NoGate};
use std::rt::Clock;
use std::time::Instant;

/// The key of the hashes of texts, the same in each run: the first 128 bits behind the point of pi.
pub const KEY: TextKey = 0x243f_6a88_85a3_08d3_1319_8a2e_0370_7344;

// The salt of rounds, alike: the next 64 bits.
const SALT: u64 = 0xa409_3822_299f_31d0;

#[derive(Drop)]
pub struct Watch<'a, R> {
    pub rt: &'a R,
    /// What is timed.
    pub given: BenchWords,
}

impl<'a, R: Clock + Print + AllocGlobal> Watch<'a, R> {
    /// The time at which a step begins, if times are printed.
    pub fn start(&self) -> Result<Option<Instant>>
        ensures { IfOk result (λ start. is_some start ≡ self.now.given.timed) }
    {
        if self.given.timed {
            Ok(Some(Instant::now(self.rt)?))
        } else {
            Ok(None)
        }
    }

    /// Prints how many things a step gave, and how many milliseconds it took if it has a `start`.
    pub fn report(
        &self,
        step: &str,
        count: usize,
        things: &str,
        start: Option<Instant>,
    ) -> Result<()> {
        match start {
            Some(start) => {
                let millis = start.elapsed(self.rt)?.as_millis();
                println!(self.rt; "{step}: {count} {things}, {millis} ms")?;
            }
            None => println!(self.rt; "{step}: {count} {things}")?,
        }
        Ok(())
    }

    /// Prints how many things of a step's count went as wanted, and how many nanoseconds each took if it has a `start`.
    pub fn report_good(&self, step: &str, good: usize, start: Option<Instant>) -> Result<()> {
        let count = self.given.count;
        match start {
            Some(start) => {
                let each = start.elapsed(self.rt)?.as_nanos() / u128::from(count.max(1));
                println!(self.rt; "{step}: {good} of {count}, {each} ns each")?;
            }
            None => println!(self.rt; "{step}: {good} of {count}")?,
        }
        Ok(())
    }

    /// Makes a call with each number below the count, and prints how many were answered as wanted.
    pub fn time_calls<F: FnMut(u32) -> Result<bool>>(&self, step: &str, mut call: F) -> Result<()>
        requires { F.IsAlwaysCallable call }
    {
        let start = self.start()?;
        let mut good = 0usize;
        for number in 0..self.given.count {
            if call(number)? {
                good = good.saturating_add(1);
            }
        }
        self.report_good(step, good, start)
    }

    /// So many workers, on pieces of 1,024 keys.
    pub fn crew(&self, workers: usize) -> Crew<'a, NoGate, R>
        requires { 1 ≤ workers }
    {
        Crew {
            rt: self.rt,
            alloc: self.rt.alloc(),
            workers,
            cut: 1024,
            salt: SALT,
            gate: &NoGate,
        }
    }
}
