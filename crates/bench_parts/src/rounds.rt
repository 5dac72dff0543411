//! Searches of graphs.
ghost use Rattle.std.specs.Prelude.{◌<◌};

use crate::graphs::{Path, Wide};
use crate::plain::plain;
use crate::watch::Watch;
use anyhow::Result;
use relay_rounds::{Steps, reach};
use std::rt::Clock;
use std::thread::Threads;
use std::time::Instant;

const LIMIT: usize = 16777216;

// Prints how many keys a search by so many workers found; 0 stands for the plain one.
fn report<R: Clock + Print + AllocGlobal>(
    watch: &Watch<R>,
    what: &str,
    workers: usize,
    keys: usize,
    start: Option<Instant>,
) -> Result<()> {
    let step = format!(in watch.rt.alloc(); "{what}, {workers} workers")?;
    watch.report(step.as_str(), keys, "keys", start)
}

// Searches a graph from 0, by a plain search and by 1, 2 and 4 workers.
fn compare<S: Steps, R: Clock + Print + AllocGlobal + Threads + Sync>(
    watch: &Watch<R>,
    what: &str,
    steps: &S,
) -> Result<()>
    requires { 0 < S.key_bound steps.now }
{
    let start = watch.start()?;
    let keys = plain(watch.rt.alloc(), steps)?;
    report(watch, what, 0, keys, start)?;
    for workers in [1, 2, 4] {
        let start = watch.start()?;
        let keys = reach(&watch.crew(workers), steps, &[0], LIMIT)?.len();
        report(watch, what, workers, keys, start)?;
    }
    Ok(())
}

/// Times graphs of N keys.
pub fn run<R: Clock + Print + AllocGlobal + Threads + Sync>(watch: &Watch<R>) -> Result<()> {
    let keys = watch.given.count;
    if keys == 0 {
        return Ok(());
    }
    compare(watch, "path", &Path { keys, apart: 1 })?;
    compare(watch, "path, 64 apart", &Path { keys, apart: 64 })?;
    compare(watch, "wide", &Wide { keys })
}
