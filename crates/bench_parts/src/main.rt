//! How fast the crates are that plan, a part of them at a time.
//!
//! The first word names the part: `chains`, `rounds`, `loops` or `routes`. With the words `bench N` behind it times are printed, for N
//! of what the part takes; `loops` takes the name of a shape behind these, for that shape alone. Without `bench` a part takes few and
//! prints what it counted, which is the same each time. With no word each part does so.
#![tactic(auto)]

mod bench_words;
mod chains;
mod graphs;
mod loops;
mod part;
mod plain;
mod rounds;
mod routes;
mod shape;
mod shuffling;
mod texts;
mod watch;

use crate::bench_words::{BenchWords, is_wanted};
use crate::part::Part;
use crate::watch::Watch;
use anyhow::{Result, ensure};
use std::env;

fn main(rt: HostRuntime) -> Result<()> {
    let mut words = env::args(&rt)?.skip(1);
    let chosen = words.next();
    let mut is_part = false;
    for part in Part::ALL {
        if is_wanted(chosen.as_deref(), part.name()) {
            let given = BenchWords::read(&mut words, part.few())?;
            let shape = words.next();
            part.run(&Watch { rt: &rt, given }, shape.as_deref())?;
            is_part = true;
        }
    }
    ensure!(is_part, "the first word isn't the name of a part");
    Ok(())
}
