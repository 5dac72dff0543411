//! The public calls that take memory of the crates from relay_chains to relay_loops and of relay_trails, each on a worked example, made and judged as
//! growth_answers says.
#![tactic(auto)]

mod chains;
mod claims;
mod graphs;
mod inputs;
mod lending;
mod loops;
mod pairs;
mod rings;
mod rounds;
mod tables;
mod trails;

use growth_answers::{DONE, Teller};
use std::env;
use std::process::ExitCode;
use std::thread::Threads;

fn main(rt: HostRuntime) -> ExitCode {
    let Ok(words) = env::args(&rt) else {
        let _ = println!(rt; "refused_tables had no memory to begin");
        return ExitCode::from(DONE);
    };
    let name = words.skip(1).next();
    ExitCode::from(told(&rt, name.as_deref()))
}

/// The status after the one call of this name, or after all calls.
fn told<R: Print + AllocGlobal + Threads + Sync>(rt: &R, asked: Option<&str>) -> u8 {
    let mut teller = Teller::new(rt, asked);
    chains::tell(&mut teller);
    rings::tell(&mut teller);
    claims::tell(&mut teller);
    rounds::tell(&mut teller);
    tables::tell(&mut teller);
    graphs::tell(&mut teller);
    pairs::tell(&mut teller);
    loops::tell(&mut teller);
    trails::tell(&mut teller);
    teller.status()
}
