//! The public calls of relay_text, relay_aliasfile, relay_wire, relay_returns and relay_explain that take memory, each on a worked example, made
//! and judged as growth_answers says.
#![tactic(auto)]

mod alias_files;
mod explained;
mod inputs;
mod places;
mod returned;
mod telling;
mod texts;
mod wire;
mod words;

use growth_answers::{DONE, Teller};
use std::env;
use std::process::ExitCode;
use std::thread::Threads;

fn main(rt: HostRuntime) -> ExitCode {
    let Ok(words) = env::args(&rt) else {
        let _ = println!(rt; "refused_texts had no memory to begin");
        return ExitCode::from(DONE);
    };
    let mut words = words.skip(1);
    let name = words.next();
    drop(words);
    let status = told(&rt, name.as_deref());
    drop(name);
    ExitCode::from(status)
}

/// The status after the one call of this name, or after all calls.
fn told<R: Print + AllocGlobal + Threads + Sync>(rt: &R, asked: Option<&str>) -> u8 {
    let mut teller = Teller::new(rt, asked);
    texts::tell(&mut teller);
    alias_files::tell(&mut teller);
    wire::tell(&mut teller);
    words::tell(&mut teller);
    returned::tell(&mut teller);
    places::tell(&mut teller);
    explained::tell(&mut teller);
    teller.status()
}
