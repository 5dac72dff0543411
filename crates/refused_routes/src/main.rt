//! The public calls of relay_routes, relay_destinations and relay_delivery that take memory, each on a worked example, made and judged as
//! growth_answers says.
#![tactic(auto)]

mod deliveries;
mod destinations;
mod lines;
mod route_finders;
mod routes;
mod sought;

use growth_answers::{DONE, Teller};
use std::env;
use std::process::ExitCode;
use std::thread::Threads;

fn main(rt: HostRuntime) -> ExitCode {
    let Ok(words) = env::args(&rt) else {
        let _ = println!(rt; "refused_routes had no memory to begin");
        return ExitCode::from(DONE);
    };
    let name = words.skip(1).next();
    ExitCode::from(told(&rt, name.as_deref()))
}

/// The status after the one call of this name, or after all calls.
fn told<R: Print + AllocGlobal + Threads + Sync>(rt: &R, asked: Option<&str>) -> u8 {
    let mut teller = Teller::new(rt, asked);
    routes::tell(&mut teller);
    route_finders::tell(&mut teller);
    destinations::tell(&mut teller);
    deliveries::tell(&mut teller);
    lines::tell(&mut teller);
    teller.status()
}
