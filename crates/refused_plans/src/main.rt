//! The public calls of relay_job, relay_envelopes, relay_gather, aliasplan, aliasplan_explain and aliasplan_each that take memory, each on a worked example, made and judged as
//! growth_answers says.
#![tactic(auto)]

mod checks;
mod devices;
mod each;
mod explaining;
mod gathering;
mod jobs;
mod planning;
mod running;

use growth_answers::{DONE, Teller};
use std::env;
use std::process::ExitCode;

fn main(rt: HostRuntime) -> ExitCode {
    let Ok(words) = env::args(&rt) else {
        let _ = println!(rt; "refused_plans had no memory to begin");
        return ExitCode::from(DONE);
    };
    let name = words.skip(1).next();
    let mut teller = Teller::new(&rt, name.as_ref().map(|name| name.as_str()));
    jobs::tell(&mut teller);
    gathering::tell(&mut teller);
    planning::tell(&mut teller);
    checks::tell(&mut teller);
    running::tell(&mut teller);
    explaining::tell(&mut teller);
    each::tell(&mut teller);
    ExitCode::from(teller.status())
}
