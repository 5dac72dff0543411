//! `aliasplan` reads its command line, answers what that asks for, and ends with a status of aliasplan_command.
#![tactic(auto)]

use aliasplan_command::{answer, read_words};
use std::process::ExitCode;

fn main(rt: HostRuntime) -> ExitCode {
    let request = read_words(&rt);
    ExitCode::from(answer(&rt, &request).code())
}
