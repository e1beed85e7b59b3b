//! The program `servient`. Its stored run replays the first script and ends with status 0.
#![tactic(auto)]

use std::process::ExitCode;

fn main(rt: HostRuntime) -> ExitCode {
    servient_program::run(&rt)
}
