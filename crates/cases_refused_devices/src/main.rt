//! A stored run of `file_gateway` whose list of devices has a slot twice.
#![tactic(auto)]

use std::process::ExitCode;

fn main(rt: HostRuntime) -> ExitCode {
    gateway_program::run(&rt)
}
