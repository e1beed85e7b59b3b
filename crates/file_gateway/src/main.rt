//! The program `file_gateway`. Its stored run replays a script on devices whose files lie in its own folder.
#![tactic(auto)]

use std::process::ExitCode;

fn main(rt: HostRuntime) -> ExitCode {
    gateway_program::run(&rt)
}
