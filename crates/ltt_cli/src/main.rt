//! The program `ltt`.
#![tactic(auto)]

use std::process::ExitCode;

fn main(rt: HostRuntime) -> ExitCode {
    ltt_machine::run(rt)
}
