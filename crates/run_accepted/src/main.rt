//! The program `ltt`, run on a file that is accepted, as clang writes it.
#![tactic(auto)]

use std::process::ExitCode;

fn main(rt: HostRuntime) -> ExitCode {
    ltt_machine::run(rt)
}
