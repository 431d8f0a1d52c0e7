//! `ltt` over the machine's files and streams.
#![tactic(auto)]

use ltt_base::{DiskFiles, StdSink};
use ltt_driver::{ltt, say_memory};
use std::process::ExitCode;
use std::{env, io};

/// Does what the words after the program's name ask, and answers the status of the process.
///
/// Words that aren't UTF-8 have no form. Where the words can't be made for want of memory, that is told.
pub fn run(rt: HostRuntime) -> ExitCode {
    let mut out = StdSink::out(&rt);
    let mut err = StdSink::err(&rt);
    let mut files = DiskFiles::new(&rt);
    let status = match words(&rt) {
        Ok(words) => ltt(rt.alloc(), words.as_slice(), &mut files, &mut out, &mut err),
        Err(fault) if fault.kind() == io::ErrorKind::OutOfMemory => say_memory(&mut err),
        Err(_) => ltt(rt.alloc(), &[], &mut files, &mut out, &mut err),
    };
    ExitCode::from(status)
}

/// The words after the program's name.
fn words(rt: &HostRuntime) -> io::Result<Vec<String>> {
    let given = env::args(rt)?;
    Ok(given.skip(1).collect(rt.alloc())?)
}
