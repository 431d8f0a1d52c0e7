// The machine's standard streams. They tell no content.
ghost use Rattle.std.specs.Prelude.{None};

use crate::outside::{Failed, Sink};
use std::io::{Stderr, Stdout, Write};
use std::rt::HostRuntime;

/// A stream of the machine. A write that takes nothing is a fault.
#[derive(Drop)]
pub struct StdSink<W: Write + Drop> {
    stream: W,
    faults: u64,
}

impl StdSink<Stdout> {
    /// The standard output.
    pub fn out(rt: &HostRuntime) -> StdSink<Stdout> {
        StdSink {
            stream: rt.stdout(),
            faults: 0,
        }
    }
}

impl StdSink<Stderr> {
    /// The standard error.
    pub fn err(rt: &HostRuntime) -> StdSink<Stderr> {
        StdSink {
            stream: rt.stderr(),
            faults: 0,
        }
    }
}

impl<W: Write + Drop> Sink for StdSink<W> {
    ghost taken = { λ sink. None };

    ghost faults = { λ sink. sink.faults };

    fn write(&mut self, piece: &[u8]) -> Result<usize, Failed> {
        if let Ok(count) = self.stream.write(piece) {
            if count > 0 {
                return Ok(count);
            }
        }
        self.faults = self.faults.saturating_add(1);
        Err(Failed)
    }
}
