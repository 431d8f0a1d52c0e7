// A sink in memory, for tests and for texts that go on.
ghost use Rattle.std.specs.Prelude.{◌≡◌, ◌<◌, ◌≤◌, [], ◌∷◌, ◌++◌, length, Some, is_err, IfOk, OnOk, OnErr};
ghost use Rattle.ltt_base.specs.Outside.{Rose, Takes};
ghost use Rattle.ltt_base.specs.MemorySink.{write_fails, write_count, after_write};

use crate::list::List;
use crate::outside::{Failed, Sink};
use crate::refusal::Memory;
use std::alloc::Global;
use std::marker::Model;

/// A sink in memory, which tells what it has taken.
#[derive(Drop)]
pub struct MemSink {
    bytes: Vec<u8>,
    room: usize,
    most: usize,
    failing: List<u64>,
    writes: u64,
    faults: u64,
}

impl Model for MemSink {
    ghost use Rattle.std.specs.Prelude.{◌≤◌, vec_capacity, length};
    ghost use Rattle.ltt_base.specs.MemorySink.{SinkState};

    ghost Value = { SinkState };

    ghost view = { λ sink. record {
      taken = sink.bytes.items;
      room = sink.room;
      most = sink.most;
      failing = sink.failing;
      writes = sink.writes;
      faults = sink.faults;
    } };

    // the memory is there for all bytes that it takes
    ghost invariant = { λ sink. (1 ≤ sink.most) × (length sink.bytes.items ≤ sink.room) × (sink.room ≤ vec_capacity sink.bytes) };
}

impl MemSink {
    ghost use Rattle.ltt_base.specs.MemorySink.{SinkState};

    /// A sink with the memory for `room` bytes, of which a write takes at most `most`. It fails where no room is left.
    pub fn new(alloc: Global, room: usize, most: usize) -> Result<MemSink, Memory>
        requires { 1 ≤ most }
        ensures { IfOk result (λ sink. sink ≡ record { taken = []; room = room; most = most; failing = []; writes = 0; faults = 0 }) }
    {
        match Vec::with_capacity(alloc, room) {
            Ok(bytes) => Ok(MemSink {
                bytes,
                room,
                most,
                failing: List::new(alloc),
                writes: 0,
                faults: 0,
            }),
            Err(_) => Err(Memory),
        }
    }

    /// Makes the write of this number fail. The first write is 1.
    pub fn fail_write(&mut self, call: u64) -> Result<(), Memory>
        ensures listed { OnOk result (self.new ≡ record self.old { failing = self.old.failing ++ call ∷ [] }) }
        ensures same { OnErr result (self.new ≡ self.old) }
    {
        self.failing.add(call)
    }

    /// The bytes taken so far.
    pub fn taken(&self) -> &[u8]
        ensures { result.now ≡ self.now.taken }
    {
        self.bytes.as_slice()
    }
}

impl Sink for MemSink {
    ghost taken = { λ sink. Some sink.taken };

    ghost faults = { λ sink. sink.faults };

    /// Takes the lesser of `most`, what is left of the room and the piece's length, in memory that is there.
    fn write(&mut self, piece: &[u8]) -> Result<usize, Failed>
        requires { 0 < length piece.now }
        ensures counts { self.old.faults ≤ self.new.faults }
        ensures took { Takes (Some self.old.taken) (Some self.new.taken) result piece.now }
        ensures same { OnErr result (self.new.taken ≡ self.old.taken) }
        ensures failed { OnErr result (Rose self.old.faults self.new.faults) }

        ensures fails { is_err result ≡ write_fails self.old }
        ensures count { IfOk result (λ count. count ≡ write_count self.old (length piece.now)) }
        ensures after { self.new ≡ after_write self.old piece.now }
    {
        self.writes = self.writes.saturating_add(1);
        let left = self.room - self.bytes.len();
        if left == 0 || self.failing.items().contains(&self.writes) {
            self.faults = self.faults.saturating_add(1);
            return Err(Failed);
        }
        let count = self.most.min(left).min(piece.len());
        match self.bytes.extend_from_slice(&piece[..count]) {
            Ok(()) => Ok(count),
            Err(_) => unreachable!(),
        }
    }
}
