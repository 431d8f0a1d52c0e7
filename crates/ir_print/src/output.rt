// Text on its way to a sink, through a buffer.
ghost use Rattle.std.specs.Prelude.{◌≡◌};
ghost use Rattle.ir_names.specs.Puts.{Puts};

use crate::buffer::Buffer;
use ir_names::Printer;
use ltt_base::{Failed, Sink, write_all};

/// A sink behind a buffer. Text goes to the sink where the buffer has no room left.
#[derive(Drop)]
pub struct Output<'a, O: Sink> {
    pub sink: &'a mut O,
    pub buffer: Buffer,
    pub failed: bool,
}

impl<O: Sink> Printer for Output<'_, O> {
    ghost state = { λ output. record {
      taken = O.taken output.sink.now;
      faults = O.faults output.sink.now;
      buffer = output.buffer;
      failed = output.failed;
      name = output.sink.ghost_name;
    } };

    fn put(&mut self, piece: &[u8]) {
        if self.failed || self.buffer.add(piece) {
            return;
        }
        self.flush();
        self.put_large(piece);
    }

    fn has_failed(&self) -> bool {
        self.failed
    }
}

impl<O: Sink> Output<'_, O> {
    ghost use Rattle.std.specs.Prelude.{[], true, false, OnOk, OnErr};

    /// Sends what waits, and tells whether the sink took all text.
    pub fn finish(&mut self) -> Result<(), Failed>
        ensures sent { Puts
            (record {
              taken = O.taken self.old.sink.now;
              faults = O.faults self.old.sink.now;
              buffer = self.old.buffer;
              failed = self.old.failed;
              name = self.old.sink.ghost_name;
            })
            (record {
              taken = O.taken self.new.sink.now;
              faults = O.faults self.new.sink.now;
              buffer = self.new.buffer;
              failed = self.new.failed;
              name = self.new.sink.ghost_name;
            })
            [] }
        ensures ok { OnOk result ((self.new.failed ≡ false) × (self.new.buffer ≡ [])) }
        ensures err { OnErr result (self.new.failed ≡ true) }
    {
        if !self.failed {
            self.flush();
        }
        if self.failed { Err(Failed) } else { Ok(()) }
    }

    fn flush(&mut self)
        requires { self.old.failed ≡ false }
        ensures sent { Puts
            (record {
              taken = O.taken self.old.sink.now;
              faults = O.faults self.old.sink.now;
              buffer = self.old.buffer;
              failed = self.old.failed;
              name = self.old.sink.ghost_name;
            })
            (record {
              taken = O.taken self.new.sink.now;
              faults = O.faults self.new.sink.now;
              buffer = self.new.buffer;
              failed = self.new.failed;
              name = self.new.sink.ghost_name;
            })
            [] }
        ensures empty { self.new.failed ≡ false → self.new.buffer ≡ [] }
    {
        match write_all(self.sink, self.buffer.bytes()) {
            Ok(()) => self.buffer.clear(),
            Err(_) => self.failed = true,
        }
    }

    /// Puts a piece for which the buffer had no room before it was emptied.
    fn put_large(&mut self, piece: &[u8])
        requires { self.old.failed ≡ false → self.old.buffer ≡ [] }
        ensures { Puts
            (record {
              taken = O.taken self.old.sink.now;
              faults = O.faults self.old.sink.now;
              buffer = self.old.buffer;
              failed = self.old.failed;
              name = self.old.sink.ghost_name;
            })
            (record {
              taken = O.taken self.new.sink.now;
              faults = O.faults self.new.sink.now;
              buffer = self.new.buffer;
              failed = self.new.failed;
              name = self.new.sink.ghost_name;
            })
            piece.now }
    {
        if self.failed || self.buffer.add(piece) {
            return;
        }
        if write_all(self.sink, piece).is_err() {
            self.failed = true;
        }
    }
}
