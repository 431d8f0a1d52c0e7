// A buffer of fixed size.
ghost use Rattle.std.specs.Prelude.{◌≡◌, [], ◌++◌, IfOk, true, false};

use ltt_base::Memory;
use std::alloc::Global;
use std::marker::Model;

/// Bytes that wait to be written, up to a fixed number.
#[derive(Drop)]
pub struct Buffer {
    bytes: Vec<u8>,
    size: usize,
}

impl Model for Buffer {
    ghost use Rattle.std.specs.Prelude.{List, ℕ, ◌≤◌, vec_capacity, length};

    ghost Value = { List ℕ };

    ghost view = { λ buffer. buffer.bytes.items };

    // the memory is there for all bytes that it takes
    ghost invariant = { λ buffer. (length buffer.bytes.items ≤ buffer.size) × (buffer.size ≤ vec_capacity buffer.bytes) };
}

impl Buffer {
    /// An empty buffer with the memory for so many bytes.
    pub fn new(alloc: Global, size: usize) -> Result<Buffer, Memory>
        ensures { IfOk result (λ buffer. buffer ≡ []) }
    {
        match Vec::with_capacity(alloc, size) {
            Ok(bytes) => Ok(Buffer { bytes, size }),
            Err(_) => Err(Memory),
        }
    }

    /// The bytes.
    pub fn bytes(&self) -> &[u8]
        ensures { result.now ≡ self.now }
    {
        self.bytes.as_slice()
    }

    /// Adds bytes behind the last, if there is room for all of them. Takes no memory.
    pub fn add(&mut self, bytes: &[u8]) -> bool
        ensures added { result ≡ true → self.new ≡ self.old ++ bytes.now }
        ensures same { result ≡ false → self.new ≡ self.old }
    {
        if bytes.len() > self.size - self.bytes.len() {
            return false;
        }
        match self.bytes.extend_from_slice(bytes) {
            Ok(()) => true,
            Err(_) => unreachable!(),
        }
    }

    /// Takes all bytes out.
    pub fn clear(&mut self)
        ensures { self.new ≡ [] }
    {
        self.bytes.clear();
    }
}
