// Lines that are told on `err`, one function an outcome.
ghost use Rattle.std.specs.Prelude.{◌≡◌, ◌⊎◌, map, string_bytes};
ghost use Rattle.ltt_base.specs.Lines as Lines;
ghost use Rattle.ltt_driver.specs.Telling.{IsTold, IsWant, TookLine};

use crate::lines::{memory_line, read_fault_line, refusal_line, refusal_status, write_fault_line};
use ltt_base::{Refusal, Sink, write_all};
use std::alloc::Global;

/// Tells a line, and answers its status, but 4 where `err` fails.
pub fn say<E: Sink>(status: u8, line: &[u8], err: &mut E) -> u8
    ensures { IsTold status line.now
        (record { taken = E.taken err.old; faults = E.faults err.old })
        (record { taken = E.taken err.new; faults = E.faults err.new })
        result }
{
    match write_all(err, line) {
        Ok(()) => status,
        Err(_) => 4,
    }
}

/// Tells that memory was wanted. A fault of `err` changes nothing.
pub fn say_memory<E: Sink>(err: &mut E) -> u8
    ensures { IsWant
        (record { taken = E.taken err.old; faults = E.faults err.old })
        (record { taken = E.taken err.new; faults = E.faults err.new })
        result }
{
    match write_all(err, memory_line()) {
        Ok(()) | Err(_) => 5,
    }
}

/// Tells a refusal.
pub fn say_refusal<E: Sink>(alloc: Global, names: &[String], refusal: &Refusal, err: &mut E) -> u8
    ensures { IsTold (Lines.refusal_status refusal.now.code) (Lines.refusal_line (map string_bytes names.now) refusal.now)
        (record { taken = E.taken err.old; faults = E.faults err.old })
        (record { taken = E.taken err.new; faults = E.faults err.new })
        result
        ⊎ IsWant
        (record { taken = E.taken err.old; faults = E.faults err.old })
        (record { taken = E.taken err.new; faults = E.faults err.new })
        result }
{
    match refusal_line(alloc, names, refusal) {
        Ok(line) => say(refusal_status(refusal.code), line.bytes(), err),
        Err(_) => say_memory(err),
    }
}

/// Tells that the file of this name wasn't read.
pub fn say_read_fault<E: Sink>(alloc: Global, name: &[u8], err: &mut E) -> u8
    ensures { IsTold 3 (Lines.read_fault_line name.now)
        (record { taken = E.taken err.old; faults = E.faults err.old })
        (record { taken = E.taken err.new; faults = E.faults err.new })
        result
        ⊎ IsWant
        (record { taken = E.taken err.old; faults = E.faults err.old })
        (record { taken = E.taken err.new; faults = E.faults err.new })
        result }
{
    match read_fault_line(alloc, name) {
        Ok(line) => say(3, line.bytes(), err),
        Err(_) => say_memory(err),
    }
}

/// Tells that `out` failed. A fault of `err` changes nothing.
pub fn say_write_fault<E: Sink>(err: &mut E) -> u8
    ensures code { result ≡ 4 }
    ensures line { TookLine Lines.write_fault_line
        (record { taken = E.taken err.old; faults = E.faults err.old })
        (record { taken = E.taken err.new; faults = E.faults err.new }) }
{
    match write_all(err, write_fault_line()) {
        Ok(()) | Err(_) => 4,
    }
}
