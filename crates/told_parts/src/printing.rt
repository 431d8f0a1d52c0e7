// Modules that are printed.
use crate::telling::first;
use ir_print::print_module;
use ir_values::Module;
use ltt_base::{Fault, MemSink, Memory, Text};
use std::alloc::Global;

/// The room of a sink, in bytes.
const ROOM: usize = 65_536;

fn print(alloc: Global, out: &mut Text, module: &Module, sink: &mut MemSink) -> Result<(), Memory> {
    let printed = print_module(alloc, module, sink);
    out.extend(sink.taken())?;
    if printed.is_err() {
        out.extend(b" | a fault")?;
    }
    Ok(())
}

/// Tells what a sink takes of a module: one with so much room, which takes seven bytes at a time and fails at a write. With no
/// words it takes all.
pub fn tell(alloc: Global, out: &mut Text, module: Module, words: &str) -> Result<(), Fault> {
    let (room, failing) = first(words);
    let mut sink = MemSink::new(alloc, room.parse::<usize>().unwrap_or(ROOM).min(ROOM), 7)?;
    if let Ok(failing) = failing.parse::<u64>() {
        sink.fail_write(failing)?;
    }
    print(alloc, out, &module, &mut sink)?;
    Ok(())
}
