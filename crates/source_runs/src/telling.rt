// What a run came to, line by line, to a sink.
ghost use Rattle.std.specs.Prelude.{◌≡◌, ◌≤◌, flat_map, OnOk, IfErr};
ghost use Rattle.ltt_base.specs.Outside.{Rose, Took, TookPart};
ghost use Rattle.ir_print.specs.declared.printing.PrintFault.{PrintFault};
ghost use Rattle.ir_print.specs.Printing.{Prints};
ghost use Rattle.source_runs.specs.Lines.{event_line, status_line, run_text};

use crate::lines::{event_line, status_line};
use ir_meaning::{Event, Outcome};
use ir_memories::SPtr;
use ir_print::PrintFault;
use ltt_base::{Memory, Sink, Text, write_all};
use std::alloc::Global;

/// Tells what a run came to: a line for each event, in their order, and then one for the status.
///
/// Memory is taken for one line at a time, and each line is written as one piece until it is taken whole. After a
/// failure of the sink nothing more is written.
pub fn print_run<O: Sink>(
    alloc: Global,
    outcome: &Outcome<SPtr>,
    out: &mut O,
) -> Result<(), PrintFault>
    ensures ok { OnOk result (Took (O.taken out.old) (O.taken out.new) (run_text outcome.now)) }
    ensures part { TookPart (O.taken out.old) (O.taken out.new) (run_text outcome.now) }

    ensures write { IfErr result (λ fault. fault ≡ PrintFault.Write → Rose (O.faults out.old) (O.faults out.new)) }
    ensures counts { O.faults out.old ≤ O.faults out.new }
{
    print_lines(alloc, outcome, out)
}

fn print_lines<O: Sink>(
    alloc: Global,
    outcome: &Outcome<SPtr>,
    out: &mut O,
) -> Result<(), PrintFault>
    ensures { Prints (O.taken out.old) (O.taken out.new) (O.faults out.old) (O.faults out.new) (run_text outcome.now) result }
{
    match print_events(alloc, outcome.events.items(), out) {
        Ok(()) => print_status(alloc, outcome, out),
        Err(fault) => Err(fault),
    }
}

fn print_events<O: Sink>(
    alloc: Global,
    events: &[Event<SPtr>],
    out: &mut O,
) -> Result<(), PrintFault>
    ensures { Prints (O.taken out.old) (O.taken out.new) (O.faults out.old) (O.faults out.new) (flat_map event_line events.now) result }
{
    for event in events {
        match print_event(alloc, event, out) {
            Ok(()) => {}
            Err(fault) => return Err(fault),
        }
    }
    Ok(())
}

fn print_event<O: Sink>(alloc: Global, event: &Event<SPtr>, out: &mut O) -> Result<(), PrintFault>
    ensures { Prints (O.taken out.old) (O.taken out.new) (O.faults out.old) (O.faults out.new) (event_line event.now) result }
{
    match event_line(alloc, event) {
        Ok(line) => print_line(line.bytes(), out),
        Err(_) => Err(PrintFault::Memory),
    }
}

fn print_status<O: Sink>(
    alloc: Global,
    outcome: &Outcome<SPtr>,
    out: &mut O,
) -> Result<(), PrintFault>
    ensures { Prints (O.taken out.old) (O.taken out.new) (O.faults out.old) (O.faults out.new)
        (status_line outcome.now.status outcome.now.result) result }
{
    match status_line(alloc, outcome.status, &outcome.result) {
        Ok(line) => print_line(line.bytes(), out),
        Err(_) => Err(PrintFault::Memory),
    }
}

fn print_line<O: Sink>(line: &[u8], out: &mut O) -> Result<(), PrintFault>
    ensures { Prints (O.taken out.old) (O.taken out.new) (O.faults out.old) (O.faults out.new) line.now result }
{
    match write_all(out, line) {
        Ok(()) => Ok(()),
        Err(_) => Err(PrintFault::Write),
    }
}
