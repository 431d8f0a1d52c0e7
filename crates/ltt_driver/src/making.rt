// What each command writes of its file's text.
ghost use Rattle.std.specs.Prelude.{◌≤◌, [], length, map, string_bytes, unwrap_or};
ghost use Rattle.ir_print.specs.ModuleText.{module_text};
ghost use Rattle.source_runs.specs.Lines.{run_text};
ghost use Rattle.source_runs.specs.Words.{answers_of};
ghost use Rattle.ltt_driver.specs.Asked as Asked;
ghost use Rattle.ltt_driver.specs.Files.{text_limit};
ghost use Rattle.ltt_driver.specs.Telling.{IsMadeOrTold, IsPut};

use crate::command::{Command, Kind};
use crate::pipeline::{check_text, lower_text, output_of, run_text};
use crate::telling::{say_memory, say_refusal, say_write_fault};
use ir_meaning::Outcome;
use ir_memories::SPtr;
use ir_print::{PrintFault, print_module};
use ir_values::Module;
use ltt_base::{Fault, Sink, write_all};
use source_runs::print_run;
use std::alloc::Global;

/// Writes what a command makes of a text, or tells its refusal.
pub fn write_made<O: Sink, E: Sink>(
    alloc: Global,
    command: Command<'_>,
    names: &[String],
    text: &[u8],
    out: &mut O,
    err: &mut E,
) -> u8
    requires { length text.now ≤ text_limit }
    ensures { IsMadeOrTold command.entry (map string_bytes names.now) text.now
        (record { taken = O.taken out.old; faults = O.faults out.old })
        (record { taken = O.taken out.new; faults = O.faults out.new })
        (record { taken = E.taken err.old; faults = E.faults err.old })
        (record { taken = E.taken err.new; faults = E.faults err.new })
        result }
{
    match command.kind {
        Kind::Lower => write_lowered(alloc, names, text, out, err),
        Kind::Check => write_checked(alloc, names, text, out, err),
        Kind::Reprint => write_again(alloc, names, text, out, err),
        Kind::Run {
            steps,
            entry,
            answers,
        } => write_run(alloc, steps, entry, answers, names, text, out, err),
    }
}

/// Writes the output module of a text, or tells its refusal.
fn write_lowered<O: Sink, E: Sink>(
    alloc: Global,
    names: &[String],
    text: &[u8],
    out: &mut O,
    err: &mut E,
) -> u8
    requires { length text.now ≤ text_limit }
    ensures { IsMadeOrTold Asked.Lower (map string_bytes names.now) text.now
        (record { taken = O.taken out.old; faults = O.faults out.old })
        (record { taken = O.taken out.new; faults = O.faults out.new })
        (record { taken = E.taken err.old; faults = E.faults err.old })
        (record { taken = E.taken err.new; faults = E.faults err.new })
        result }
{
    match lower_text(alloc, text) {
        Ok(m) => put_module(alloc, &m, out, err),
        Err(Fault::Refused(refusal)) => say_refusal(alloc, names, &refusal, err),
        Err(Fault::Memory) => say_memory(err),
    }
}

/// Writes that a text is accepted, or tells its refusal.
fn write_checked<O: Sink, E: Sink>(
    alloc: Global,
    names: &[String],
    text: &[u8],
    out: &mut O,
    err: &mut E,
) -> u8
    requires { length text.now ≤ text_limit }
    ensures { IsMadeOrTold Asked.Check (map string_bytes names.now) text.now
        (record { taken = O.taken out.old; faults = O.faults out.old })
        (record { taken = O.taken out.new; faults = O.faults out.new })
        (record { taken = E.taken err.old; faults = E.faults err.old })
        (record { taken = E.taken err.new; faults = E.faults err.new })
        result }
{
    match check_text(alloc, text) {
        Ok(()) => put_line(b"accepted 1\n", out, err),
        Err(Fault::Refused(refusal)) => say_refusal(alloc, names, &refusal, err),
        Err(Fault::Memory) => say_memory(err),
    }
}

/// Writes the module of an output's text again, or tells its refusal.
fn write_again<O: Sink, E: Sink>(
    alloc: Global,
    names: &[String],
    text: &[u8],
    out: &mut O,
    err: &mut E,
) -> u8
    requires { length text.now ≤ text_limit }
    ensures { IsMadeOrTold Asked.Reprint (map string_bytes names.now) text.now
        (record { taken = O.taken out.old; faults = O.faults out.old })
        (record { taken = O.taken out.new; faults = O.faults out.new })
        (record { taken = E.taken err.old; faults = E.faults err.old })
        (record { taken = E.taken err.new; faults = E.faults err.new })
        result }
{
    match output_of(alloc, text) {
        Ok(m) => put_module(alloc, &m, out, err),
        Err(Fault::Refused(refusal)) => say_refusal(alloc, names, &refusal, err),
        Err(Fault::Memory) => say_memory(err),
    }
}

/// Writes what a run of a text's module comes to, or tells its refusal.
fn write_run<O: Sink, E: Sink>(
    alloc: Global,
    steps: u64,
    entry: &[u8],
    answers: &[u8],
    names: &[String],
    text: &[u8],
    out: &mut O,
    err: &mut E,
) -> u8
    requires { length text.now ≤ text_limit }
    ensures { IsMadeOrTold (Asked.Run steps entry.now (unwrap_or (answers_of answers.now) [])) (map string_bytes names.now) text.now
        (record { taken = O.taken out.old; faults = O.faults out.old })
        (record { taken = O.taken out.new; faults = O.faults out.new })
        (record { taken = E.taken err.old; faults = E.faults err.old })
        (record { taken = E.taken err.new; faults = E.faults err.new })
        result }
{
    match run_text(alloc, steps, entry, answers, text) {
        Ok(outcome) => put_run(alloc, &outcome, out, err),
        Err(Fault::Refused(refusal)) => say_refusal(alloc, names, &refusal, err),
        Err(Fault::Memory) => say_memory(err),
    }
}

/// Writes a module.
fn put_module<O: Sink, E: Sink>(alloc: Global, m: &Module, out: &mut O, err: &mut E) -> u8
    ensures { IsPut (module_text m.now)
        (record { taken = O.taken out.old; faults = O.faults out.old })
        (record { taken = O.taken out.new; faults = O.faults out.new })
        (record { taken = E.taken err.old; faults = E.faults err.old })
        (record { taken = E.taken err.new; faults = E.faults err.new })
        result }
{
    match print_module(alloc, m, out) {
        Ok(()) => 0,
        Err(PrintFault::Write) => say_write_fault(err),
        Err(PrintFault::Memory) => say_memory(err),
    }
}

/// Writes what a run came to.
fn put_run<O: Sink, E: Sink>(alloc: Global, outcome: &Outcome<SPtr>, out: &mut O, err: &mut E) -> u8
    ensures { IsPut (run_text outcome.now)
        (record { taken = O.taken out.old; faults = O.faults out.old })
        (record { taken = O.taken out.new; faults = O.faults out.new })
        (record { taken = E.taken err.old; faults = E.faults err.old })
        (record { taken = E.taken err.new; faults = E.faults err.new })
        result }
{
    match print_run(alloc, outcome, out) {
        Ok(()) => 0,
        Err(PrintFault::Write) => say_write_fault(err),
        Err(PrintFault::Memory) => say_memory(err),
    }
}

/// Writes a line.
fn put_line<O: Sink, E: Sink>(line: &[u8], out: &mut O, err: &mut E) -> u8
    ensures { IsPut line.now
        (record { taken = O.taken out.old; faults = O.faults out.old })
        (record { taken = O.taken out.new; faults = O.faults out.new })
        (record { taken = E.taken err.old; faults = E.faults err.old })
        (record { taken = E.taken err.new; faults = E.faults err.new })
        result }
{
    match write_all(out, line) {
        Ok(()) => 0,
        Err(_) => say_write_fault(err),
    }
}
