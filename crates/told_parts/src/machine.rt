// Runs of outputs over a numeric memory.
use crate::making::push_made;
use crate::modules::listed;
use crate::placing::placed;
use crate::running::{answers, steps};
use crate::telling::first;
use ir_meaning::{Machine, Status, run};
use ir_memories::{NoMemory, Numeric, Value};
use ir_numbers::bits;
use ir_values::Module;
use ltt_base::{Fault, List, Memory, Text};
use source_runs::{entry_of, is_source};
use std::alloc::Global;

fn word(status: Status) -> &'static str {
    match status {
        Status::Running => "running",
        Status::Returned => "returned",
        Status::Trapped => "trapped",
        Status::Starved => "starved",
        Status::Undefined => "undefined",
    }
}

fn tell_end(
    alloc: Global,
    out: &mut Text,
    status: Status,
    returned: &Option<Value<u64>>,
) -> Result<(), Memory> {
    if status != Status::Returned {
        return out.extend(word(status).as_bytes());
    }
    match returned {
        Some(Value::Int(width, n)) => push_made(out, format!(in alloc; "i{} {}", bits(*width), *n)),
        Some(_) => out.extend(b"ptr"),
        None => out.extend(b"returned"),
    }
}

fn tell_run(
    alloc: Global,
    out: &mut Text,
    modules: &[Module],
    memory: Numeric,
    steps: u64,
    answers: &List<u64>,
) -> Result<(), Memory> {
    if !is_source(modules) {
        return out.extend(b"no run");
    }
    let Some(entry) = entry_of(modules, b"main") else {
        return out.extend(b"no entry");
    };
    match run(alloc, modules, memory, entry, &[], answers.items(), steps) {
        Ok(outcome) => tell_end(alloc, out, outcome.status, &outcome.result),
        Err(NoMemory) => Err(Memory),
    }
}

/// Tells how a run of `@main` ends: where the objects begin, the steps and the answers.
pub fn tell(alloc: Global, out: &mut Text, module: Module, words: &str) -> Result<(), Memory> {
    let (base, words) = first(words);
    let (count, answered) = first(words);
    let answers = answers(alloc, answered)?;
    let Some(memory) = placed(alloc, &module, base.parse::<u64>().unwrap_or(0)) else {
        return out.extend(b"no place");
    };
    let modules = listed(alloc, module)?;
    tell_run(alloc, out, modules.items(), memory, steps(count), &answers)
}

fn tell_two(
    alloc: Global,
    out: &mut Text,
    modules: &[Module],
    memory: Numeric,
) -> Result<(), NoMemory> {
    if !is_source(modules) {
        return Ok(());
    }
    let Some(entry) = entry_of(modules, b"main") else {
        return Ok(());
    };
    let mut machine = Machine::start(alloc, modules, memory, entry, &[], &[])?;
    for _step in 0..2u32 {
        let status = machine.step()?;
        if out.extend(word(status).as_bytes()).is_err() {
            return Err(NoMemory);
        }
        if out.extend(b"\n").is_err() {
            return Err(NoMemory);
        }
    }
    Ok(())
}

/// Tells the status after each of two steps: where the objects begin.
pub fn tell_steps(alloc: Global, out: &mut Text, module: Module, base: &str) -> Result<(), Memory> {
    let Some(memory) = placed(alloc, &module, base.parse::<u64>().unwrap_or(0)) else {
        return out.extend(b"no place");
    };
    let modules = listed(alloc, module)?;
    match tell_two(alloc, out, modules.items(), memory) {
        Ok(()) => Ok(()),
        Err(NoMemory) => Err(Memory),
    }
}
