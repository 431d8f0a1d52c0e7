// Runs over the symbolic memory.
use crate::making::push_made;
use crate::modules::listed;
use crate::telling::first;
use ir_meaning::Outcome;
use ir_memories::SPtr;
use ir_values::Module;
use ltt_base::{Fault, List, MemSink, Memory, Text};
use source_runs::{answers_of, entry_of, is_source, print_run, run_source, steps_of};
use std::alloc::Global;

/// The answers of a word.
pub fn answers(alloc: Global, word: &str) -> Result<List<u64>, Memory> {
    match answers_of(alloc, word.as_bytes())? {
        Some(answers) => Ok(answers),
        None => Ok(List::new(alloc)),
    }
}

/// The steps of a word.
pub fn steps(word: &str) -> u64 {
    steps_of(word.as_bytes()).unwrap_or(0)
}

fn lines(alloc: Global, out: &mut Text, outcome: &Outcome<SPtr>, room: &str) -> Result<(), Memory> {
    let mut sink = MemSink::new(alloc, room.parse::<usize>().unwrap_or(1000).min(1000), 7)?;
    let told = print_run(alloc, outcome, &mut sink);
    out.extend(sink.taken())?;
    if told.is_err() {
        out.extend(b" | a fault")?;
    }
    Ok(())
}

/// Tells a run of `@main`: the steps, the answers, and the room of the sink that takes its lines.
pub fn tell(alloc: Global, out: &mut Text, module: Module, words: &str) -> Result<(), Fault> {
    let (count, words) = first(words);
    let (answered, room) = first(words);
    let modules = listed(alloc, module)?;
    let answers = answers(alloc, answered)?;
    if !is_source(modules.items()) {
        return Ok(out.extend(b"no run")?);
    }
    let Some(entry) = entry_of(modules.items(), b"main") else {
        return Ok(out.extend(b"no entry")?);
    };
    let outcome = run_source(alloc, modules.items(), entry, answers.items(), steps(count))?;
    Ok(lines(alloc, out, &outcome, room)?)
}

/// Tells the number of the function of a name from which a run may begin.
pub fn tell_entry(alloc: Global, out: &mut Text, module: Module, name: &str) -> Result<(), Fault> {
    let modules = listed(alloc, module)?;
    if !is_source(modules.items()) {
        return Ok(out.extend(b"no run")?);
    }
    match entry_of(modules.items(), name.as_bytes()) {
        Some(entry) => Ok(push_made(out, format!(in alloc; "{}", entry.index))?),
        None => Ok(out.extend(b"none")?),
    }
}
