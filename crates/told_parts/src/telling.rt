// What is told of a text by a call's words.
use crate::making::push_made;
use crate::modules::{is_copied, output, source};
use crate::{lowering, machine, printing, running, words};
use ltt_base::{Fault, Memory, Text};
use std::alloc::Global;

/// The first word and the others.
pub fn first(words: &str) -> (&str, &str) {
    words.split_once(' ').unwrap_or((words, ""))
}

/// Tells what the call answers of the text, or where the text is refused.
pub fn tell(alloc: Global, out: &mut Text, call: &str, text: &str) -> Result<(), Memory> {
    match tell_of(alloc, out, call, text) {
        Ok(()) => Ok(()),
        Err(Fault::Refused(refusal)) => {
            let place = refusal.place;
            push_made(
                out,
                format!(in alloc; "refused {}:{}", place.line, place.column),
            )
        }
        Err(Fault::Memory) => Err(Memory),
    }
}

fn tell_of(alloc: Global, out: &mut Text, call: &str, text: &str) -> Result<(), Fault> {
    let (word, rest) = first(call);
    match word {
        "print-output" => printing::tell(alloc, out, output(alloc, text.as_bytes())?, rest),
        "print-source" => printing::tell(alloc, out, source(alloc, text.as_bytes())?, rest),
        "run" => running::tell(alloc, out, source(alloc, text.as_bytes())?, rest),
        "numeric" => Ok(machine::tell(alloc, out, output(alloc, text.as_bytes())?, rest)?),
        "steps" => Ok(machine::tell_steps(alloc, out, output(alloc, text.as_bytes())?, rest)?),
        "lowered" => lowering::tell(alloc, out, text.as_bytes(), rest),
        "entry" => running::tell_entry(alloc, out, source(alloc, text.as_bytes())?, rest),
        _ => tell_words(alloc, out, word, rest, text),
    }
}

fn tell_words(
    alloc: Global,
    out: &mut Text,
    word: &str,
    rest: &str,
    text: &str,
) -> Result<(), Fault> {
    match word {
        "copy-source" => is_copied(alloc, out, source(alloc, text.as_bytes())?),
        "copy-output" => is_copied(alloc, out, output(alloc, text.as_bytes())?),
        "number" => words::tell_number(alloc, out, rest, text.as_bytes()),
        "count" => words::tell_steps(alloc, out, text.as_bytes()),
        "answers" => words::tell_answers(alloc, out, text.as_bytes()),
        "zeros" => words::tell_zeros(alloc, out, rest),
        _ => Ok(out.extend(b"no such call")?),
    }
}
