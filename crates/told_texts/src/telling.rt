// What is told of a text by a call's words.
use crate::making::nested;
use crate::{cutting, layouts, passing, reading, sets, sizes, tokens, units};
use ltt_base::{Memory, Text};
use std::alloc::Global;

/// The longest text, in bytes.
const LIMIT: usize = 67_108_864;

/// The first word and the others.
pub fn first(words: &str) -> (&str, &str) {
    words.split_once(' ').unwrap_or((words, ""))
}

/// Tells what the call answers of the text. `nested N CALL` is told of a text that is made.
pub fn tell(alloc: Global, out: &mut Text, call: &str, text: &str) -> Result<(), Memory> {
    let (word, rest) = first(call);
    if word != "nested" {
        return tell_of(alloc, out, call, text.as_bytes());
    }
    let (times, call) = first(rest);
    let made = nested(alloc, times.parse::<u32>().unwrap_or(0), text)?;
    tell_of(alloc, out, call, made.bytes())
}

fn tell_of(alloc: Global, out: &mut Text, call: &str, text: &[u8]) -> Result<(), Memory> {
    if text.len() > LIMIT {
        return Ok(());
    }
    let (word, rest) = first(call);
    match word {
        "tokens" => tokens::tell(alloc, out, text),
        "read" => reading::tell(alloc, out, rest, text),
        "levels" => reading::tell_levels(alloc, out, rest, text),
        "pass" => passing::tell(alloc, out, rest, text),
        "spell" => passing::tell_spelled(alloc, out, rest, text),
        "size" => sizes::tell(alloc, out, text),
        "cut" => cutting::tell(alloc, out, text),
        "units" => units::tell(alloc, out, text),
        "sort" => units::tell_sort(alloc, out, text),
        "set" => sets::tell(alloc, out, rest, text),
        "rotated" => sets::tell_rotated(out, rest),
        "lanes" => sets::tell_lanes(alloc, out, text),
        "layout" => layouts::tell(alloc, out, rest, text),
        _ => out.extend(b"no such call"),
    }
}
