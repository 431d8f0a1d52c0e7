// The words that ask for a run.
use crate::making::push_made;
use ltt_base::{Fault, Memory, Text};
use source_runs::{answers_of, number_of, steps_of};
use std::alloc::Global;

fn tell_maybe(alloc: Global, out: &mut Text, number: Option<u64>) -> Result<(), Memory> {
    match number {
        Some(number) => push_made(out, format!(in alloc; "{number}")),
        None => out.extend(b"none"),
    }
}

/// Tells the number of a word, which is at most so great.
pub fn tell_number(alloc: Global, out: &mut Text, most: &str, word: &[u8]) -> Result<(), Fault> {
    let most = most.parse::<u64>().unwrap_or(0);
    Ok(tell_maybe(alloc, out, number_of(word, most))?)
}

/// Tells the steps of a word.
pub fn tell_steps(alloc: Global, out: &mut Text, word: &[u8]) -> Result<(), Fault> {
    Ok(tell_maybe(alloc, out, steps_of(word))?)
}

/// Tells the answers of a word.
pub fn tell_answers(alloc: Global, out: &mut Text, word: &[u8]) -> Result<(), Fault> {
    let Some(answers) = answers_of(alloc, word)? else {
        return Ok(out.extend(b"none")?);
    };
    for answer in answers.items() {
        push_made(out, format!(in alloc; "{} ", *answer))?;
    }
    Ok(out.extend(b".")?)
}

fn zeros(alloc: Global, count: u32) -> Result<Text, Memory> {
    let mut word = Text::new(alloc);
    for _at in 1..count {
        word.extend(b"0,")?;
    }
    word.extend(b"0")?;
    Ok(word)
}

/// Tells how many answers so many zeros are.
pub fn tell_zeros(alloc: Global, out: &mut Text, count: &str) -> Result<(), Fault> {
    let word = zeros(alloc, count.parse::<u32>().unwrap_or(0))?;
    match answers_of(alloc, word.bytes())? {
        Some(answers) => Ok(push_made(out, format!(in alloc; "{}", answers.len()))?),
        None => Ok(out.extend(b"none")?),
    }
}
