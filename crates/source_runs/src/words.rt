// Numbers, and lists of numbers, as the words of a call write them.
ghost use Rattle.std.specs.Prelude.{◌≡◌, ◌≤◌, [], length, take, is_some, IfOk};
ghost use Rattle.source_runs.specs.Words as spec;

use ir_names::{is_decimal, value_of};
use ltt_base::{List, Memory};
use std::alloc::Global;

/// The most steps of a run.
const STEPS: u64 = 10_000_000;

/// The most answers.
const ANSWERS: usize = 10_000;

/// The number that a word writes in decimal, without sign and leading zeros. `None`: it writes none, or one above `most`.
pub fn number_of(word: &[u8], most: u64) -> Option<u64>
    ensures { result ≡ spec.number_of most word.now }
{
    if !is_decimal(word) {
        return None;
    }
    let value = value_of(word);
    if value <= u128::from(most) {
        Some(value as u64)
    } else {
        None
    }
}

/// The number of steps that a word asks for, at most 10,000,000.
#[tactic(auto, unfolding(crate::specs::Words::step_limit))]
pub fn steps_of(word: &[u8]) -> Option<u64>
    ensures { result ≡ spec.steps_of word.now }
{
    number_of(word, STEPS)
}

#[tactic(auto, unfolding(crate::specs::Words::greatest))]
fn answer_of(word: &[u8]) -> Option<u64>
    ensures { result ≡ spec.number_of spec.greatest word.now }
{
    number_of(word, u64::MAX)
}

/// The length of the first word of a text of words with commas between them.
fn first_end(text: &[u8]) -> usize
    ensures value { result ≡ spec.first_end text.now }
    ensures within { result ≤ length text.now }
{
    for at in 0..text.len() {
        if text[at] == b',' {
            return at;
        }
    }
    text.len()
}

/// The first word of a text of words with commas between them.
fn first_word(text: &[u8]) -> &[u8]
    ensures word { result.now ≡ take (spec.first_end text.now) text.now }
    ensures size { length result.now ≡ spec.first_end text.now }
{
    &text[..first_end(text)]
}

/// The answers that words with commas between them write.
fn listed(alloc: Global, text: &[u8]) -> Result<Option<List<u64>>, Memory>
    ensures { IfOk result (λ answers. answers ≡ spec.answers_behind [] (spec.words_of text.now)) }
{
    let mut answers = List::new(alloc);
    let mut start = 0;
    while start <= text.len() {
        let word = first_word(&text[start..]);
        match answer_of(word) {
            Some(answer) => answers.add(answer)?,
            None => return Ok(None),
        }
        start += word.len() + 1;
    }
    Ok(Some(answers))
}

#[tactic(auto, unfolding(crate::specs::Words::answer_limit))]
fn few(answers: List<u64>) -> Option<List<u64>>
    ensures { result ≡ spec.few answers }
{
    if answers.len() <= ANSWERS {
        Some(answers)
    } else {
        None
    }
}

/// How many numbers below 2^64 a text writes, with commas between them. `None`: it writes something else.
fn count(text: &[u8]) -> Option<usize>
    ensures { result ≡ spec.count_behind 0 (spec.words_of text.now) }
{
    let mut count = 0;
    let mut start = 0;
    while start <= text.len() {
        let word = first_word(&text[start..]);
        match answer_of(word) {
            Some(_) => count += 1,
            None => return None,
        }
        start += word.len() + 1;
    }
    Some(count)
}

#[tactic(auto, unfolding(crate::specs::Words::answer_limit))]
fn are_few(count: Option<usize>) -> bool
    ensures { result ≡ spec.are_few count }
{
    match count {
        Some(count) => count <= ANSWERS,
        None => false,
    }
}

/// Whether a word writes answers, as `answers_of` tells it. Takes no memory.
pub fn are_answers(word: &[u8]) -> bool
    ensures { result ≡ is_some (spec.answers_of word.now) }
{
    if word == b"-".as_slice() {
        return true;
    }
    are_few(count(word))
}

/// The answers that a word writes: `-` for none, or 1 to 10,000 numbers below 2^64 with commas between them. `None`: it writes none of these.
pub fn answers_of(alloc: Global, word: &[u8]) -> Result<Option<List<u64>>, Memory>
    ensures { IfOk result (λ answers. answers ≡ spec.answers_of word.now) }
{
    if word == b"-".as_slice() {
        return Ok(Some(List::new(alloc)));
    }
    match listed(alloc, word)? {
        Some(answers) => Ok(few(answers)),
        None => Ok(None),
    }
}
