ghost use Rattle.std.specs.Prelude.{codes, drop};
ghost use Rattle.type_grammar.specs.Levels.{levels};
ghost use Rattle.type_grammar.specs.Reading.{reads};
ghost use Rattle.unit_grammar.specs.Readers.{read};
ghost use Rattle.unit_grammar.specs.Grammar.{◌▹◌, sign};
ghost use Rattle.unit_grammar.specs.Seeing.{Passes, tokens};
ghost use Rattle.unit_grammar.specs.Signs.{mark, of_kind, word, words};
ghost use Rattle.word_grammar.specs.Attributes as attributes;
ghost use Rattle.word_grammar.specs.Runs as spec;

use crate::attributes::{aligned, attribute, in_parenthesis, maybe_arguments};
use crate::words::{
    call_words, dropped_words, dropped_words_with_arguments, function_words,
    function_words_with_arguments, instruction_words, item_words, words_with_perhaps_arguments,
};
use ir_lex::Kind;
use unit_grammar::{Input, Stop, mark, pass_kind, pass_word, word};

#[tactic(auto, unfolding(crate::specs::Runs::item_word))]
fn item_word(input: &Input<'_>, at: usize) -> Result<usize, Stop>
    ensures { Passes (tokens input.now) result (read (reads levels) spec.item_word (drop at (tokens input.now))) }
{
    match pass_word(input, at, item_words()) {
        Err(Stop::Absent) => {}
        found => return found,
    }
    attribute(input, at)
}

/// The words before the type of an item, any number; the answer is the place behind them.
#[tactic(auto, unfolding(crate::specs::Runs::item_run))]
pub fn item_run(input: &Input<'_>, at: usize) -> Result<usize, Stop>
    ensures { Passes (tokens input.now) result (read (reads levels) spec.item_run (drop at (tokens input.now))) }
{
    let mut at = at;
    for turn in 0..input.left(at) {
        match item_word(input, at) {
            Ok(behind) => at = behind,
            Err(Stop::Absent) => return Ok(at),
            Err(Stop::Deep) => return Err(Stop::Deep),
            Err(Stop::Memory) => return Err(Stop::Memory),
        }
    }
    Ok(at)
}

#[tactic(auto, unfolding(crate::specs::Runs::call_word))]
fn call_word(input: &Input<'_>, at: usize) -> Result<usize, Stop>
    ensures { Passes (tokens input.now) result (read (reads levels) spec.call_word (drop at (tokens input.now))) }
{
    match pass_word(input, at, call_words()) {
        Err(Stop::Absent) => {}
        found => return found,
    }
    attribute(input, at)
}

/// The words before the type of a call, any number; the answer is the place behind them.
#[tactic(auto, unfolding(crate::specs::Runs::call_run))]
pub fn call_run(input: &Input<'_>, at: usize) -> Result<usize, Stop>
    ensures { Passes (tokens input.now) result (read (reads levels) spec.call_run (drop at (tokens input.now))) }
{
    let mut at = at;
    for turn in 0..input.left(at) {
        match call_word(input, at) {
            Ok(behind) => at = behind,
            Err(Stop::Absent) => return Ok(at),
            Err(Stop::Deep) => return Err(Stop::Deep),
            Err(Stop::Memory) => return Err(Stop::Memory),
        }
    }
    Ok(at)
}

fn next_value(input: &Input<'_>, at: usize) -> Result<usize, Stop>
    ensures { Passes (tokens input.now) result
        (read (reads levels) (mark (codes "=") ▹ sign (of_kind Kind.Quoted)) (drop at (tokens input.now))) }
{
    let at = mark(input, at, b"=")?;
    pass_kind(input, at, Kind::Quoted)
}

#[tactic(auto, unfolding(crate::specs::Runs::maybe_value))]
fn maybe_value(input: &Input<'_>, at: usize) -> Result<usize, Stop>
    ensures { Passes (tokens input.now) result (read (reads levels) spec.maybe_value (drop at (tokens input.now))) }
{
    match next_value(input, at) {
        Ok(behind) => Ok(behind),
        Err(Stop::Absent) => Ok(at),
        Err(Stop::Deep) => Err(Stop::Deep),
        Err(Stop::Memory) => Err(Stop::Memory),
    }
}

fn function_arguments(input: &Input<'_>, at: usize) -> Result<usize, Stop>
    ensures { Passes (tokens input.now) result (read (reads levels) (words spec.function_words_with_arguments ▹ attributes.in_parenthesis) (drop at (tokens input.now))) }
{
    let at = pass_word(input, at, function_words_with_arguments())?;
    in_parenthesis(input, at)
}

fn table_word(input: &Input<'_>, at: usize) -> Result<usize, Stop>
    ensures { Passes (tokens input.now) result (read (reads levels) (word (codes "uwtable") ▹ attributes.maybe_arguments) (drop at (tokens input.now))) }
{
    let at = word(input, at, b"uwtable")?;
    maybe_arguments(input, at)
}

fn text_attribute(input: &Input<'_>, at: usize) -> Result<usize, Stop>
    ensures { Passes (tokens input.now) result (read (reads levels) (of_kind Kind.Quoted ▹ spec.maybe_value) (drop at (tokens input.now))) }
{
    let at = pass_kind(input, at, Kind::Quoted)?;
    maybe_value(input, at)
}

#[tactic(auto, unfolding(crate::specs::Runs::function_word))]
fn function_word(input: &Input<'_>, at: usize) -> Result<usize, Stop>
    ensures { Passes (tokens input.now) result (read (reads levels) spec.function_word (drop at (tokens input.now))) }
{
    match pass_word(input, at, function_words()) {
        Err(Stop::Absent) => {}
        found => return found,
    }
    match function_arguments(input, at) {
        Err(Stop::Absent) => {}
        found => return found,
    }
    match table_word(input, at) {
        Err(Stop::Absent) => {}
        found => return found,
    }
    match pass_kind(input, at, Kind::Group) {
        Err(Stop::Absent) => {}
        found => return found,
    }
    text_attribute(input, at)
}

/// The words, groups and texts behind parameters or arguments, any number; the answer is the place behind them.
#[tactic(auto, unfolding(crate::specs::Runs::function_run))]
pub fn function_run(input: &Input<'_>, at: usize) -> Result<usize, Stop>
    ensures { Passes (tokens input.now) result (read (reads levels) spec.function_run (drop at (tokens input.now))) }
{
    let mut at = at;
    for turn in 0..input.left(at) {
        match function_word(input, at) {
            Ok(behind) => at = behind,
            Err(Stop::Absent) => return Ok(at),
            Err(Stop::Deep) => return Err(Stop::Deep),
            Err(Stop::Memory) => return Err(Stop::Memory),
        }
    }
    Ok(at)
}

fn instruction_word(input: &Input<'_>, at: usize) -> Result<usize, Stop>
    ensures { Passes (tokens input.now) result (read (reads levels) (sign (words spec.instruction_words)) (drop at (tokens input.now))) }
{
    pass_word(input, at, instruction_words())
}

/// The words of instructions, any number; the answer is the place behind them.
#[tactic(auto, unfolding(crate::specs::Runs::instruction_run))]
pub fn instruction_run(input: &Input<'_>, at: usize) -> Result<usize, Stop>
    ensures { Passes (tokens input.now) result (read (reads levels) spec.instruction_run (drop at (tokens input.now))) }
{
    let mut at = at;
    for turn in 0..input.left(at) {
        match instruction_word(input, at) {
            Ok(behind) => at = behind,
            Err(Stop::Absent) => return Ok(at),
            Err(Stop::Deep) => return Err(Stop::Deep),
            Err(Stop::Memory) => return Err(Stop::Memory),
        }
    }
    Ok(at)
}

fn dropped_arguments(input: &Input<'_>, at: usize) -> Result<usize, Stop>
    ensures { Passes (tokens input.now) result (read (reads levels) (words spec.dropped_words_with_arguments ▹ attributes.in_parenthesis) (drop at (tokens input.now))) }
{
    let at = pass_word(input, at, dropped_words_with_arguments())?;
    in_parenthesis(input, at)
}

fn perhaps_arguments(input: &Input<'_>, at: usize) -> Result<usize, Stop>
    ensures { Passes (tokens input.now) result (read (reads levels) (words spec.words_with_perhaps_arguments ▹ attributes.maybe_arguments) (drop at (tokens input.now))) }
{
    let at = pass_word(input, at, words_with_perhaps_arguments())?;
    maybe_arguments(input, at)
}

/// A word that is dropped somewhere, with its number or parenthesis; the answer is the place behind it.
#[tactic(auto, unfolding(crate::specs::Runs::dropped_word))]
pub fn dropped_word(input: &Input<'_>, at: usize) -> Result<usize, Stop>
    ensures { Passes (tokens input.now) result (read (reads levels) spec.dropped_word (drop at (tokens input.now))) }
{
    match pass_word(input, at, dropped_words()) {
        Err(Stop::Absent) => {}
        found => return found,
    }
    match dropped_arguments(input, at) {
        Err(Stop::Absent) => {}
        found => return found,
    }
    match aligned(input, at) {
        Err(Stop::Absent) => {}
        found => return found,
    }
    perhaps_arguments(input, at)
}

/// The words that are dropped somewhere, any number; the answer is the place behind them.
#[tactic(auto, unfolding(crate::specs::Runs::dropped_run))]
pub fn dropped_run(input: &Input<'_>, at: usize) -> Result<usize, Stop>
    ensures { Passes (tokens input.now) result (read (reads levels) spec.dropped_run (drop at (tokens input.now))) }
{
    let mut at = at;
    for turn in 0..input.left(at) {
        match dropped_word(input, at) {
            Ok(behind) => at = behind,
            Err(Stop::Absent) => return Ok(at),
            Err(Stop::Deep) => return Err(Stop::Deep),
            Err(Stop::Memory) => return Err(Stop::Memory),
        }
    }
    Ok(at)
}
