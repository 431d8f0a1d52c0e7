ghost use Rattle.std.specs.Prelude.{◌≡◌, [], ◌∷◌, ◌++◌, IfOk, codes, drop};
ghost use Rattle.type_grammar.specs.Levels.{levels};
ghost use Rattle.type_grammar.specs.Reading.{reads};
ghost use Rattle.unit_grammar.specs.Readers.{read};
ghost use Rattle.unit_grammar.specs.Grammar.{◌▹◌};
ghost use Rattle.unit_grammar.specs.Seeing.{Gives, Passes, tokens};
ghost use Rattle.unit_grammar.specs.Signs.{word, words};
ghost use Rattle.word_grammar.specs.Attributes as spec;

use crate::words::{attribute_words, attribute_words_with_arguments};
use ir_lex::Kind;
use ltt_base::{List, Memory, Text};
use std::alloc::Global;
use unit_grammar::{Input, Stop, enclosed, pass_kind, pass_word, word};

/// A balanced parenthesis.
pub fn in_parenthesis(input: &Input<'_>, at: usize) -> Result<usize, Stop>
    ensures { Passes (tokens input.now) result (read (reads levels) spec.in_parenthesis (drop at (tokens input.now))) }
{
    enclosed(input, at, b"(", b")")
}

#[tactic(auto, unfolding(crate::specs::Attributes::maybe_arguments))]
pub fn maybe_arguments(input: &Input<'_>, at: usize) -> Result<usize, Stop>
    ensures { Passes (tokens input.now) result (read (reads levels) spec.maybe_arguments (drop at (tokens input.now))) }
{
    match in_parenthesis(input, at) {
        Ok(behind) => Ok(behind),
        Err(Stop::Absent) => Ok(at),
        Err(Stop::Deep) => Err(Stop::Deep),
        Err(Stop::Memory) => Err(Stop::Memory),
    }
}

#[tactic(auto, unfolding(crate::specs::Attributes::alignment))]
pub fn alignment(input: &Input<'_>, at: usize) -> Result<usize, Stop>
    ensures { Passes (tokens input.now) result (read (reads levels) spec.alignment (drop at (tokens input.now))) }
{
    match pass_kind(input, at, Kind::Number) {
        Err(Stop::Absent) => {}
        found => return found,
    }
    in_parenthesis(input, at)
}

fn with_arguments(input: &Input<'_>, at: usize) -> Result<usize, Stop>
    ensures { Passes (tokens input.now) result
        (read (reads levels) (words spec.attribute_words_with_arguments ▹ spec.in_parenthesis) (drop at (tokens input.now))) }
{
    let at = pass_word(input, at, attribute_words_with_arguments())?;
    in_parenthesis(input, at)
}

/// `align` with what stands behind it.
pub fn aligned(input: &Input<'_>, at: usize) -> Result<usize, Stop>
    ensures { Passes (tokens input.now) result
        (read (reads levels) (word (codes "align") ▹ spec.alignment) (drop at (tokens input.now))) }
{
    let at = word(input, at, b"align")?;
    alignment(input, at)
}

fn dead(input: &Input<'_>, at: usize) -> Result<usize, Stop>
    ensures { Passes (tokens input.now) result
        (read (reads levels) (word (codes "dead_on_return") ▹ spec.maybe_arguments) (drop at (tokens input.now))) }
{
    let at = word(input, at, b"dead_on_return")?;
    maybe_arguments(input, at)
}

/// An attribute of a parameter, an argument or a result; the answer is the place behind it.
#[tactic(auto, unfolding(crate::specs::Attributes::attribute))]
pub fn attribute(input: &Input<'_>, at: usize) -> Result<usize, Stop>
    ensures { Passes (tokens input.now) result (read (reads levels) spec.attribute (drop at (tokens input.now))) }
{
    match pass_word(input, at, attribute_words()) {
        Err(Stop::Absent) => {}
        found => return found,
    }
    match with_arguments(input, at) {
        Err(Stop::Absent) => {}
        found => return found,
    }
    match aligned(input, at) {
        Err(Stop::Absent) => {}
        found => return found,
    }
    dead(input, at)
}

/// Any number of attributes; the answer is the place behind them.
#[tactic(auto, unfolding(crate::specs::Attributes::attribute_run))]
pub fn attribute_run(input: &Input<'_>, at: usize) -> Result<usize, Stop>
    ensures { Passes (tokens input.now) result (read (reads levels) spec.attribute_run (drop at (tokens input.now))) }
{
    let mut at = at;
    for turn in 0..input.left(at) {
        match attribute(input, at) {
            Ok(behind) => at = behind,
            Err(Stop::Absent) => return Ok(at),
            Err(Stop::Deep) => return Err(Stop::Deep),
            Err(Stop::Memory) => return Err(Stop::Memory),
        }
    }
    Ok(at)
}

#[tactic(auto, unfolding(crate::specs::Attributes::by_value))]
fn by_value(alloc: Global, input: &Input<'_>, at: usize) -> Result<(Text, usize), Stop>
    ensures { Gives (tokens input.now) result (read (reads levels) spec.by_value (drop at (tokens input.now))) }
{
    let at = word(input, at, b"byval")?;
    let at = in_parenthesis(input, at)?;
    let text = Text::copy(alloc, b"byval")?;
    Ok((text, at))
}

#[tactic(auto, unfolding(crate::specs::Attributes::parameter_word))]
fn parameter_word(
    alloc: Global,
    input: &Input<'_>,
    at: usize,
) -> Result<(Option<Text>, usize), Stop>
    ensures { Gives (tokens input.now) result (read (reads levels) spec.parameter_word (drop at (tokens input.now))) }
{
    match attribute(input, at) {
        Ok(behind) => return Ok((None, behind)),
        Err(Stop::Absent) => {}
        Err(Stop::Deep) => return Err(Stop::Deep),
        Err(Stop::Memory) => return Err(Stop::Memory),
    }
    let (text, at) = by_value(alloc, input, at)?;
    Ok((Some(text), at))
}

fn with_word(list: List<Text>, word: Option<Text>) -> Result<List<Text>, Memory>
    ensures { IfOk result (λ longer. longer ≡ list ++ spec.said (word ∷ [])) }
{
    let mut list = list;
    if let Some(text) = word {
        list.add(text)?;
    }
    Ok(list)
}

/// Any number of words that stand with a parameter or an argument: the left-out ones among them, in text order.
///
/// Source: LLVM Language Reference, "Parameter Attributes". Differs: of what an attribute is given only the parentheses
/// are looked at.
#[tactic(auto, unfolding(crate::specs::Attributes::parameter_run))]
pub fn parameter_run(
    alloc: Global,
    input: &Input<'_>,
    at: usize,
) -> Result<(List<Text>, usize), Stop>
    ensures { Gives (tokens input.now) result (read (reads levels) spec.parameter_run (drop at (tokens input.now))) }
{
    let mut list = List::new(alloc);
    let mut at = at;
    for turn in 0..input.left(at) {
        match parameter_word(alloc, input, at) {
            Ok((item, behind)) => {
                list = with_word(list, item)?;
                at = behind;
            }
            Err(Stop::Absent) => return Ok((list, at)),
            Err(Stop::Deep) => return Err(Stop::Deep),
            Err(Stop::Memory) => return Err(Stop::Memory),
        }
    }
    Ok((list, at))
}
