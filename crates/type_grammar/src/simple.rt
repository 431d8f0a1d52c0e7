ghost use Rattle.std.specs.Prelude.{◌≡◌, drop};
ghost use Rattle.type_grammar.specs.Constants as spec;
ghost use Rattle.type_grammar.specs.Reading.{reads};
ghost use Rattle.unit_grammar.specs.Readers.{read};
ghost use Rattle.unit_grammar.specs.Seeing.{Gives, tokens};

use crate::bare::Bare;
use crate::words::{constant_words, undefined_words};
use ir_lex::Kind;
use ir_values::{Const, Width};
use ltt_base::Text;
use std::alloc::Global;
use unit_grammar::{Input, Stop, global, of_kind, unquoted, without_first, word_of};

#[tactic(auto, unfolding(crate::specs::Constants::number))]
pub fn number(
    alloc: Global,
    levels: usize,
    input: &Input<'_>,
    at: usize,
) -> Result<(Bare, usize), Stop>
    ensures { Gives (tokens input.now) result (read (reads levels) spec.number (drop at (tokens input.now))) }
{
    let _ = levels;
    let (seen, at) = of_kind(input, at, Kind::Number)?;
    let text = Text::copy(alloc, seen.bytes)?;
    Ok((Bare::Number(text), at))
}

fn word_constant(bytes: &[u8]) -> Bare
    ensures { result ≡ spec.word_constant bytes.now }
{
    if bytes == b"true".as_slice() {
        return Bare::Plain(Const::Int(Width::W1, 1));
    }
    if bytes == b"false".as_slice() {
        return Bare::Plain(Const::Int(Width::W1, 0));
    }
    if bytes == b"null".as_slice() {
        return Bare::Plain(Const::Null);
    }
    Bare::Zero
}

#[tactic(auto, unfolding(crate::specs::Constants::constant_word))]
pub fn constant_word(levels: usize, input: &Input<'_>, at: usize) -> Result<(Bare, usize), Stop>
    ensures { Gives (tokens input.now) result (read (reads levels) spec.constant_word (drop at (tokens input.now))) }
{
    let _ = levels;
    let (seen, at) = word_of(input, at, constant_words())?;
    Ok((word_constant(seen.bytes), at))
}

#[tactic(auto, unfolding(crate::specs::Constants::undefined))]
pub fn undefined(
    alloc: Global,
    levels: usize,
    input: &Input<'_>,
    at: usize,
) -> Result<(Bare, usize), Stop>
    ensures { Gives (tokens input.now) result (read (reads levels) spec.undefined (drop at (tokens input.now))) }
{
    let _ = levels;
    let (seen, at) = word_of(input, at, undefined_words())?;
    let text = Text::copy(alloc, seen.bytes)?;
    Ok((Bare::Plain(Const::Left(text)), at))
}

#[tactic(auto, unfolding(crate::specs::Constants::float))]
pub fn float(
    alloc: Global,
    levels: usize,
    input: &Input<'_>,
    at: usize,
) -> Result<(Bare, usize), Stop>
    ensures { Gives (tokens input.now) result (read (reads levels) spec.float (drop at (tokens input.now))) }
{
    let _ = levels;
    let (seen, at) = of_kind(input, at, Kind::Float)?;
    let text = Text::copy(alloc, seen.bytes)?;
    Ok((Bare::Plain(Const::Left(text)), at))
}

#[tactic(auto, unfolding(crate::specs::Constants::address))]
pub fn address(
    alloc: Global,
    levels: usize,
    input: &Input<'_>,
    at: usize,
) -> Result<(Bare, usize), Stop>
    ensures { Gives (tokens input.now) result (read (reads levels) spec.address (drop at (tokens input.now))) }
{
    let _ = levels;
    let (name, at) = global(alloc, input, at)?;
    Ok((Bare::Plain(Const::Addr(name, 0)), at))
}

#[tactic(auto, unfolding(crate::specs::Constants::byte_string))]
pub fn byte_string(
    alloc: Global,
    levels: usize,
    input: &Input<'_>,
    at: usize,
) -> Result<(Bare, usize), Stop>
    ensures { Gives (tokens input.now) result (read (reads levels) spec.byte_string (drop at (tokens input.now))) }
{
    let _ = levels;
    let (seen, at) = of_kind(input, at, Kind::Bytes)?;
    let bytes = unquoted(alloc, without_first(seen.bytes))?;
    Ok((Bare::Plain(Const::Bytes(bytes)), at))
}
