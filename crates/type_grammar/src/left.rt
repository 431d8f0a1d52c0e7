ghost use Rattle.std.specs.Prelude.{◌≡◌, IfOk, drop};
ghost use Rattle.type_grammar.specs.Left as spec;
ghost use Rattle.type_grammar.specs.Names.{a_left};
ghost use Rattle.type_grammar.specs.Reading.{left_read, number_in, reads};
ghost use Rattle.unit_grammar.specs.Plain.{plain_read};
ghost use Rattle.unit_grammar.specs.Readers.{before, found};
ghost use Rattle.unit_grammar.specs.Seeing.{Gives, Passes, tokens};

use crate::address::Address;
use crate::bare::Bare;
use crate::numbers::offset_of;
use crate::words::left_constant_words;
use ir_lex::Kind;
use ir_values::Const;
use ltt_base::{Memory, Text};
use std::alloc::Global;
use unit_grammar::{Input, Stop, enclosed, global, mark, of_kind, pass_word, word};

#[tactic(auto, unfolding(crate::specs::Left::left_text))]
fn left_text(input: &Input<'_>, at: usize) -> Result<usize, Stop>
    ensures { Passes (tokens input.now) result (plain_read spec.left_text (drop at (tokens input.now))) }
{
    let at = pass_word(input, at, left_constant_words())?;
    enclosed(input, at, b"(", b")")
}

#[tactic(auto, unfolding(crate::specs::Left::here))]
fn here(alloc: Global, input: &Input<'_>, at: usize) -> Result<((Text, Option<Text>), usize), Stop>
    ensures { Gives (tokens input.now) result (plain_read spec.here (drop at (tokens input.now))) }
{
    let (name, at) = global(alloc, input, at)?;
    Ok(((name, None), at))
}

#[tactic(auto, unfolding(crate::specs::Left::moved_away))]
fn moved_away(
    alloc: Global,
    input: &Input<'_>,
    at: usize,
) -> Result<((Text, Option<Text>), usize), Stop>
    ensures { Gives (tokens input.now) result (plain_read spec.moved_away (drop at (tokens input.now))) }
{
    let at = word(input, at, b"getelementptr")?;
    let at = mark(input, at, b"(")?;
    let at = word(input, at, b"i8")?;
    let at = mark(input, at, b",")?;
    let at = word(input, at, b"ptr")?;
    let (name, at) = global(alloc, input, at)?;
    let at = mark(input, at, b",")?;
    let at = word(input, at, b"i64")?;
    let (seen, at) = of_kind(input, at, Kind::Number)?;
    let at = mark(input, at, b")")?;
    let offset = Text::copy(alloc, seen.bytes)?;
    Ok(((name, Some(offset)), at))
}

#[tactic(auto, unfolding(crate::specs::Left::address))]
fn address(
    alloc: Global,
    input: &Input<'_>,
    at: usize,
) -> Result<((Text, Option<Text>), usize), Stop>
    ensures { Gives (tokens input.now) result (plain_read spec.address (drop at (tokens input.now))) }
{
    match here(alloc, input, at) {
        Err(Stop::Absent) => {}
        found => return found,
    }
    moved_away(alloc, input, at)
}

#[tactic(auto, unfolding(crate::specs::Left::number_text))]
fn number_text(
    alloc: Global,
    input: &Input<'_>,
    at: usize,
) -> Result<((Text, Option<Text>), usize), Stop>
    ensures { Gives (tokens input.now) result (plain_read spec.number_text (drop at (tokens input.now))) }
{
    let at = word(input, at, b"ptrtoint")?;
    let at = mark(input, at, b"(")?;
    let at = word(input, at, b"ptr")?;
    let (address, at) = address(alloc, input, at)?;
    let at = word(input, at, b"to")?;
    let at = word(input, at, b"i64")?;
    let at = mark(input, at, b")")?;
    Ok((address, at))
}

fn address_of(text: (Text, Option<Text>)) -> Option<Address>
    ensures { result ≡ spec.address_of text }
{
    let (global, moved) = text;
    match moved {
        None => Some(Address {
            global,
            offset: 0,
            levels: 1,
        }),
        Some(bytes) => match offset_of(bytes.bytes()) {
            Some(offset) => Some(Address {
                global,
                offset,
                levels: 2,
            }),
            None => None,
        },
    }
}

/// The address whose number the tokens are from a place up to the one where a left-out text ends.
fn number_in(
    alloc: Global,
    input: &Input<'_>,
    at: usize,
    behind: usize,
) -> Result<Option<Address>, Memory>
    requires { plain_read spec.left_text (drop at (tokens input.now)) ≡ found tt (drop behind (tokens input.now)) }
    ensures { IfOk result (λ address. address ≡ number_in (before (drop at (tokens input.now)) (drop behind (tokens input.now)))) }
{
    match number_text(alloc, input, at) {
        Ok((text, last)) => {
            if input.left(last) == input.left(behind) {
                Ok(address_of(text))
            } else {
                Ok(None)
            }
        }
        Err(Stop::Absent) => Ok(None),
        Err(Stop::Deep) => Ok(None),
        Err(Stop::Memory) => Err(Memory),
    }
}

#[tactic(auto, unfolding(crate::specs::Reading::left_read))]
fn left_constant(
    alloc: Global,
    levels: usize,
    input: &Input<'_>,
    at: usize,
) -> Result<(Bare, usize), Stop>
    ensures { Gives (tokens input.now) result (left_read levels (drop at (tokens input.now))) }
{
    let behind = left_text(input, at)?;
    match number_in(alloc, input, at, behind)? {
        None => {
            let text = Text::copy(alloc, input.spelled(at, behind))?;
            Ok((Bare::Plain(Const::Left(text)), behind))
        }
        Some(address) => {
            if levels < address.levels {
                return Err(Stop::Deep);
            }
            Ok((
                Bare::Plain(Const::Number(address.global, address.offset)),
                behind,
            ))
        }
    }
}

/// A left-out constant with its parenthesis, or the number of an address.
pub fn left(
    alloc: Global,
    levels: usize,
    input: &Input<'_>,
    at: usize,
) -> Result<(Bare, usize), Stop>
    ensures { Gives (tokens input.now) result (reads levels a_left (drop at (tokens input.now))) }
{
    left_constant(alloc, levels, input, at)
}
