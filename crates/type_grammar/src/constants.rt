ghost use Rattle.std.specs.Prelude.{◌≡◌, IfOk, codes, drop, length};
ghost use Rattle.type_grammar.specs.Constants as spec;
ghost use Rattle.type_grammar.specs.Names.{a_constant};
ghost use Rattle.type_grammar.specs.Reading.{reads};
ghost use Rattle.unit_grammar.specs.Readers.{list_read, many_read, read, sign_read};
ghost use Rattle.unit_grammar.specs.Seeing.{Gives, Passes, tokens};
ghost use Rattle.unit_grammar.specs.Signs.{mark};

use crate::bare::{Bare, at_type};
use crate::left::left;
use crate::simple::{address, byte_string, constant_word, float, number, undefined};
use crate::types::ty;
use crate::words::{address_words, begins_constant};
use ir_lex::Kind;
use ir_values::{Const, Operand, Ty};
use ltt_base::{Boxed, List, Memory};
use std::alloc::Global;
use unit_grammar::{Input, Stop, mark, one, pass_kind, pass_word, word};

fn typed_of(alloc: Global, ty: Ty, bare: Bare) -> Result<Const, Memory>
    ensures { IfOk result (λ constant. constant ≡ spec.typed_of (ty, bare)) }
{
    let constant = at_type(alloc, &ty, bare)?;
    Ok(Const::Typed(ty, Boxed::new(alloc, constant)?))
}

fn array_with(alloc: Global, ty: Ty, first: Bare, others: List<Const>) -> Result<Bare, Memory>
    ensures { IfOk result (λ bare. bare ≡ spec.array_with ty first others) }
{
    let written = ty.copy(alloc)?;
    let first = typed_of(alloc, written, first)?;
    let mut parts = one(alloc, first)?;
    parts.append(others)?;
    Ok(Bare::Plain(Const::Array(ty, parts)))
}

fn moved_with(alloc: Global, ty: Ty, base: Bare, indices: List<Operand>) -> Result<Bare, Memory>
    ensures { IfOk result (λ bare. bare ≡ spec.moved_with ty base indices) }
{
    let base = at_type(alloc, &Ty::Ptr, base)?;
    let base = Boxed::new(alloc, base)?;
    Ok(Bare::Plain(Const::Gep(ty, base, indices)))
}

#[tactic(auto, unfolding(crate::specs::Constants::address_word))]
fn address_word(levels: usize, input: &Input<'_>, at: usize) -> Result<usize, Stop>
    ensures { Passes (tokens input.now) result (read (reads levels) spec.address_word (drop at (tokens input.now))) }
{
    let _ = levels;
    match pass_word(input, at, address_words()) {
        Err(Stop::Absent) => {}
        found => return found,
    }
    let at = word(input, at, b"inrange")?;
    let at = mark(input, at, b"(")?;
    let at = pass_kind(input, at, Kind::Number)?;
    let at = mark(input, at, b",")?;
    let at = pass_kind(input, at, Kind::Number)?;
    mark(input, at, b")")
}

#[tactic(auto, unfolding(crate::specs::Constants::address_run))]
fn address_run(levels: usize, input: &Input<'_>, at: usize) -> Result<usize, Stop>
    ensures { Passes (tokens input.now) result (read (reads levels) spec.address_run (drop at (tokens input.now))) }
{
    let mut at = at;
    for turn in 0..input.left(at) {
        match address_word(levels, input, at) {
            Ok(behind) => at = behind,
            Err(Stop::Absent) => return Ok(at),
            Err(Stop::Deep) => return Err(Stop::Deep),
            Err(Stop::Memory) => return Err(Stop::Memory),
        }
    }
    Ok(at)
}

#[tactic(auto, unfolding(crate::specs::Constants::in_range))]
fn in_range(levels: usize, input: &Input<'_>, at: usize) -> Result<usize, Stop>
    ensures { Passes (tokens input.now) result (read (reads levels) spec.in_range (drop at (tokens input.now))) }
{
    let _ = levels;
    match word(input, at, b"inrange") {
        Ok(behind) => Ok(behind),
        Err(Stop::Absent) => Ok(at),
        Err(Stop::Deep) => Err(Stop::Deep),
        Err(Stop::Memory) => Err(Stop::Memory),
    }
}

#[cycle(constants)]
#[tactic(auto, unfolding(crate::specs::Constants::typed))]
fn typed(alloc: Global, levels: usize, input: &Input<'_>, at: usize) -> Result<(Const, usize), Stop>
    ensures { Gives (tokens input.now) result (read (reads levels) spec.typed (drop at (tokens input.now))) }
{
    let (ty, at) = ty(alloc, levels, input, at)?;
    let (bare, at) = constant(alloc, levels, input, at)?;
    Ok((typed_of(alloc, ty, bare)?, at))
}

#[cycle(constants)]
fn next_typed(
    alloc: Global,
    levels: usize,
    input: &Input<'_>,
    at: usize,
) -> Result<(Const, usize), Stop>
    ensures { Gives (tokens input.now) result (sign_read (mark (codes ",")) (read (reads levels) spec.typed) (drop at (tokens input.now))) }
{
    let at = mark(input, at, b",")?;
    typed(alloc, levels, input, at)
}

#[cycle(constants)]
fn more_typed(
    alloc: Global,
    levels: usize,
    input: &Input<'_>,
    at: usize,
    given: List<Const>,
) -> Result<(List<Const>, usize), Stop>
    ensures { Gives (tokens input.now) result
        (many_read (length (drop at (tokens input.now))) (sign_read (mark (codes ",")) (read (reads levels) spec.typed)) given (drop at (tokens input.now))) }
{
    let mut list = given;
    let mut at = at;
    for turn in 0..input.left(at) {
        match next_typed(alloc, levels, input, at) {
            Ok((item, behind)) => {
                list.add(item)?;
                at = behind;
            }
            Err(Stop::Absent) => return Ok((list, at)),
            Err(Stop::Deep) => return Err(Stop::Deep),
            Err(Stop::Memory) => return Err(Stop::Memory),
        }
    }
    Ok((list, at))
}

#[cycle(constants)]
fn others_typed(
    alloc: Global,
    levels: usize,
    input: &Input<'_>,
    at: usize,
) -> Result<(List<Const>, usize), Stop>
    ensures { Gives (tokens input.now) result (read (reads levels) spec.more_typed (drop at (tokens input.now))) }
{
    let list = List::new(alloc);
    more_typed(alloc, levels, input, at, list)
}

#[cycle(constants)]
fn listed_typed(
    alloc: Global,
    levels: usize,
    input: &Input<'_>,
    at: usize,
) -> Result<(List<Const>, usize), Stop>
    ensures { Gives (tokens input.now) result (list_read (mark (codes ",")) (read (reads levels) spec.typed) (drop at (tokens input.now))) }
{
    match typed(alloc, levels, input, at) {
        Ok((first, behind)) => {
            let list = one(alloc, first)?;
            more_typed(alloc, levels, input, behind, list)
        }
        Err(Stop::Absent) => Ok((List::new(alloc), at)),
        Err(Stop::Deep) => Err(Stop::Deep),
        Err(Stop::Memory) => Err(Stop::Memory),
    }
}

#[cycle(constants)]
fn typed_list(
    alloc: Global,
    levels: usize,
    input: &Input<'_>,
    at: usize,
) -> Result<(List<Const>, usize), Stop>
    ensures { Gives (tokens input.now) result (read (reads levels) spec.typed_list (drop at (tokens input.now))) }
{
    listed_typed(alloc, levels, input, at)
}

#[cycle(constants)]
#[tactic(auto, unfolding(crate::specs::Constants::structure))]
fn structure(
    alloc: Global,
    levels: usize,
    input: &Input<'_>,
    at: usize,
) -> Result<(Bare, usize), Stop>
    ensures { Gives (tokens input.now) result (read (reads levels) spec.structure (drop at (tokens input.now))) }
{
    let at = mark(input, at, b"{")?;
    let (parts, at) = typed_list(alloc, levels, input, at)?;
    let at = mark(input, at, b"}")?;
    Ok((Bare::Plain(Const::Struct(parts)), at))
}

#[cycle(constants)]
#[tactic(auto, unfolding(crate::specs::Constants::array))]
fn array(alloc: Global, levels: usize, input: &Input<'_>, at: usize) -> Result<(Bare, usize), Stop>
    ensures { Gives (tokens input.now) result (read (reads levels) spec.array (drop at (tokens input.now))) }
{
    let at = mark(input, at, b"[")?;
    let (ty, at) = ty(alloc, levels, input, at)?;
    let (first, at) = constant(alloc, levels, input, at)?;
    let (others, at) = others_typed(alloc, levels, input, at)?;
    let at = mark(input, at, b"]")?;
    Ok((array_with(alloc, ty, first, others)?, at))
}

#[cycle(constants)]
#[tactic(auto, unfolding(crate::specs::Constants::index))]
fn index(
    alloc: Global,
    levels: usize,
    input: &Input<'_>,
    at: usize,
) -> Result<(Operand, usize), Stop>
    ensures { Gives (tokens input.now) result (read (reads levels) spec.index (drop at (tokens input.now))) }
{
    let at = mark(input, at, b",")?;
    let at = in_range(levels, input, at)?;
    let (constant, at) = typed(alloc, levels, input, at)?;
    Ok((Operand::Const(constant), at))
}

#[cycle(constants)]
#[tactic(auto, unfolding(crate::specs::Constants::index_list))]
fn index_list(
    alloc: Global,
    levels: usize,
    input: &Input<'_>,
    at: usize,
) -> Result<(List<Operand>, usize), Stop>
    ensures { Gives (tokens input.now) result (read (reads levels) spec.index_list (drop at (tokens input.now))) }
{
    let mut list = List::new(alloc);
    let mut at = at;
    for turn in 0..input.left(at) {
        match index(alloc, levels, input, at) {
            Ok((item, behind)) => {
                list.add(item)?;
                at = behind;
            }
            Err(Stop::Absent) => return Ok((list, at)),
            Err(Stop::Deep) => return Err(Stop::Deep),
            Err(Stop::Memory) => return Err(Stop::Memory),
        }
    }
    Ok((list, at))
}

#[cycle(constants)]
#[tactic(auto, unfolding(crate::specs::Constants::moved))]
fn moved(alloc: Global, levels: usize, input: &Input<'_>, at: usize) -> Result<(Bare, usize), Stop>
    ensures { Gives (tokens input.now) result (read (reads levels) spec.moved (drop at (tokens input.now))) }
{
    let at = word(input, at, b"getelementptr")?;
    let at = address_run(levels, input, at)?;
    let at = mark(input, at, b"(")?;
    let (ty, at) = ty(alloc, levels, input, at)?;
    let at = mark(input, at, b",")?;
    let at = word(input, at, b"ptr")?;
    let (base, at) = constant(alloc, levels, input, at)?;
    let (indices, at) = index_list(alloc, levels, input, at)?;
    let at = mark(input, at, b")")?;
    Ok((moved_with(alloc, ty, base, indices)?, at))
}

#[cycle(constants)]
#[tactic(auto, unfolding(crate::specs::Constants::constant_body))]
fn constant_body(
    alloc: Global,
    levels: usize,
    input: &Input<'_>,
    at: usize,
) -> Result<(Bare, usize), Stop>
    ensures { Gives (tokens input.now) result (read (reads levels) spec.constant_body (drop at (tokens input.now))) }
{
    match number(alloc, levels, input, at) {
        Err(Stop::Absent) => {}
        found => return found,
    }
    match constant_word(levels, input, at) {
        Err(Stop::Absent) => {}
        found => return found,
    }
    match undefined(alloc, levels, input, at) {
        Err(Stop::Absent) => {}
        found => return found,
    }
    match float(alloc, levels, input, at) {
        Err(Stop::Absent) => {}
        found => return found,
    }
    match address(alloc, levels, input, at) {
        Err(Stop::Absent) => {}
        found => return found,
    }
    match byte_string(alloc, levels, input, at) {
        Err(Stop::Absent) => {}
        found => return found,
    }
    match structure(alloc, levels, input, at) {
        Err(Stop::Absent) => {}
        found => return found,
    }
    match array(alloc, levels, input, at) {
        Err(Stop::Absent) => {}
        found => return found,
    }
    match moved(alloc, levels, input, at) {
        Err(Stop::Absent) => {}
        found => return found,
    }
    left(alloc, levels, input, at)
}

/// The constant that begins at a place, where so many levels may be opened.
#[cycle(constants)]
pub fn constant(
    alloc: Global,
    levels: usize,
    input: &Input<'_>,
    at: usize,
) -> Result<(Bare, usize), Stop>
    ensures { Gives (tokens input.now) result (reads levels a_constant (drop at (tokens input.now))) }
{
    if levels == 0 {
        if begins_constant(input, at) {
            return Err(Stop::Deep);
        }
        return Err(Stop::Absent);
    }
    constant_body(alloc, levels - 1, input, at)
}
