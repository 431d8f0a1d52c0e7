ghost use Rattle.std.specs.Prelude.{◌≡◌, IfOk, codes, drop, length};
ghost use Rattle.type_grammar.specs.Names.{a_type, a_value_type};
ghost use Rattle.type_grammar.specs.Reading.{reads};
ghost use Rattle.type_grammar.specs.Types as spec;
ghost use Rattle.unit_grammar.specs.Readers.{list_read, many_read, read, sign_read};
ghost use Rattle.unit_grammar.specs.Seeing.{Gives, Passes, tokens};
ghost use Rattle.unit_grammar.specs.Signs.{mark};

use crate::numbers::length_of;
use crate::words::{begins_type, begins_value_type, left_type_words};
use ir_lex::Kind;
use ir_values::{Ty, Width};
use ltt_base::{Boxed, List, Memory, Text};
use std::alloc::Global;
use unit_grammar::{Input, Stop, local, mark, numbered, of_kind, one, pass_kind, word, word_of};

fn integer_of(alloc: Global, bytes: &[u8]) -> Result<Ty, Memory>
    ensures { IfOk result (λ ty. ty ≡ spec.integer_of bytes.now) }
{
    if bytes == b"i1".as_slice() {
        return Ok(Ty::Int(Width::W1));
    }
    if bytes == b"i8".as_slice() {
        return Ok(Ty::Int(Width::W8));
    }
    if bytes == b"i16".as_slice() {
        return Ok(Ty::Int(Width::W16));
    }
    if bytes == b"i32".as_slice() {
        return Ok(Ty::Int(Width::W32));
    }
    if bytes == b"i64".as_slice() {
        return Ok(Ty::Int(Width::W64));
    }
    Ok(Ty::Left(Text::copy(alloc, bytes)?))
}

#[tactic(auto, unfolding(crate::specs::Types::integer))]
fn integer(alloc: Global, levels: usize, input: &Input<'_>, at: usize) -> Result<(Ty, usize), Stop>
    ensures { Gives (tokens input.now) result (read (reads levels) spec.integer (drop at (tokens input.now))) }
{
    let (seen, at) = numbered(input, at, Kind::Word, b'i')?;
    Ok((integer_of(alloc, seen.bytes)?, at))
}

#[tactic(auto, unfolding(crate::specs::Types::void))]
fn void(levels: usize, input: &Input<'_>, at: usize) -> Result<(Ty, usize), Stop>
    ensures { Gives (tokens input.now) result (read (reads levels) spec.void (drop at (tokens input.now))) }
{
    let _ = levels;
    let at = word(input, at, b"void")?;
    Ok((Ty::Void, at))
}

#[tactic(auto, unfolding(crate::specs::Types::address_space))]
fn address_space(levels: usize, input: &Input<'_>, at: usize) -> Result<usize, Stop>
    ensures { Passes (tokens input.now) result (read (reads levels) spec.address_space (drop at (tokens input.now))) }
{
    let _ = levels;
    let at = word(input, at, b"addrspace")?;
    let at = mark(input, at, b"(")?;
    let at = pass_kind(input, at, Kind::Number)?;
    mark(input, at, b")")
}

#[tactic(auto, unfolding(crate::specs::Types::pointer))]
fn pointer(alloc: Global, levels: usize, input: &Input<'_>, at: usize) -> Result<(Ty, usize), Stop>
    ensures { Gives (tokens input.now) result (read (reads levels) spec.pointer (drop at (tokens input.now))) }
{
    let behind = word(input, at, b"ptr")?;
    match address_space(levels, input, behind) {
        Ok(last) => {
            let text = Text::copy(alloc, input.spelled(at, last))?;
            Ok((Ty::Left(text), last))
        }
        Err(Stop::Absent) => Ok((Ty::Ptr, behind)),
        Err(Stop::Deep) => Err(Stop::Deep),
        Err(Stop::Memory) => Err(Stop::Memory),
    }
}

#[tactic(auto, unfolding(crate::specs::Types::named))]
fn named(alloc: Global, levels: usize, input: &Input<'_>, at: usize) -> Result<(Ty, usize), Stop>
    ensures { Gives (tokens input.now) result (read (reads levels) spec.named (drop at (tokens input.now))) }
{
    let _ = levels;
    let (name, at) = local(alloc, input, at)?;
    Ok((Ty::Named(name), at))
}

#[tactic(auto, unfolding(crate::specs::Types::left_type))]
fn left_type(
    alloc: Global,
    levels: usize,
    input: &Input<'_>,
    at: usize,
) -> Result<(Ty, usize), Stop>
    ensures { Gives (tokens input.now) result (read (reads levels) spec.left_type (drop at (tokens input.now))) }
{
    let _ = levels;
    let (seen, at) = word_of(input, at, left_type_words())?;
    let text = Text::copy(alloc, seen.bytes)?;
    Ok((Ty::Left(text), at))
}

#[tactic(auto, unfolding(crate::specs::Types::length))]
fn length(levels: usize, input: &Input<'_>, at: usize) -> Result<(Option<u64>, usize), Stop>
    ensures { Gives (tokens input.now) result (read (reads levels) spec.length (drop at (tokens input.now))) }
{
    let _ = levels;
    let (seen, at) = of_kind(input, at, Kind::Number)?;
    Ok((length_of(seen.bytes), at))
}

fn array_of(alloc: Global, count: Option<u64>, part: Ty, text: &[u8]) -> Result<Ty, Memory>
    ensures { IfOk result (λ ty. ty ≡ spec.array_with text.now count part) }
{
    match count {
        Some(count) => Ok(Ty::Array(count, Boxed::new(alloc, part)?)),
        None => Ok(Ty::Left(Text::copy(alloc, text)?)),
    }
}

#[cycle(types)]
#[tactic(auto, unfolding(crate::specs::Types::array))]
fn array(alloc: Global, levels: usize, input: &Input<'_>, at: usize) -> Result<(Ty, usize), Stop>
    ensures { Gives (tokens input.now) result (read (reads levels) spec.array (drop at (tokens input.now))) }
{
    let first = at;
    let at = mark(input, at, b"[")?;
    let (count, at) = length(levels, input, at)?;
    let at = word(input, at, b"x")?;
    let (part, at) = ty(alloc, levels, input, at)?;
    let at = mark(input, at, b"]")?;
    let ty = array_of(alloc, count, part, input.spelled(first, at))?;
    Ok((ty, at))
}

#[cycle(types)]
#[tactic(auto, unfolding(crate::specs::Types::structure))]
fn structure(
    alloc: Global,
    levels: usize,
    input: &Input<'_>,
    at: usize,
) -> Result<(Ty, usize), Stop>
    ensures { Gives (tokens input.now) result (read (reads levels) spec.structure (drop at (tokens input.now))) }
{
    let at = mark(input, at, b"{")?;
    let (parts, at) = type_list(alloc, levels, input, at)?;
    let at = mark(input, at, b"}")?;
    Ok((Ty::Struct(parts), at))
}

#[cycle(types)]
#[tactic(auto, unfolding(crate::specs::Types::vector))]
fn vector(alloc: Global, levels: usize, input: &Input<'_>, at: usize) -> Result<(Ty, usize), Stop>
    ensures { Gives (tokens input.now) result (read (reads levels) spec.vector (drop at (tokens input.now))) }
{
    let first = at;
    let at = mark(input, at, b"<")?;
    let at = pass_kind(input, at, Kind::Number)?;
    let at = word(input, at, b"x")?;
    let (_part, at) = ty(alloc, levels, input, at)?;
    let at = mark(input, at, b">")?;
    let text = Text::copy(alloc, input.spelled(first, at))?;
    Ok((Ty::Left(text), at))
}

#[cycle(types)]
#[tactic(auto, unfolding(crate::specs::Types::packed))]
fn packed(alloc: Global, levels: usize, input: &Input<'_>, at: usize) -> Result<(Ty, usize), Stop>
    ensures { Gives (tokens input.now) result (read (reads levels) spec.packed (drop at (tokens input.now))) }
{
    let first = at;
    let at = mark(input, at, b"<")?;
    let at = mark(input, at, b"{")?;
    let (_parts, at) = type_list(alloc, levels, input, at)?;
    let at = mark(input, at, b"}")?;
    let at = mark(input, at, b">")?;
    let text = Text::copy(alloc, input.spelled(first, at))?;
    Ok((Ty::Left(text), at))
}

#[cycle(types)]
fn next_type(
    alloc: Global,
    levels: usize,
    input: &Input<'_>,
    at: usize,
) -> Result<(Ty, usize), Stop>
    ensures { Gives (tokens input.now) result (sign_read (mark (codes ",")) (reads levels a_type) (drop at (tokens input.now))) }
{
    let at = mark(input, at, b",")?;
    ty(alloc, levels, input, at)
}

#[cycle(types)]
fn more_types(
    alloc: Global,
    levels: usize,
    input: &Input<'_>,
    at: usize,
    given: List<Ty>,
) -> Result<(List<Ty>, usize), Stop>
    ensures { Gives (tokens input.now) result
        (many_read (length (drop at (tokens input.now))) (sign_read (mark (codes ",")) (reads levels a_type)) given (drop at (tokens input.now))) }
{
    let mut list = given;
    let mut at = at;
    for turn in 0..input.left(at) {
        match next_type(alloc, levels, input, at) {
            Ok((item, behind)) => {
                list.add(item)?;
                at = behind;
            }
            Err(Stop::Absent) => return Ok((list, at)),
            Err(Stop::Deep) => return Err(Stop::Deep),
            Err(Stop::Memory) => return Err(Stop::Memory),
        }
    }
    Ok((list, at))
}

#[cycle(types)]
fn listed_types(
    alloc: Global,
    levels: usize,
    input: &Input<'_>,
    at: usize,
) -> Result<(List<Ty>, usize), Stop>
    ensures { Gives (tokens input.now) result (list_read (mark (codes ",")) (reads levels a_type) (drop at (tokens input.now))) }
{
    match ty(alloc, levels, input, at) {
        Ok((first, behind)) => {
            let list = one(alloc, first)?;
            more_types(alloc, levels, input, behind, list)
        }
        Err(Stop::Absent) => Ok((List::new(alloc), at)),
        Err(Stop::Deep) => Err(Stop::Deep),
        Err(Stop::Memory) => Err(Stop::Memory),
    }
}

#[cycle(types)]
fn type_list(
    alloc: Global,
    levels: usize,
    input: &Input<'_>,
    at: usize,
) -> Result<(List<Ty>, usize), Stop>
    ensures { Gives (tokens input.now) result (read (reads levels) spec.type_list (drop at (tokens input.now))) }
{
    listed_types(alloc, levels, input, at)
}

#[cycle(types)]
#[tactic(auto, unfolding(crate::specs::Types::value_type_body))]
fn value_type_body(
    alloc: Global,
    levels: usize,
    input: &Input<'_>,
    at: usize,
) -> Result<(Ty, usize), Stop>
    ensures { Gives (tokens input.now) result (read (reads levels) spec.value_type_body (drop at (tokens input.now))) }
{
    match integer(alloc, levels, input, at) {
        Err(Stop::Absent) => {}
        found => return found,
    }
    match pointer(alloc, levels, input, at) {
        Err(Stop::Absent) => {}
        found => return found,
    }
    match named(alloc, levels, input, at) {
        Err(Stop::Absent) => {}
        found => return found,
    }
    match array(alloc, levels, input, at) {
        Err(Stop::Absent) => {}
        found => return found,
    }
    match structure(alloc, levels, input, at) {
        Err(Stop::Absent) => {}
        found => return found,
    }
    match left_type(alloc, levels, input, at) {
        Err(Stop::Absent) => {}
        found => return found,
    }
    match vector(alloc, levels, input, at) {
        Err(Stop::Absent) => {}
        found => return found,
    }
    packed(alloc, levels, input, at)
}

#[cycle(types)]
#[tactic(auto, unfolding(crate::specs::Types::type_body))]
fn type_body(
    alloc: Global,
    levels: usize,
    input: &Input<'_>,
    at: usize,
) -> Result<(Ty, usize), Stop>
    ensures { Gives (tokens input.now) result (read (reads levels) spec.type_body (drop at (tokens input.now))) }
{
    match void(levels, input, at) {
        Err(Stop::Absent) => {}
        found => return found,
    }
    value_type_body(alloc, levels, input, at)
}

/// The type that begins at a place and isn't `void`, where so many levels may be opened.
pub fn value_ty(
    alloc: Global,
    levels: usize,
    input: &Input<'_>,
    at: usize,
) -> Result<(Ty, usize), Stop>
    ensures { Gives (tokens input.now) result (reads levels a_value_type (drop at (tokens input.now))) }
{
    if levels == 0 {
        if begins_value_type(input, at) {
            return Err(Stop::Deep);
        }
        return Err(Stop::Absent);
    }
    value_type_body(alloc, levels - 1, input, at)
}

/// The type that begins at a place, where so many levels may be opened.
#[cycle(types)]
pub fn ty(alloc: Global, levels: usize, input: &Input<'_>, at: usize) -> Result<(Ty, usize), Stop>
    ensures { Gives (tokens input.now) result (reads levels a_type (drop at (tokens input.now))) }
{
    if levels == 0 {
        if begins_type(input, at) {
            return Err(Stop::Deep);
        }
        return Err(Stop::Absent);
    }
    type_body(alloc, levels - 1, input, at)
}
