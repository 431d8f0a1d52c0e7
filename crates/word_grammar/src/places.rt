ghost use Rattle.std.specs.Prelude.{codes, drop};
ghost use Rattle.type_grammar.specs.Levels.{levels};
ghost use Rattle.type_grammar.specs.Numbers.{length_of};
ghost use Rattle.type_grammar.specs.Reading.{reads};
ghost use Rattle.unit_grammar.specs.Readers.{read};
ghost use Rattle.unit_grammar.specs.Grammar.{◌▹◌, sign, token};
ghost use Rattle.unit_grammar.specs.Seeing.{Gives, Passes, tokens};
ghost use Rattle.unit_grammar.specs.Signs.{mark, of_kind, word};
ghost use Rattle.word_grammar.specs.Places as spec;

use ir_lex::Kind;
use type_grammar::length_of;
use unit_grammar::{Input, Stop, mark, of_kind, pass_kind, word};

/// `section "s"`; the answer is the place behind it.
#[tactic(auto, unfolding(crate::specs::Places::section))]
pub fn section(input: &Input<'_>, at: usize) -> Result<usize, Stop>
    ensures { Passes (tokens input.now) result (read (reads levels) spec.section (drop at (tokens input.now))) }
{
    let at = word(input, at, b"section")?;
    pass_kind(input, at, Kind::Quoted)
}

fn group(input: &Input<'_>, at: usize) -> Result<usize, Stop>
    ensures { Passes (tokens input.now) result
        (read (reads levels) (mark (codes "(") ▹ of_kind Kind.Comdat ▹ sign (mark (codes ")"))) (drop at (tokens input.now))) }
{
    let at = mark(input, at, b"(")?;
    let at = pass_kind(input, at, Kind::Comdat)?;
    mark(input, at, b")")
}

#[tactic(auto, unfolding(crate::specs::Places::maybe_group))]
fn maybe_group(input: &Input<'_>, at: usize) -> Result<usize, Stop>
    ensures { Passes (tokens input.now) result (read (reads levels) spec.maybe_group (drop at (tokens input.now))) }
{
    match group(input, at) {
        Ok(behind) => Ok(behind),
        Err(Stop::Absent) => Ok(at),
        Err(Stop::Deep) => Err(Stop::Deep),
        Err(Stop::Memory) => Err(Stop::Memory),
    }
}

/// `comdat`, and with a name; the answer is the place behind it.
#[tactic(auto, unfolding(crate::specs::Places::comdat))]
pub fn comdat(input: &Input<'_>, at: usize) -> Result<usize, Stop>
    ensures { Passes (tokens input.now) result (read (reads levels) spec.comdat (drop at (tokens input.now))) }
{
    let at = word(input, at, b"comdat")?;
    maybe_group(input, at)
}

/// `align N`, which says nothing; the answer is the place behind it.
#[tactic(auto, unfolding(crate::specs::Places::placed))]
pub fn placed(input: &Input<'_>, at: usize) -> Result<usize, Stop>
    ensures { Passes (tokens input.now) result (read (reads levels) spec.placed (drop at (tokens input.now))) }
{
    let at = word(input, at, b"align")?;
    pass_kind(input, at, Kind::Number)
}

fn comma_section(input: &Input<'_>, at: usize) -> Result<usize, Stop>
    ensures { Passes (tokens input.now) result (read (reads levels) (mark (codes ",") ▹ spec.section) (drop at (tokens input.now))) }
{
    let at = mark(input, at, b",")?;
    section(input, at)
}

fn comma_comdat(input: &Input<'_>, at: usize) -> Result<usize, Stop>
    ensures { Passes (tokens input.now) result (read (reads levels) (mark (codes ",") ▹ spec.comdat) (drop at (tokens input.now))) }
{
    let at = mark(input, at, b",")?;
    comdat(input, at)
}

fn comma_placed(input: &Input<'_>, at: usize) -> Result<usize, Stop>
    ensures { Passes (tokens input.now) result (read (reads levels) (mark (codes ",") ▹ spec.placed) (drop at (tokens input.now))) }
{
    let at = mark(input, at, b",")?;
    placed(input, at)
}

#[tactic(auto, unfolding(crate::specs::Places::next_section))]
fn next_section(input: &Input<'_>, at: usize) -> Result<usize, Stop>
    ensures { Passes (tokens input.now) result (read (reads levels) spec.next_section (drop at (tokens input.now))) }
{
    match comma_section(input, at) {
        Ok(behind) => Ok(behind),
        Err(Stop::Absent) => Ok(at),
        Err(Stop::Deep) => Err(Stop::Deep),
        Err(Stop::Memory) => Err(Stop::Memory),
    }
}

#[tactic(auto, unfolding(crate::specs::Places::next_comdat))]
fn next_comdat(input: &Input<'_>, at: usize) -> Result<usize, Stop>
    ensures { Passes (tokens input.now) result (read (reads levels) spec.next_comdat (drop at (tokens input.now))) }
{
    match comma_comdat(input, at) {
        Ok(behind) => Ok(behind),
        Err(Stop::Absent) => Ok(at),
        Err(Stop::Deep) => Err(Stop::Deep),
        Err(Stop::Memory) => Err(Stop::Memory),
    }
}

/// The alignment of a load or a store behind its comma, or nothing; the answer is the place behind it.
#[tactic(auto, unfolding(crate::specs::Places::next_placed))]
pub fn next_placed(input: &Input<'_>, at: usize) -> Result<usize, Stop>
    ensures { Passes (tokens input.now) result (read (reads levels) spec.next_placed (drop at (tokens input.now))) }
{
    match comma_placed(input, at) {
        Ok(behind) => Ok(behind),
        Err(Stop::Absent) => Ok(at),
        Err(Stop::Deep) => Err(Stop::Deep),
        Err(Stop::Memory) => Err(Stop::Memory),
    }
}

fn align(input: &Input<'_>, at: usize) -> Result<(Option<u64>, usize), Stop>
    ensures { Gives (tokens input.now) result
        (read (reads levels) (mark (codes ",") ▹ word (codes "align") ▹ token (of_kind Kind.Number) (λ t. length_of t.bytes)) (drop at (tokens input.now))) }
{
    let at = mark(input, at, b",")?;
    let at = word(input, at, b"align")?;
    let (seen, at) = of_kind(input, at, Kind::Number)?;
    Ok((length_of(seen.bytes), at))
}

#[tactic(auto, unfolding(crate::specs::Places::next_align))]
fn next_align(input: &Input<'_>, at: usize) -> Result<(Option<Option<u64>>, usize), Stop>
    ensures { Gives (tokens input.now) result (read (reads levels) spec.next_align (drop at (tokens input.now))) }
{
    match align(input, at) {
        Ok((number, behind)) => Ok((Some(number), behind)),
        Err(Stop::Absent) => Ok((None, at)),
        Err(Stop::Deep) => Err(Stop::Deep),
        Err(Stop::Memory) => Err(Stop::Memory),
    }
}

/// The section, the comdat and the alignment of a variable, each behind its comma, or nothing.
///
/// The value is the alignment: the inner `None` is a number that isn't from 0 to 2^64 - 1.
///
/// Source: LLVM Language Reference, "Global Variables" and "Comdats".
#[tactic(auto, unfolding(crate::specs::Places::variable_places))]
pub fn variable_places(input: &Input<'_>, at: usize) -> Result<(Option<Option<u64>>, usize), Stop>
    ensures { Gives (tokens input.now) result (read (reads levels) spec.variable_places (drop at (tokens input.now))) }
{
    let at = next_section(input, at)?;
    let at = next_comdat(input, at)?;
    next_align(input, at)
}
