ghost use Rattle.std.specs.Prelude.{codes, drop, length};
ghost use Rattle.head_grammar.specs.Computing.{some_read};
ghost use Rattle.head_grammar.specs.Parameters as spec;
ghost use Rattle.type_grammar.specs.Levels.{levels};
ghost use Rattle.type_grammar.specs.Reading.{reads};
ghost use Rattle.unit_grammar.specs.Grammar.{◌▹◌, ◌⋆◌, ◌or◌, sign};
ghost use Rattle.unit_grammar.specs.Readers.{many_read, read, sign_read};
ghost use Rattle.unit_grammar.specs.Seeing.{Gives, Passes, tokens};
ghost use Rattle.unit_grammar.specs.Signs.{mark, of_kind};

use ir_lex::Kind;
use ir_values::{Param, Ty};
use ltt_base::{List, Text};
use std::alloc::Global;
use type_grammar::read_type;
use unit_grammar::{Input, Stop, local, mark, one, pass_kind, word_of};
use word_grammar::parameter_run;

#[tactic(auto, unfolding(crate::specs::Parameters::metadata_type))]
fn metadata_type(alloc: Global, input: &Input<'_>, at: usize) -> Result<(Ty, usize), Stop>
    ensures { Gives (tokens input.now) result (read (reads levels) spec.metadata_type (drop at (tokens input.now))) }
{
    let (seen, at) = word_of(input, at, &["metadata"])?;
    let text = Text::copy(alloc, seen.bytes)?;
    Ok((Ty::Left(text), at))
}

#[tactic(auto, unfolding(crate::specs::Parameters::parameter_type))]
fn parameter_type(
    alloc: Global,
    declared: bool,
    input: &Input<'_>,
    at: usize,
) -> Result<(Ty, usize), Stop>
    ensures { Gives (tokens input.now) result (read (reads levels) (spec.parameter_type declared) (drop at (tokens input.now))) }
{
    if !declared {
        return read_type(alloc, input, at);
    }
    match read_type(alloc, input, at) {
        Err(Stop::Absent) => {}
        found => return found,
    }
    metadata_type(alloc, input, at)
}

#[tactic(auto, unfolding(crate::specs::Parameters::maybe_local))]
fn maybe_local(alloc: Global, input: &Input<'_>, at: usize) -> Result<(Option<Text>, usize), Stop>
    ensures { Gives (tokens input.now) result (read (reads levels) spec.maybe_local (drop at (tokens input.now))) }
{
    match local(alloc, input, at) {
        Ok((name, behind)) => Ok((Some(name), behind)),
        Err(Stop::Absent) => Ok((None, at)),
        Err(Stop::Deep) => Err(Stop::Deep),
        Err(Stop::Memory) => Err(Stop::Memory),
    }
}

#[tactic(auto, unfolding(crate::specs::Parameters::parameter))]
fn parameter(
    alloc: Global,
    declared: bool,
    input: &Input<'_>,
    at: usize,
) -> Result<(Param, usize), Stop>
    ensures { Gives (tokens input.now) result (read (reads levels) (spec.parameter declared) (drop at (tokens input.now))) }
{
    let (ty, at) = parameter_type(alloc, declared, input, at)?;
    let (left, at) = parameter_run(alloc, input, at)?;
    let (name, at) = maybe_local(alloc, input, at)?;
    Ok((Param { ty, left, name }, at))
}

fn next_parameter(
    alloc: Global,
    declared: bool,
    input: &Input<'_>,
    at: usize,
) -> Result<(Param, usize), Stop>
    ensures { Gives (tokens input.now) result
        (sign_read (mark (codes ",")) (read (reads levels) (spec.parameter declared)) (drop at (tokens input.now))) }
{
    let at = mark(input, at, b",")?;
    parameter(alloc, declared, input, at)
}

fn more_parameters(
    alloc: Global,
    declared: bool,
    input: &Input<'_>,
    at: usize,
    given: List<Param>,
) -> Result<(List<Param>, usize), Stop>
    ensures { Gives (tokens input.now) result
        (many_read (length (drop at (tokens input.now))) (sign_read (mark (codes ",")) (read (reads levels) (spec.parameter declared))) given (drop at (tokens input.now))) }
{
    let mut list = given;
    let mut at = at;
    for turn in 0..input.left(at) {
        match next_parameter(alloc, declared, input, at) {
            Ok((item, behind)) => {
                list.add(item)?;
                at = behind;
            }
            Err(Stop::Absent) => return Ok((list, at)),
            Err(Stop::Deep) => return Err(Stop::Deep),
            Err(Stop::Memory) => return Err(Stop::Memory),
        }
    }
    Ok((list, at))
}

fn first_parameters(
    alloc: Global,
    declared: bool,
    input: &Input<'_>,
    at: usize,
) -> Result<(List<Param>, usize), Stop>
    ensures { Gives (tokens input.now) result
        (some_read (mark (codes ",")) (read (reads levels) (spec.parameter declared)) (drop at (tokens input.now))) }
{
    let (first, at) = parameter(alloc, declared, input, at)?;
    let list = one(alloc, first)?;
    more_parameters(alloc, declared, input, at, list)
}

fn some_parameters(
    alloc: Global,
    declared: bool,
    input: &Input<'_>,
    at: usize,
) -> Result<(List<Param>, usize), Stop>
    ensures { Gives (tokens input.now) result (read (reads levels) (spec.some_parameters declared) (drop at (tokens input.now))) }
{
    first_parameters(alloc, declared, input, at)
}

fn comma_dots(input: &Input<'_>, at: usize) -> Result<usize, Stop>
    ensures { Passes (tokens input.now) result
        (read (reads levels) (mark (codes ",") ▹ sign (of_kind Kind.Dots)) (drop at (tokens input.now))) }
{
    let at = mark(input, at, b",")?;
    pass_kind(input, at, Kind::Dots)
}

#[tactic(auto, unfolding(crate::specs::Parameters::next_dots))]
fn next_dots(input: &Input<'_>, at: usize) -> Result<(bool, usize), Stop>
    ensures { Gives (tokens input.now) result (read (reads levels) spec.next_dots (drop at (tokens input.now))) }
{
    match comma_dots(input, at) {
        Ok(behind) => Ok((true, behind)),
        Err(Stop::Absent) => Ok((false, at)),
        Err(Stop::Deep) => Err(Stop::Deep),
        Err(Stop::Memory) => Err(Stop::Memory),
    }
}

#[tactic(auto, unfolding(crate::specs::Parameters::only_dots))]
fn only_dots(
    alloc: Global,
    input: &Input<'_>,
    at: usize,
) -> Result<((List<Param>, bool), usize), Stop>
    ensures { Gives (tokens input.now) result (read (reads levels) spec.only_dots (drop at (tokens input.now))) }
{
    let at = pass_kind(input, at, Kind::Dots)?;
    Ok(((List::new(alloc), true), at))
}

fn then_dots(
    alloc: Global,
    declared: bool,
    input: &Input<'_>,
    at: usize,
) -> Result<((List<Param>, bool), usize), Stop>
    ensures { Gives (tokens input.now) result
        (read (reads levels) (spec.some_parameters declared ⋆ spec.next_dots) (drop at (tokens input.now))) }
{
    let (list, at) = some_parameters(alloc, declared, input, at)?;
    let (dots, at) = next_dots(input, at)?;
    Ok(((list, dots), at))
}

fn any_parameters(
    alloc: Global,
    declared: bool,
    input: &Input<'_>,
    at: usize,
) -> Result<((List<Param>, bool), usize), Stop>
    ensures { Gives (tokens input.now) result
        (read (reads levels) (spec.only_dots or spec.some_parameters declared ⋆ spec.next_dots) (drop at (tokens input.now))) }
{
    match only_dots(alloc, input, at) {
        Err(Stop::Absent) => {}
        found => return found,
    }
    then_dots(alloc, declared, input, at)
}

#[tactic(auto, unfolding(crate::specs::Parameters::listed))]
fn listed(
    alloc: Global,
    declared: bool,
    input: &Input<'_>,
    at: usize,
) -> Result<((List<Param>, bool), usize), Stop>
    ensures { Gives (tokens input.now) result (read (reads levels) (spec.listed declared) (drop at (tokens input.now))) }
{
    match any_parameters(alloc, declared, input, at) {
        Ok(found) => Ok(found),
        Err(Stop::Absent) => Ok(((List::new(alloc), false), at)),
        Err(Stop::Deep) => Err(Stop::Deep),
        Err(Stop::Memory) => Err(Stop::Memory),
    }
}

/// The parameters of a function, and whether `...` ends them. In a declaration a parameter may be metadata.
#[tactic(auto, unfolding(crate::specs::Parameters::parameters))]
pub fn parameters(
    alloc: Global,
    declared: bool,
    input: &Input<'_>,
    at: usize,
) -> Result<((List<Param>, bool), usize), Stop>
    ensures { Gives (tokens input.now) result (read (reads levels) (spec.parameters declared) (drop at (tokens input.now))) }
{
    let at = mark(input, at, b"(")?;
    let (found, at) = listed(alloc, declared, input, at)?;
    let at = mark(input, at, b")")?;
    Ok((found, at))
}
