ghost use Rattle.std.specs.Prelude.{◌≡◌, IfOk, map, drop, option_map};
ghost use Rattle.head_grammar.specs.Texts.{IsAnyVariable, IsVariable, OpensVariable};
ghost use Rattle.head_grammar.specs.Variables as spec;
ghost use Rattle.type_grammar.specs.Levels.{levels};
ghost use Rattle.type_grammar.specs.Names.{at_type};
ghost use Rattle.type_grammar.specs.Reading.{reads};
ghost use Rattle.unit_grammar.specs.Answers.{Tells};
ghost use Rattle.unit_grammar.specs.Readers.{read};
ghost use Rattle.unit_grammar.specs.Seeing.{Gives, tokens};

use crate::kept::Kept;
use ir_values::{Const, Form, Ty};
use ltt_base::{Memory, Text};
use std::alloc::Global;
use type_grammar::{Bare, at_type, read_constant, read_type};
use unit_grammar::{Input, Stop, global, mark, word_of};
use word_grammar::{attachments, item_run, maybe_other_linkage, variable_places};

#[tactic(auto, unfolding(crate::specs::Variables::kind_words))]
fn kind_words() -> &'static [&'static str]
    ensures { map (λ text. text.now) result.now ≡ spec.kind_words }
{
    &["global", "constant"]
}

#[tactic(auto, unfolding(crate::specs::Variables::kind))]
fn kind(input: &Input<'_>, at: usize) -> Result<(bool, usize), Stop>
    ensures { Gives (tokens input.now) result (read (reads levels) spec.kind (drop at (tokens input.now))) }
{
    let (seen, at) = word_of(input, at, kind_words())?;
    Ok((seen.bytes == b"constant".as_slice(), at))
}

#[tactic(auto, unfolding(crate::specs::Variables::external))]
fn external(alloc: Global, input: &Input<'_>, at: usize) -> Result<(Kept, usize), Stop>
    ensures { Gives (tokens input.now) result (read (reads levels) spec.external (drop at (tokens input.now))) }
{
    let (seen, at) = word_of(input, at, &["external"])?;
    let at = item_run(input, at)?;
    let (constant, at) = kind(input, at)?;
    let (ty, at) = read_type(alloc, input, at)?;
    let text = Text::copy(alloc, seen.bytes)?;
    Ok((
        Kept {
            linkage: Some(text),
            constant,
            ty,
            init: None,
        },
        at,
    ))
}

#[tactic(auto, unfolding(crate::specs::Variables::maybe_constant))]
fn maybe_constant(
    alloc: Global,
    input: &Input<'_>,
    at: usize,
) -> Result<(Option<Bare>, usize), Stop>
    ensures { Gives (tokens input.now) result (read (reads levels) spec.maybe_constant (drop at (tokens input.now))) }
{
    match read_constant(alloc, input, at) {
        Ok((constant, behind)) => Ok((Some(constant), behind)),
        Err(Stop::Absent) => Ok((None, at)),
        Err(Stop::Deep) => Err(Stop::Deep),
        Err(Stop::Memory) => Err(Stop::Memory),
    }
}

fn initial_at(alloc: Global, ty: &Ty, bare: Option<Bare>) -> Result<Option<Const>, Memory>
    ensures { IfOk result (λ init. init ≡ option_map (at_type ty.now) bare) }
{
    match bare {
        None => Ok(None),
        Some(bare) => {
            let constant = at_type(alloc, ty, bare)?;
            Ok(Some(constant))
        }
    }
}

#[tactic(auto, unfolding(crate::specs::Variables::initial))]
fn initial(alloc: Global, input: &Input<'_>, at: usize) -> Result<(Kept, usize), Stop>
    ensures { Gives (tokens input.now) result (read (reads levels) spec.initial (drop at (tokens input.now))) }
{
    let (linkage, at) = maybe_other_linkage(alloc, input, at)?;
    let at = item_run(input, at)?;
    let (constant, at) = kind(input, at)?;
    let (ty, at) = read_type(alloc, input, at)?;
    let (bare, at) = maybe_constant(alloc, input, at)?;
    let init = initial_at(alloc, &ty, bare)?;
    Ok((
        Kept {
            linkage,
            constant,
            ty,
            init,
        },
        at,
    ))
}

#[tactic(auto, unfolding(crate::specs::Variables::kept))]
fn kept(alloc: Global, input: &Input<'_>, at: usize) -> Result<(Kept, usize), Stop>
    ensures { Gives (tokens input.now) result (read (reads levels) spec.kept (drop at (tokens input.now))) }
{
    match external(alloc, input, at) {
        Err(Stop::Absent) => {}
        found => return found,
    }
    initial(alloc, input, at)
}

#[tactic(auto, unfolding(crate::specs::Variables::variable_form))]
fn variable(alloc: Global, input: &Input<'_>, at: usize) -> Result<(Form, usize), Stop>
    ensures { Gives (tokens input.now) result (read (reads levels) spec.variable_form (drop at (tokens input.now))) }
{
    let (name, at) = global(alloc, input, at)?;
    let at = mark(input, at, b"=")?;
    let (kept, at) = kept(alloc, input, at)?;
    let (align, at) = variable_places(input, at)?;
    let (attached, at) = attachments(alloc, input, at)?;
    Ok((
        Form::VariableForm {
            name,
            linkage: kept.linkage,
            constant: kept.constant,
            ty: kept.ty,
            init: kept.init,
            align,
            attached,
        },
        at,
    ))
}

/// The variable that begins at a place, and the place behind it: the longest text of one.
///
/// `external` alone tells that there is no initial value; else `init` is `None` where none is written. The inner `None` of `align`
/// is a number that isn't from 0 to 2^64 - 1. Section and comdat are dropped.
///
/// Source: LLVM Language Reference, "Global Variables". Differs: see docs/language.md.
pub fn read_variable(alloc: Global, input: &Input<'_>, at: usize) -> Result<(Form, usize), Stop>
    ensures gives { Gives (tokens input.now) result (read (reads levels) spec.variable_form (drop at (tokens input.now))) }
    ensures longest { Tells (IsVariable levels) IsAnyVariable (OpensVariable levels) (tokens input.now) (drop at (tokens input.now)) result }
{
    variable(alloc, input, at)
}
