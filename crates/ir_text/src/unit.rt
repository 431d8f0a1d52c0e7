ghost use Rattle.std.specs.Prelude.{◌≡◌, Some, drop};
ghost use Rattle.ir_text.specs.Choices.{longer, prefer};
ghost use Rattle.ir_text.specs.UnitReaders as spec;
ghost use Rattle.unit_grammar.specs.Readers.{found};
ghost use Rattle.unit_grammar.specs.Seeing.{Gives, Sees, tokens};

use crate::forms::{flat_number, form, left};
use ir_values::{Form, Unit};
use ltt_base::Text;
use std::alloc::Global;
use unit_grammar::{Input, Seen, Stop};

/// The longer of two texts, and the first where they are as long.
fn longer(input: &Input<'_>, first: Form, behind: usize, other: Form, next: usize) -> (Form, usize)
    ensures { longer first (drop behind (tokens input.now)) (found other (drop next (tokens input.now)))
        ≡ found result.0 (drop result.1 (tokens input.now)) }
{
    if input.left(next) < input.left(behind) {
        (other, next)
    } else {
        (first, behind)
    }
}

#[tactic(auto, unfolding(crate::specs::UnitReaders::last_read))]
fn number_or(
    alloc: Global,
    input: &Input<'_>,
    at: usize,
    other: Form,
    next: usize,
) -> Result<(Form, usize), Stop>
    ensures { Gives (tokens input.now) result (prefer (spec.number_read (drop at (tokens input.now))) (found other (drop next (tokens input.now)))) }
{
    match flat_number(alloc, input, at) {
        Ok((first, behind)) => Ok(longer(input, first, behind, other, next)),
        Err(Stop::Absent) => Ok((other, next)),
        Err(Stop::Deep) => Err(Stop::Deep),
        Err(Stop::Memory) => Err(Stop::Memory),
    }
}

/// The number of a pointer, or what is left out.
#[tactic(auto, unfolding(crate::specs::UnitReaders::last_read))]
fn last(alloc: Global, input: &Input<'_>, at: usize) -> Result<(Form, usize), Stop>
    ensures { Gives (tokens input.now) result (spec.last_read (drop at (tokens input.now))) }
{
    match left(alloc, input, at) {
        Ok((other, next)) => number_or(alloc, input, at, other, next),
        Err(Stop::Absent) => flat_number(alloc, input, at),
        Err(Stop::Deep) => flat_number(alloc, input, at),
        Err(Stop::Memory) => Err(Stop::Memory),
    }
}

fn form_or(
    alloc: Global,
    input: &Input<'_>,
    at: usize,
    other: Form,
    next: usize,
) -> Result<(Form, usize), Stop>
    ensures { Gives (tokens input.now) result (prefer (spec.form_read (drop at (tokens input.now))) (found other (drop next (tokens input.now)))) }
{
    match form(alloc, input, at) {
        Ok((first, behind)) => Ok(longer(input, first, behind, other, next)),
        Err(Stop::Absent) => Ok((other, next)),
        Err(Stop::Deep) => Err(Stop::Deep),
        Err(Stop::Memory) => Err(Stop::Memory),
    }
}

#[tactic(auto, unfolding(crate::specs::UnitReaders::said_read))]
fn said(alloc: Global, input: &Input<'_>, at: usize) -> Result<(Form, usize), Stop>
    ensures { Gives (tokens input.now) result (spec.said_read (drop at (tokens input.now))) }
{
    match last(alloc, input, at) {
        Ok((other, next)) => form_or(alloc, input, at, other, next),
        Err(Stop::Absent) => form(alloc, input, at),
        Err(Stop::Deep) => form(alloc, input, at),
        Err(Stop::Memory) => Err(Stop::Memory),
    }
}

/// The unit that begins at a place, with the token there.
#[tactic(auto, unfolding(crate::specs::UnitReaders::unit_read))]
pub fn unit(
    alloc: Global,
    input: &Input<'_>,
    at: usize,
    first: Seen<'_>,
) -> Result<(Unit, usize), Stop>
    requires { Sees (tokens input.now) at (Some first) }
    ensures { Gives (tokens input.now) result (spec.unit_read (drop at (tokens input.now))) }
{
    let (form, behind) = said(alloc, input, at)?;
    let first = Text::copy(alloc, first.bytes)?;
    Ok((Unit { first, form }, behind))
}
