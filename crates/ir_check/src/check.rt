// The walk over the units of a file.
ghost use Rattle.std.specs.Prelude.{◌≡◌, ◌<◌, length, IfOk};
ghost use Rattle.ir_check.specs.Answers.{Answers, refusal_of, word_of};
ghost use Rattle.ir_check.specs.Walk.{begins, IsHeadOf, IsHeadAt, IsFound, IsAny};

use crate::units::{flaw_at, is_head};
use check_bodies::{Body, Standing, after};
use check_items::{counted, first_counts, too_many_from};
use check_names::{Context, Flaw};
use check_operands::Made;
use check_types::Types;
use ir_values::{Form, Unit};
use ltt_base::{Fault, Memory, Placed, Refusal, Text};
use std::alloc::Global;

fn begins(standing: Standing, form: &Form) -> bool
    ensures { result ≡ begins standing form.now }
{
    match standing {
        Standing::Outside => is_head(form),
        Standing::Inside(_) => false,
    }
}

fn word_of(alloc: Global, flaw: Flaw, unit: &Unit) -> Result<Text, Memory>
    ensures { IfOk result (λ word. word ≡ word_of flaw.name unit.now.first) }
{
    match flaw.name {
        Some(name) => Ok(name),
        None => Text::copy(alloc, unit.first.bytes()),
    }
}

/// The refusal of a unit with a flaw.
fn refusal_of(alloc: Global, unit: &Placed<Unit>, flaw: Flaw) -> Result<Refusal, Memory>
    ensures { IfOk result (λ refusal. refusal ≡ refusal_of unit.now flaw) }
{
    let code = flaw.code;
    let word = word_of(alloc, flaw, &unit.value)?;
    Ok(Refusal {
        code,
        place: unit.place,
        word,
    })
}

/// The function of a unit: one that the unit begins, or else the one before.
fn body_at<'a>(
    alloc: Global,
    units: &'a [Placed<Unit>],
    at: usize,
    form: &Form,
    standing: Standing,
    body: Body<'a>,
) -> Result<Body<'a>, Memory>
    requires within { at < length units.now }
    requires units { body.units ≡ units.now }
    requires head { IsHeadOf standing body.head }
    ensures units { IfOk result (λ function. function.units ≡ units.now) }
    ensures head { IfOk result (λ function. IsHeadAt at standing form.now function.head) }
{
    if begins(standing, form) {
        return Body::new(alloc, units, at);
    }
    Ok(body)
}

/// The first flaw of a file's units, and the place of its unit among them.
fn first_flaw<'a>(
    alloc: Global,
    types: &Types<'a>,
    made: &'a Made,
) -> Result<Option<(usize, Flaw)>, Memory>
    ensures { IfOk result (IsFound types.now.output types.now.units) }
{
    let units = types.context().units();
    if units.is_empty() {
        return Ok(None);
    }
    let too_many = too_many_from(alloc, types)?;
    let mut body = Body::new(alloc, units, 0)?;
    let mut standing = Standing::Outside;
    let mut so_far = first_counts(units);
    for at in 0..units.len() {
        let form = &units[at].value.form;
        body = body_at(alloc, units, at, form, standing, body)?;
        let flaw = flaw_at(
            alloc, types, made, &body, so_far, too_many, at, standing, form,
        )?;
        if let Some(flaw) = flaw {
            return Ok(Some((at, flaw)));
        }
        so_far = counted(units, at, so_far);
        standing = after(at, standing, form);
    }
    Ok(None)
}

/// Whether no unit of a file has a flaw, where its types are known.
pub(crate) fn check_with<'a>(alloc: Global, types: &Types<'a>, made: &'a Made) -> Result<(), Fault>
    ensures { Answers IsAny types.now.output types.now.units result }
{
    let units = types.context().units();
    match first_flaw(alloc, types, made)? {
        Some((at, flaw)) => Err(Fault::Refused(refusal_of(alloc, &units[at], flaw)?)),
        None => Ok(()),
    }
}

fn check_made<'a>(
    alloc: Global,
    output: bool,
    units: &'a [Placed<Unit>],
    made: &'a Made,
) -> Result<(), Fault>
    ensures { Answers IsAny output units.now result }
{
    let context = Context::new(alloc, output, units)?;
    let types = Types::new(alloc, context)?;
    check_with(alloc, &types, made)
}

/// Whether no unit of a file has a flaw.
///
/// A refusal is that of the first unit with a flaw: of its flaws the lowest code counts, and of one code the first in the text.
/// Its word is the flaw's own, or else the unit's first token.
pub fn check_units(alloc: Global, output: bool, units: &[Placed<Unit>]) -> Result<(), Fault>
    ensures { Answers IsAny output units.now result }
{
    let made = Made::new(alloc)?;
    check_made(alloc, output, units, &made)
}
