// The flaws of a unit.
ghost use Rattle.std.specs.Prelude.{◌≡◌, ◌<◌, true, length, IfOk};
ghost use Rattle.check_items.specs.Counts.{counts_before};
ghost use Rattle.check_items.specs.Identifiers.{IsTooManyFrom};
ghost use Rattle.ir_check.specs.Units as spec;
ghost use Rattle.ir_check.specs.Walk.{IsHeadAt, is_head};

use check_bodies::{Body, Spot, Standing, body_flaw, outside_flaw, unclosed_flaw};
use check_instructions::instruction_flaw;
use check_items::{Counts, item_flaw};
use check_names::{Flaw, counts};
use check_operands::Made;
use check_types::Types;
use ir_values::Form;
use ltt_base::Memory;
use std::alloc::Global;

/// Whether a unit is the head of a function that is declared or defined.
pub fn is_head(form: &Form) -> bool
    ensures { result ≡ is_head form.now }
{
    match form {
        Form::DeclareForm { .. } => true,
        Form::DefineForm { .. } => true,
        _ => false,
    }
}

fn unclosed(types: &Types<'_>, at: usize, form: &Form) -> Option<Flaw>
    requires { at < length types.now.units }
    ensures { result ≡ spec.unclosed types.now.units at form.now }
{
    match form {
        Form::DefineForm { .. } => unclosed_flaw(types.context().units(), at),
        _ => None,
    }
}

fn outer_flaw<'a>(
    alloc: Global,
    types: &Types<'a>,
    so_far: Counts,
    too_many: Option<usize>,
    at: usize,
    form: &'a Form,
) -> Result<Option<Flaw>, Memory>
    requires within { at < length types.now.units }
    requires so_far { so_far ≡ counts_before types.now.units at }
    requires too_many { IsTooManyFrom types.now.units too_many }
    ensures { IfOk result (λ flaw. flaw ≡ spec.outer_flaw types.now.output types.now.units at form.now) }
{
    let unclosed = unclosed(types, at, form);
    let item = item_flaw(alloc, types, so_far, too_many, at, form)?;
    Ok(counts(outside_flaw(form), counts(unclosed, item)))
}

#[tactic(auto, unfolding(crate::specs::Units::place_flaw))]
fn place_flaw(
    alloc: Global,
    body: &Body<'_>,
    at: usize,
    spot: Spot,
    form: &Form,
) -> Result<Option<Flaw>, Memory>
    ensures { IfOk result (λ flaw. flaw ≡ spec.place_flaw body.now.units body.now.head at spot form.now) }
{
    body_flaw(alloc, body, at, spot, form)
}

fn inner_flaw<'a>(
    alloc: Global,
    types: &Types<'a>,
    made: &'a Made,
    body: &Body<'a>,
    at: usize,
    spot: Spot,
    form: &'a Form,
) -> Result<Option<Flaw>, Memory>
    requires units { body.now.units ≡ types.now.units }
    requires head { body.now.head ≡ spot.head }
    ensures { IfOk result (λ flaw. flaw ≡ spec.inner_flaw types.now.output types.now.units at spot form.now) }
{
    let place = place_flaw(alloc, body, at, spot, form)?;
    let instruction = instruction_flaw(alloc, types, made, body, at, spot, form)?;
    Ok(counts(place, instruction))
}

/// The flaw that counts of a unit where it stands.
pub fn flaw_at<'a>(
    alloc: Global,
    types: &Types<'a>,
    made: &'a Made,
    body: &Body<'a>,
    so_far: Counts,
    too_many: Option<usize>,
    at: usize,
    standing: Standing,
    form: &'a Form,
) -> Result<Option<Flaw>, Memory>
    requires within { at < length types.now.units }
    requires so_far { so_far ≡ counts_before types.now.units at }
    requires too_many { IsTooManyFrom types.now.units too_many }
    requires units { body.now.units ≡ types.now.units }
    requires head { IsHeadAt at standing form.now body.now.head }
    ensures { IfOk result (λ flaw. flaw ≡ spec.flaw_at types.now.output types.now.units at standing form.now) }
{
    match standing {
        Standing::Outside => outer_flaw(alloc, types, so_far, too_many, at, form),
        Standing::Inside(spot) => inner_flaw(alloc, types, made, body, at, spot, form),
    }
}
