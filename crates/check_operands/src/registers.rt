ghost use Rattle.std.specs.Prelude.{◌≡◌, slice_get};
ghost use Rattle.std.specs.Option.{option_copied};
ghost use Rattle.check_operands.specs.Registers as spec;

use crate::made::Made;
use check_bodies::{Asked, Body, Local};
use ir_values::{Form, Head, Param, Ty, Unit};
use ltt_base::{Placed, Text};

fn defined_head_in(form: &Form) -> Option<&Head>
    ensures { option_copied result ≡ spec.defined_head form.now }
{
    match form {
        Form::DefineForm { head } => Some(head),
        _ => None,
    }
}

fn unit_head<'a>(unit: Option<&'a Placed<Unit>>) -> Option<&'a Head>
    ensures { option_copied result ≡ spec.unit_head (option_copied unit.entry) }
{
    match unit {
        Some(unit) => defined_head_in(&unit.value.form),
        None => None,
    }
}

fn unit_at(units: &[Placed<Unit>], at: usize) -> Option<&Placed<Unit>>
    ensures { option_copied result ≡ slice_get units.now at }
{
    units.get(at)
}

/// The head of the function that a body belongs to.
pub fn defined_head<'a>(body: &Body<'a>) -> Option<&'a Head>
    ensures { option_copied result ≡ spec.head_at body.now.units body.now.head }
{
    unit_head(unit_at(body.units(), body.head()))
}

fn param_type<'a>(param: Option<&'a Param>) -> Option<&'a Ty>
    ensures { option_copied result ≡ spec.param_type (option_copied param.entry) }
{
    match param {
        Some(param) => Some(&param.ty),
        None => None,
    }
}

fn param_at(params: &[Param], at: usize) -> Option<&Param>
    ensures { option_copied result ≡ slice_get params.now at }
{
    params.get(at)
}

fn parameter_type<'a>(head: Option<&'a Head>, at: usize) -> Option<&'a Ty>
    ensures { option_copied result ≡ spec.parameter_type (option_copied head.entry) at }
{
    match head {
        Some(head) => param_type(param_at(head.params.items(), at)),
        None => None,
    }
}

fn extracted_type(made: &Made, part: Option<u64>) -> Option<&Ty>
    ensures { option_copied result ≡ spec.extracted_type part }
{
    match part {
        Some(0) => Some(made.pointer()),
        Some(1) => Some(made.bit()),
        _ => None,
    }
}

fn result_type<'a>(made: &'a Made, form: &'a Form) -> Option<&'a Ty>
    ensures { option_copied result ≡ spec.result_type form.now }
{
    match form {
        Form::BinaryForm { ty, .. } => Some(ty),
        Form::CompareForm { .. } => Some(made.bit()),
        Form::SelectForm { ty, .. } => Some(ty),
        Form::CastForm { to, .. } => Some(to),
        Form::AddressForm { .. } => Some(made.pointer()),
        Form::LoadForm { ty, .. } => Some(ty),
        Form::CallForm { result, .. } => Some(result),
        Form::ExtractForm { part, .. } => extracted_type(made, *part),
        Form::PhiForm { ty, .. } => Some(ty),
        Form::NumberForm { .. } => Some(made.long()),
        _ => None,
    }
}

fn unit_type<'a>(made: &'a Made, unit: Option<&'a Placed<Unit>>) -> Option<&'a Ty>
    ensures { option_copied result ≡ spec.unit_type (option_copied unit.entry) }
{
    match unit {
        Some(unit) => result_type(made, &unit.value.form),
        None => None,
    }
}

fn local_type<'a>(made: &'a Made, body: &Body<'a>, local: Option<Local>) -> Option<&'a Ty>
    ensures { option_copied result ≡ spec.local_type body.now.units body.now.head local }
{
    match local {
        Some(Local::Parameter(at)) => parameter_type(defined_head(body), at),
        Some(Local::Result(at)) => unit_type(made, unit_at(body.units(), at)),
        _ => None,
    }
}

/// The type of the value that a name stands for in a function. None: it isn't known.
///
/// It is the written one, that of the instruction's result, or that of the part which is extracted.
pub fn register_type<'a>(made: &'a Made, body: &Body<'a>, name: &Text) -> Option<&'a Ty>
    ensures { option_copied result ≡ spec.register_type body.now.units body.now.head name.now }
{
    local_type(made, body, body.first_local(Asked::Values, name))
}
