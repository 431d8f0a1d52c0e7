// What is wrong with what calls call.
ghost use Rattle.std.specs.Prelude.{◌≡◌, IfOk};
ghost use Rattle.std.specs.Option.{option_copied};
ghost use Rattle.check_calls.specs.Callees as spec;

use check_bodies::Body;
use check_constants::{is_declared_intrinsic, is_left_intrinsic};
use check_names::{Context, Flaw, named_when};
use check_operands::{Made, operand_flaw};
use check_types::Types;
use ir_values::{Head, Operand};
use ltt_base::{Code, Memory};
use std::alloc::Global;

/// Whether an intrinsic that is left out is called.
pub fn is_left_call(context: &Context<'_>, function: Option<&Head>) -> bool
    ensures { result ≡ spec.is_left_call context.now.output context.now.units (option_copied function.entry) }
{
    match function {
        Some(function) => is_left_intrinsic(context, function.name.bytes()),
        None => false,
    }
}

fn is_intrinsic_call(context: &Context<'_>, function: Option<&Head>) -> bool
    ensures { result ≡ spec.is_intrinsic_call context.now.units (option_copied function.entry) }
{
    match function {
        Some(function) => is_declared_intrinsic(context, function.name.bytes()),
        None => false,
    }
}

fn left_call_flaw(
    alloc: Global,
    context: &Context<'_>,
    function: Option<&Head>,
) -> Result<Option<Flaw>, Memory>
    ensures { IfOk result (λ flaw. flaw
        ≡ spec.left_call_flaw context.now.output context.now.units (option_copied function.entry)) }
{
    match function {
        Some(function) => {
            let left = is_left_intrinsic(context, function.name.bytes());
            named_when(alloc, left, Code::E07, b"@", function.name.bytes())
        }
        None => Ok(None),
    }
}

pub(crate) fn callee_flaw<'a>(
    alloc: Global,
    types: &Types<'a>,
    made: &'a Made,
    body: &Body<'a>,
    function: Option<&'a Head>,
    callee: &'a Operand,
) -> Result<Option<Flaw>, Memory>
    requires { body.now.units ≡ types.now.units }
    ensures { IfOk result (λ flaw. flaw
        ≡ spec.callee_flaw types.now.output types.now.units body.now.head (option_copied function.entry) callee.now) }
{
    if is_intrinsic_call(types.context(), function) {
        left_call_flaw(alloc, types.context(), function)
    } else {
        operand_flaw(alloc, types, made, body, false, made.pointer(), callee)
    }
}
