// What calls call.
ghost use Rattle.std.specs.Prelude.{◌≡◌};
ghost use Rattle.std.specs.Option.{option_copied};
ghost use Rattle.ir_values.specs.declared.constants.Const.{out-Const};
ghost use Rattle.kept_parts.specs.Called as spec;

use check_constants::{Intrinsic, callee_of, intrinsic_of, is_declared_intrinsic};
use check_names::{Context, Space};
use check_types::Types;
use ir_values::{Const, Form, Head, Operand, Unit};
use ltt_base::{Placed, Text};

fn function_head(form: &Form) -> Option<&Head>
    ensures { option_copied result ≡ spec.function_head form.now }
{
    match form {
        Form::DeclareForm { head } => Some(head),
        Form::DefineForm { head } => Some(head),
        _ => None,
    }
}

fn unit_function<'a>(unit: Option<&'a Placed<Unit>>) -> Option<&'a Head>
    ensures { option_copied result ≡ spec.unit_function (option_copied unit.entry) }
{
    match unit {
        Some(unit) => function_head(&unit.value.form),
        None => None,
    }
}

/// The function of a name. `None`: the first unit that defines it is of another form, or there is none.
fn function_of<'a>(context: &Context<'a>, name: &[u8]) -> Option<&'a Head>
    ensures { option_copied result ≡ spec.function_of context.now.units name.now }
{
    unit_function(context.first_unit(Space::Globals, name))
}

fn is_name(constant: &Const) -> bool
    ensures { result ≡ spec.is_name (out-Const constant.now) }
{
    match constant {
        Const::Addr(_, _) => true,
        _ => false,
    }
}

fn may_call(context: &Context<'_>, constant: &Const, name: &[u8]) -> bool
    ensures { result ≡ spec.may_call context.now.units constant.now name.now }
{
    !is_declared_intrinsic(context, name) || is_name(constant)
}

fn named_function<'a>(
    context: &Context<'a>,
    constant: &Const,
    name: Option<&Text>,
) -> Option<&'a Head>
    ensures { option_copied result ≡ spec.named_function context.now.units constant.now (option_copied name.entry) }
{
    match name {
        Some(name) => {
            if may_call(context, constant, name.bytes()) {
                function_of(context, name.bytes())
            } else {
                None
            }
        }
        None => None,
    }
}

/// The function that is called directly. `None`: the call is through a value.
///
/// A function may be called by any constant that comes to its address, an intrinsic by its name alone.
pub fn called<'a>(types: &Types<'a>, callee: &'a Operand) -> Option<&'a Head>
    ensures { option_copied result ≡ spec.called types.now.units callee.now }
{
    match callee {
        Operand::Reg(_) => None,
        Operand::Const(constant) => {
            named_function(types.context(), constant, callee_of(types, constant))
        }
    }
}

/// The intrinsic that is called, of those that the file may use.
pub fn called_intrinsic(context: &Context<'_>, function: Option<&Head>) -> Option<Intrinsic>
    ensures { result ≡ spec.called_intrinsic context.now.output context.now.units (option_copied function.entry) }
{
    match function {
        Some(function) => {
            if is_declared_intrinsic(context, function.name.bytes()) {
                intrinsic_of(context.is_output(), function.name.bytes())
            } else {
                None
            }
        }
        None => None,
    }
}
