// What names stand for.
ghost use Rattle.std.specs.Prelude.{◌≡◌};
ghost use Rattle.std.specs.Option.{option_copied};
ghost use Rattle.check_types.specs.Named as spec;

use check_names::{Context, Space};
use ir_values::{Form, Ty, Unit};
use ltt_base::Placed;

fn type_in(form: &Form) -> Option<&Ty>
    ensures { option_copied result ≡ spec.type_in form.now }
{
    match form {
        Form::TypeForm { ty: Some(ty), .. } => Some(ty),
        _ => None,
    }
}

/// The type that a unit gives to a name. None: the unit gives none.
pub fn type_of<'a>(unit: Option<&'a Placed<Unit>>) -> Option<&'a Ty>
    ensures { option_copied result ≡ spec.type_of (option_copied unit.entry) }
{
    match unit {
        Some(unit) => type_in(&unit.value.form),
        None => None,
    }
}

/// The type that a name stands for. None: no unit defines the name, or it is opaque.
#[tactic(auto, unfolding(crate::specs::Named::named_type))]
pub fn named_type<'a>(context: &Context<'a>, name: &[u8]) -> Option<&'a Ty>
    ensures { option_copied result ≡ spec.named_type context.now.units name.now }
{
    type_of(context.first_unit(Space::Types, name))
}

/// Whether a name is defined and has no type.
pub fn is_opaque(context: &Context<'_>, name: &[u8]) -> bool
    ensures { result ≡ spec.is_opaque context.now.units name.now }
{
    context.defines(Space::Types, name) && named_type(context, name).is_none()
}
