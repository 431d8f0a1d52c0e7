// The widths of integers.
ghost use Rattle.std.specs.Prelude.{◌≡◌};
ghost use Rattle.std.specs.Option.{option_copied};
ghost use Rattle.ir_values.specs.declared.types.Ty.{out-Ty};
ghost use Rattle.kept_parts.specs.Widths as spec;

use ir_values::{Ty, Width};

fn layer_width(ty: &Ty) -> Option<Width>
    ensures { result ≡ spec.layer_width (out-Ty ty.now) }
{
    match ty {
        Ty::Int(width) => Some(*width),
        _ => None,
    }
}

/// The width of a known type of integers. `None`: it is no such type, or isn't known.
pub fn width_of(ty: Option<&Ty>) -> Option<Width>
    ensures { result ≡ spec.width_of (option_copied ty.entry) }
{
    match ty {
        Some(ty) => layer_width(ty),
        None => None,
    }
}
