// The types at which constants stand.
ghost use Rattle.std.specs.Prelude.{◌≡◌};
ghost use Rattle.std.specs.Option.{option_copied};
ghost use Rattle.ir_values.specs.declared.types.Ty.{out-Ty};
ghost use Rattle.check_types.specs.Parts.{part_in, head_part};
ghost use Rattle.check_constants.specs.Shapes as spec;
ghost use Rattle.check_constants.specs.Indices as indices;

use check_types::{Types, head};
use ir_values::Ty;

/// The type at which a constant stands: `ptr`, `i1` or a written one; or it isn't known.
#[derive(Clone, Copy)]
pub enum Expected<'a> {
    Unknown,
    Pointer,
    Bit,
    Written(&'a Ty),
}

/// A type, where there is one.
pub fn place_of<'a>(ty: Option<&'a Ty>) -> Expected<'a>
    ensures { spec.type_at result ≡ option_copied ty.entry }
{
    match ty {
        Some(ty) => Expected::Written(ty),
        None => Expected::Unknown,
    }
}

/// The type of a place with its names followed.
pub fn known_place<'a>(types: &Types<'a>, place: Expected<'a>) -> Expected<'a>
    ensures { spec.type_at result ≡ indices.known types.now.units (spec.type_at place.entry) }
{
    match place {
        Expected::Written(ty) => place_of(head(types, ty)),
        _ => place,
    }
}

fn layer_part(ty: &Ty, at: usize) -> Option<&Ty>
    ensures { option_copied result ≡ part_in at (out-Ty ty.now) }
{
    match ty {
        Ty::Array(_, part) => Some(part.get()),
        Ty::Struct(parts) => parts.get(at),
        _ => None,
    }
}

/// The type of a part of a known aggregate. `None`: it has no such part, or isn't known.
pub fn part_of<'a>(place: Expected<'a>, at: usize) -> Option<&'a Ty>
    ensures { option_copied result ≡ head_part at (spec.type_at place.entry) }
{
    match place {
        Expected::Written(ty) => layer_part(ty, at),
        _ => None,
    }
}
