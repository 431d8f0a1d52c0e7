// Tests of known types at which constants of each form may not stand.
ghost use Rattle.std.specs.Prelude.{◌≡◌, nat_eq};
ghost use Rattle.ir_numbers.specs.Numbers as numbers;
ghost use Rattle.std.specs.Option.{option_copied};
ghost use Rattle.check_types.specs.Written.{is_pointer};
ghost use Rattle.check_constants.specs.Shapes as spec;

use crate::expected::Expected;
use check_types::{Types, differ, head};
use ir_numbers::bits;
use ir_values::{Ty, Width};

/// Whether a known type isn't `ptr`.
pub fn is_other_than_pointer(place: Expected<'_>) -> bool
    ensures { result ≡ spec.is_other is_pointer (spec.type_at place.entry) }
{
    match place {
        Expected::Unknown | Expected::Pointer | Expected::Written(Ty::Ptr) => false,
        _ => true,
    }
}

fn is_same_width(width: Width, other: Width) -> bool
    ensures { result ≡ nat_eq (numbers.bits width) (numbers.bits other) }
{
    bits(width) == bits(other)
}

/// Whether a known type isn't the integer type of a width.
pub fn is_other_than_width(width: Width, place: Expected<'_>) -> bool
    ensures { result ≡ spec.is_other (spec.is_width width) (spec.type_at place.entry) }
{
    match place {
        Expected::Unknown => false,
        Expected::Bit => !is_same_width(width, Width::W1),
        Expected::Written(Ty::Int(other)) => !is_same_width(width, *other),
        _ => true,
    }
}

/// Whether a known type isn't an array of so many parts.
pub fn is_other_than_array(many: usize, place: Expected<'_>) -> bool
    ensures { result ≡ spec.is_other (spec.is_array many) (spec.type_at place.entry) }
{
    match place {
        Expected::Unknown => false,
        Expected::Written(Ty::Array(parts, _)) => many as u64 != *parts,
        _ => true,
    }
}

/// Whether a known type isn't a struct of so many parts.
pub fn is_other_than_struct(many: usize, place: Expected<'_>) -> bool
    ensures { result ≡ spec.is_other (spec.is_struct many) (spec.type_at place.entry) }
{
    match place {
        Expected::Unknown => false,
        Expected::Written(Ty::Struct(parts)) => many != parts.len(),
        _ => true,
    }
}

fn is_byte_or_unknown(ty: Option<&Ty>) -> bool
    ensures { result ≡ spec.is_byte_or_unknown (option_copied ty.entry) }
{
    match ty {
        Some(Ty::Int(Width::W8)) => true,
        Some(_) => false,
        None => true,
    }
}

/// Whether a known type isn't an array of so many bytes.
pub fn is_other_than_bytes<'a>(types: &Types<'a>, many: usize, place: Expected<'a>) -> bool
    ensures { result ≡ spec.is_other (spec.are_bytes types.now.units many) (spec.type_at place.entry) }
{
    match place {
        Expected::Unknown => false,
        Expected::Written(Ty::Array(parts, part)) => {
            many as u64 != *parts || !is_byte_or_unknown(head(types, part.get()))
        }
        _ => true,
    }
}

/// Whether a written type differs from that of its place.
pub fn is_different<'a>(types: &Types<'a>, own: Option<&'a Ty>, ty: Option<&'a Ty>) -> bool
    ensures { result ≡ spec.is_different types.now.units (option_copied own.entry) (option_copied ty.entry) }
{
    match (own, ty) {
        (Some(own), Some(ty)) => differ(types, own, ty),
        _ => false,
    }
}
