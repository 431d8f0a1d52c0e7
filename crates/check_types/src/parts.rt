// The parts of types.
ghost use Rattle.std.specs.Prelude.{◌≡◌, ◌^◌, ◌≤◌, slice_get};
ghost use Rattle.std.specs.Option.{option_copied};
ghost use Rattle.ir_values.specs.declared.types.Ty.{out-Ty};
ghost use Rattle.check_types.specs.Parts as spec;

use crate::ends::Types;
use crate::heads::head;
use crate::sizes::{align, size};
use ir_values::Ty;

fn part_at(parts: &[Ty], at: u64) -> Option<&Ty>
    ensures { option_copied result ≡ slice_get parts.now at }
{
    parts.get(at as usize)
}

fn part_in(ty: &Ty, at: u64) -> Option<&Ty>
    ensures { option_copied result ≡ spec.part_in at (out-Ty ty.now) }
{
    match ty {
        Ty::Array(_, part) => Some(part.get()),
        Ty::Struct(parts) => part_at(parts.items(), at),
        _ => None,
    }
}

fn head_part(at: u64, ty: Option<&Ty>) -> Option<&Ty>
    ensures { option_copied result ≡ spec.head_part at (option_copied ty.entry) }
{
    match ty {
        Some(ty) => part_in(ty, at),
        None => None,
    }
}

/// A part of an array, each of which has the same type, or of a struct.
///
/// None: the type is a struct with no such part, or neither, or isn't known.
pub fn part<'a>(types: &Types<'a>, ty: &'a Ty, at: u64) -> Option<&'a Ty>
    ensures { option_copied result ≡ spec.part types.now.units ty.now at }
{
    head_part(at, head(types, ty))
}

/// Where a part of a struct begins, in bytes from the struct's start; where its last part ends, if it has no such part.
///
/// Source: LLVM Language Reference, "Data Layout".
#[tactic(auto, unfolding(crate::specs::Parts::offset_from))]
pub fn struct_offset(types: &Types<'_>, parts: &[Ty], at: u64) -> u128
    ensures value { result ≡ spec.struct_offset types.now.units parts.now at }
    ensures most { result ≤ 2 ^ 90 }
{
    let mut from = 0u128;
    let mut left = at;
    for part in parts {
        let start = from.next_multiple_of(align(types, part) as u128);
        if left == 0 {
            return start;
        }
        from = start + size(types, part) as u128;
        left -= 1;
    }
    from
}
