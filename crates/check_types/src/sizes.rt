// The limits of types, their sizes and their alignments.
ghost use Rattle.std.specs.Prelude.{◌≡◌, ◌^◌, ◌≤◌, IfOk};
ghost use Rattle.check_types.specs.Measures as spec;

use crate::ends::Types;
use crate::measures::Measure;
use check_names::{Flaw, worded_when};
use ir_values::Ty;
use ltt_base::{Code, Memory};
use std::alloc::Global;

/// Whether a type, or one in it, has more than 4,096 types or 2^24 bytes with its names replaced.
pub fn is_past(types: &Types<'_>, ty: &Ty) -> bool
    ensures { result ≡ spec.is_past types.now.units ty.now }
{
    types.measure(ty).is_none()
}

/// The flaw of a type past the limits.
pub fn past_flaw(alloc: Global, types: &Types<'_>, ty: &Ty) -> Result<Option<Flaw>, Memory>
    ensures { IfOk result (λ flaw. flaw ≡ spec.past_flaw types.now.units ty.now) }
{
    worded_when(alloc, is_past(types, ty), Code::E12, b"type")
}

fn size_in(measure: Option<Measure>) -> u64
    ensures value { result ≡ spec.size_in measure }
    ensures most { result ≤ 2 ^ 24 }
{
    match measure {
        Some(measure) => measure.size(),
        None => 0,
    }
}

fn align_in(measure: Option<Measure>) -> u64
    ensures value { result ≡ spec.align_in measure }
    ensures least { 1 ≤ result }
    ensures most { result ≤ 8 }
{
    match measure {
        Some(measure) => measure.align(),
        None => 1,
    }
}

/// The bytes that a type takes; 0 past the limits, and where it isn't known.
///
/// Source: LLVM Language Reference, "Data Layout".
pub fn size(types: &Types<'_>, ty: &Ty) -> u64
    ensures value { result ≡ spec.size types.now.units ty.now }
    ensures most { result ≤ 2 ^ 24 }
{
    size_in(types.measure(ty))
}

/// The alignment of a type's place: 1, 2, 4 or 8 bytes; 1 past the limits, and where it isn't known.
///
/// Source: LLVM Language Reference, "Data Layout".
pub fn align(types: &Types<'_>, ty: &Ty) -> u64
    ensures value { result ≡ spec.align types.now.units ty.now }
    ensures least { 1 ≤ result }
    ensures most { result ≤ 8 }
{
    align_in(types.measure(ty))
}
