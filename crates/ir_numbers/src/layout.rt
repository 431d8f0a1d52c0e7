ghost use Rattle.std.specs.Prelude.{◌≡◌, ℕ, ◌+◌, ◌*◌, ◌^◌, ◌<◌, ◌≤◌, ◌↔◌, Bool, false, IsTrue, MatchOption, max, slice_get};
ghost use Rattle.std.specs.Int.{next_multiple_of};
ghost use Rattle.ir_numbers.specs.Layout.{layout, width_bytes, field_offsets, IsLaidOut};
ghost use Rattle.ir_numbers.specs.Spaces.{Takes};

use crate::numbers::bits;
use ir_values::{Ty, Width};

/// The most bytes that a type may take.
const MOST: u64 = 1 << 27;

/// The bytes that a type takes, and the alignment of its place.
#[derive(Clone, Copy)]
struct Space {
    size: u64,
    align: u64,
}

/// Whether a type has a size: it is made of integers, pointers, arrays and structs alone, and neither it
/// nor one of its parts takes more than 2^27 bytes.
pub fn is_laid_out(ty: &Ty) -> bool
    ensures { IsTrue result ↔ IsLaidOut ty.now }
{
    space_if_laid_out(ty).is_some()
}

/// The size of a type in bytes.
///
/// Source: LLVM Language Reference, "Data Layout".
pub fn size_of(ty: &Ty) -> u64
    requires { IsLaidOut ty.now }
    ensures value { result ≡ (layout ty.now).size }
    ensures range { result ≤ 2 ^ 27 }
{
    space_of(ty).size
}

/// The alignment of a type in bytes: 1, 2, 4 or 8.
///
/// Source: LLVM Language Reference, "Data Layout".
pub fn align_of(ty: &Ty) -> u64
    requires { IsLaidOut ty.now }
    ensures value { result ≡ (layout ty.now).align }
    ensures least { 1 ≤ result }
    ensures most { result ≤ 8 }
{
    space_of(ty).align
}

/// Where a part of a struct begins, in bytes from the start of the struct. Parts count from 0.
///
/// `None` exactly where `ty` is no struct or has no such part.
///
/// Source: LLVM Language Reference, "Structure Type" and "Data Layout".
pub fn field_at(ty: &Ty, index: u64) -> Option<u64>
    requires { IsLaidOut ty.now }
    ensures { result ≡ slice_get (field_offsets ty.now) index }
{
    let Ty::Struct(parts) = ty else {
        return None;
    };
    let mut end = 0u64;
    let mut left = index;
    for part in parts.items() {
        let space = space_of(part);
        if left == 0 {
            return Some(end.next_multiple_of(space.align));
        }
        end = end_behind(end, space);
        left -= 1;
    }
    None
}

fn space_of(ty: &Ty) -> Space
    requires { IsLaidOut ty.now }
    ensures { Takes (layout ty.now) result.size result.align }
{
    space_if_laid_out(ty).unwrap()
}

/// What a type takes. `None`: it has no size.
fn space_if_laid_out(ty: &Ty) -> Option<Space>
    ensures { MatchOption result ((layout ty.now).is_laid ≡ false) (λ space. Takes (layout ty.now) space.size space.align) }
{
    match ty {
        Ty::Int(width) => {
            let bytes = width_bytes(*width);
            Some(Space {
                size: bytes,
                align: bytes,
            })
        }
        Ty::Ptr => Some(Space { size: 8, align: 8 }),
        Ty::Array(count, part) => repeated(*count, space_if_laid_out(part.get())?),
        Ty::Struct(parts) => {
            let mut end = 0u64;
            let mut align = 1u64;
            for part in parts.items() {
                let space = space_if_laid_out(part)?;
                end = end_behind(end, space);
                if end > MOST {
                    return None;
                }
                align = align.max(space.align);
            }
            bounded(end.next_multiple_of(align), align)
        }
        _ => None,
    }
}

/// The bytes that an integer takes.
fn width_bytes(width: Width) -> u64
    ensures value { result ≡ width_bytes width }
    ensures least { 1 ≤ result }
    ensures most { result ≤ 8 }
{
    (bits(width) as u64 + 7) / 8
}

/// Where a part ends that is put behind `end`.
fn end_behind(end: u64, part: Space) -> u64
    requires end { end ≤ 2 ^ 27 }
    requires size { part.size ≤ 2 ^ 27 }
    requires align_least { 1 ≤ part.align }
    requires align_most { part.align ≤ 8 }
    ensures { result ≡ next_multiple_of end part.align + part.size }
{
    end.next_multiple_of(part.align) + part.size
}

/// What `count` places in a row take.
fn repeated(count: u64, part: Space) -> Option<Space>
    requires align_least { 1 ≤ part.align }
    requires align_most { part.align ≤ 8 }
    ensures { MatchOption result (2 ^ 27 < count * part.size) (λ space. (space.size ≡ count * part.size) × (space.size ≤ 2 ^ 27) × (space.align ≡ part.align)) }
{
    bounded(count.checked_mul(part.size)?, part.align)
}

fn bounded(size: u64, align: u64) -> Option<Space>
    ensures { MatchOption result (2 ^ 27 < size) (λ space. (space.size ≡ size) × (size ≤ 2 ^ 27) × (space.align ≡ align)) }
{
    if size <= MOST {
        Some(Space { size, align })
    } else {
        None
    }
}
