ghost use Rattle.std.specs.Prelude.{◌≡◌, ◌%◌, ◌^◌, ◌<◌};
ghost use Rattle.std.specs.Option.{option_copied};
ghost use Rattle.ir_values.specs.declared.types.Ty.{out-Ty};
ghost use Rattle.ir_numbers.specs.Numbers.{bits};
ghost use Rattle.ir_meaning.specs.Addresses.{extended, scaled, offset_in, part_in, index_of, offset_behind, offset_of, address_at};

use crate::operands::{integer_of, pointer_of};
use crate::states::Frame;
use ir_memories::{Memory, Value};
use ir_numbers::{cast, field_at, is_laid_out, size_of};
use ir_values::{CastOp, Operand, Ty, Width};

/// An index as a number of 64 bits.
fn extended(width: Width, n: u64) -> u64
    requires { n < 2 ^ bits width }
    ensures { result ≡ extended width n }
{
    match width {
        Width::W64 => n,
        _ => cast(CastOp::Sext, width, Width::W64, n),
    }
}

/// So many places of a type, in bytes.
fn scaled(ty: &Ty, n: u64) -> Option<u64>
    ensures { result ≡ scaled ty.now n }
{
    if is_laid_out(ty) {
        Some(n.wrapping_mul(size_of(ty)))
    } else {
        None
    }
}

/// Where a part of an array or a struct begins.
fn offset_in(ty: &Ty, n: u64) -> Option<u64>
    ensures { result ≡ offset_in ty.now (out-Ty ty.now) n }
{
    match ty {
        Ty::Array(_, part) => scaled(part.get(), n),
        Ty::Struct(_) => {
            if is_laid_out(ty) {
                field_at(ty, n)
            } else {
                None
            }
        }
        _ => None,
    }
}

/// The type of that part.
fn part_in(ty: &Ty, n: u64) -> Option<&Ty>
    ensures { option_copied result ≡ part_in (out-Ty ty.now) n }
{
    match ty {
        Ty::Array(_, part) => Some(part.get()),
        Ty::Struct(parts) => parts.get(n as usize),
        _ => None,
    }
}

fn index_of<M: Memory>(
    memory: &M,
    frame: &Frame<M::Pointer>,
    width: Width,
    operand: &Operand,
) -> Option<u64>
    ensures { result ≡ index_of M.model memory.now frame.now width operand.now }
{
    let n = integer_of(memory, frame, width, operand)?;
    Some(extended(width, n))
}

/// The bytes of indices that lead on into parts of a type, behind `first` of them.
fn offset_behind<M: Memory>(
    memory: &M,
    frame: &Frame<M::Pointer>,
    first: u64,
    whole: &Ty,
    indices: &[(Width, Operand)],
) -> Option<u64>
    ensures { result ≡ offset_behind M.model memory.now frame.now first whole.now indices.now }
{
    let mut sum = first;
    let mut ty = whole;
    for at in 0..indices.len() {
        let index = &indices[at];
        let n = index_of(memory, frame, index.0, &index.1)?;
        let offset = offset_in(ty, n)?;
        ty = part_in(ty, n)?;
        sum = sum.wrapping_add(offset);
    }
    Some(sum)
}

/// The bytes that indices add.
fn offset_of<M: Memory>(
    memory: &M,
    frame: &Frame<M::Pointer>,
    ty: &Ty,
    indices: &[(Width, Operand)],
) -> Option<u64>
    ensures { result ≡ offset_of M.model memory.now frame.now ty.now indices.now }
{
    let [index, rest @ ..] = indices else {
        return Some(0);
    };
    let n = index_of(memory, frame, index.0, &index.1)?;
    let offset = scaled(ty, n)?;
    offset_behind(memory, frame, offset, ty, rest)
}

/// What an address instruction gives.
pub fn address_at<M: Memory>(
    memory: &M,
    frame: &Frame<M::Pointer>,
    ty: &Ty,
    base: &Operand,
    indices: &[(Width, Operand)],
) -> Option<Value<M::Pointer>>
    ensures { result ≡ address_at M.model memory.now frame.now ty.now base.now indices.now }
{
    let p = pointer_of(memory, frame, base)?;
    let offset = offset_of(memory, frame, ty, indices)?;
    Some(Value::Ptr(memory.moved(p, offset)))
}
