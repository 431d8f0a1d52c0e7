ghost use Rattle.std.specs.Prelude.{◌≡◌, ◌↔◌, IsTrue};
ghost use Rattle.ir_numbers.specs.Numbers.{bits};
ghost use Rattle.ir_numbers.specs.Arithmetic.{Casts};
ghost use Rattle.ir_meaning.specs.Instructions.{equality, is_cast, part_of, binary_at, compared_at, selected_at, converted_at, extracted_at, number_at, rotated_at, tested_at, loaded_at, loaded_if, checked_at};

use crate::operands::{integer_of, pointer, pointer_of, truth_of, truth_value, value_of};
use crate::registers::get;
use crate::states::Frame;
use ir_memories::{Memory, Value};
use ir_numbers::{binary, bits, cast, compare};
use ir_values::{BinOp, CastOp, Operand, Pred, Ty, TypeId, Width};

/// What an operation on two integers gives.
pub fn binary_at<M: Memory>(
    memory: &M,
    frame: &Frame<M::Pointer>,
    op: BinOp,
    width: Width,
    a: &Operand,
    b: &Operand,
) -> Option<Value<M::Pointer>>
    ensures { result ≡ binary_at M.model memory.now frame.now op width a.now b.now }
{
    let x = integer_of(memory, frame, width, a)?;
    let y = integer_of(memory, frame, width, b)?;
    let n = binary(op, width, x, y)?;
    Some(Value::Int(width, n))
}

fn equality(pred: Pred, is_equal: bool) -> Option<bool>
    ensures { result ≡ equality pred is_equal }
{
    match pred {
        Pred::Eq => Some(is_equal),
        Pred::Ne => Some(!is_equal),
        _ => None,
    }
}

/// What a comparison gives.
pub fn compared_at<M: Memory>(
    memory: &M,
    frame: &Frame<M::Pointer>,
    pred: Pred,
    ty: &Ty,
    a: &Operand,
    b: &Operand,
) -> Option<Value<M::Pointer>>
    ensures { result ≡ compared_at M.model memory.now frame.now pred ty.now a.now b.now }
{
    match ty {
        Ty::Int(width) => {
            let x = integer_of(memory, frame, *width, a)?;
            let y = integer_of(memory, frame, *width, b)?;
            Some(truth_value(compare(pred, *width, x, y)))
        }
        Ty::Ptr => {
            let p = pointer_of(memory, frame, a)?;
            let q = pointer_of(memory, frame, b)?;
            let holds = equality(pred, memory.equal(p, q)?)?;
            Some(truth_value(holds))
        }
        _ => None,
    }
}

/// What a selection gives.
pub fn selected_at<M: Memory>(
    memory: &M,
    frame: &Frame<M::Pointer>,
    cond: &Operand,
    a: &Operand,
    b: &Operand,
) -> Option<Value<M::Pointer>>
    ensures { result ≡ selected_at M.model memory.now frame.now cond.now a.now b.now }
{
    let holds = truth_of(memory, frame, cond)?;
    let x = value_of(memory, frame, a)?;
    let y = value_of(memory, frame, b)?;
    Some(if holds { x } else { y })
}

/// Whether the widths are those of a cast.
fn is_cast(op: CastOp, from: Width, to: Width) -> bool
    ensures value { result ≡ is_cast op (bits from) (bits to) }
    ensures casts { IsTrue result ↔ Casts op (bits from) (bits to) }
{
    match op {
        CastOp::Zext | CastOp::Sext => bits(from) < bits(to),
        CastOp::Trunc => bits(to) < bits(from),
    }
}

/// What a cast gives.
pub fn converted_at<M: Memory>(
    memory: &M,
    frame: &Frame<M::Pointer>,
    op: CastOp,
    from: Width,
    a: &Operand,
    to: Width,
) -> Option<Value<M::Pointer>>
    ensures { result ≡ converted_at M.model memory.now frame.now op from a.now to }
{
    let n = integer_of(memory, frame, from, a)?;
    if is_cast(op, from, to) {
        Some(Value::Int(to, cast(op, from, to, n)))
    } else {
        None
    }
}

fn part_of<P: Copy>(value: Value<P>, part: u8) -> Option<Value<P>>
    ensures { result ≡ part_of value part }
{
    match value {
        Value::Pair(p, holds) => match part {
            0 => Some(Value::Ptr(p)),
            1 => Some(truth_value(holds)),
            _ => None,
        },
        _ => None,
    }
}

/// A part of what a checked load gave.
pub fn extracted_at<P: Copy>(frame: &Frame<P>, pair: &[u8], part: u8) -> Option<Value<P>>
    ensures { result ≡ extracted_at frame.now pair.now part }
{
    part_of(get(&frame.registers, pair)?, part)
}

/// The number of a pointer.
pub fn number_at<M: Memory>(
    memory: &M,
    frame: &Frame<M::Pointer>,
    ptr: &Operand,
) -> Option<Value<M::Pointer>>
    ensures { result ≡ number_at M.model memory.now frame.now ptr.now }
{
    let p = pointer_of(memory, frame, ptr)?;
    let n = memory.number(p)?;
    Some(Value::Int(Width::W64, n))
}

/// What a rotation to the right gives.
pub fn rotated_at<M: Memory>(
    memory: &M,
    frame: &Frame<M::Pointer>,
    value: &Operand,
    by: u8,
) -> Option<Value<M::Pointer>>
    ensures { result ≡ rotated_at M.model memory.now frame.now value.now by }
{
    let n = integer_of(memory, frame, Width::W64, value)?;
    Some(Value::Int(Width::W64, n.rotate_right(by as u32)))
}

/// What a type test gives.
pub fn tested_at<M: Memory>(
    memory: &M,
    frame: &Frame<M::Pointer>,
    ptr: &Operand,
    id: &TypeId,
) -> Option<Value<M::Pointer>>
    ensures { result ≡ tested_at M.model memory.now frame.now ptr.now id.now }
{
    let p = pointer_of(memory, frame, ptr)?;
    let holds = memory.test(id, p)?;
    Some(truth_value(holds))
}

/// What a load gives.
pub fn loaded_at<M: Memory>(
    memory: &M,
    frame: &Frame<M::Pointer>,
    ty: &Ty,
    addr: &Operand,
) -> Option<Value<M::Pointer>>
    ensures { result ≡ loaded_at M.model memory.now frame.now ty.now addr.now }
{
    let p = pointer_of(memory, frame, addr)?;
    memory.load(ty, p)
}

fn loaded_if<M: Memory>(memory: &M, holds: bool, p: M::Pointer) -> Option<Value<M::Pointer>>
    ensures { result ≡ loaded_if M.model memory.now holds p }
{
    if holds {
        let loaded = pointer(memory.load(&Ty::Ptr, p)?)?;
        Some(Value::Pair(loaded, true))
    } else {
        Some(Value::Pair(memory.null(), false))
    }
}

/// What a checked load gives.
pub fn checked_at<M: Memory>(
    memory: &M,
    frame: &Frame<M::Pointer>,
    ptr: &Operand,
    offset: i32,
    id: &TypeId,
) -> Option<Value<M::Pointer>>
    ensures { result ≡ checked_at M.model memory.now frame.now ptr.now offset id.now }
{
    let p = pointer_of(memory, frame, ptr)?;
    let holds = memory.test(id, p)?;
    let place = memory.moved(p, (offset as i64).cast_unsigned());
    loaded_if(memory, holds, place)
}
