ghost use Rattle.std.specs.Prelude.{◌≡◌, ◌%◌, ◌^◌, ◌<◌, IfSome};
ghost use Rattle.ir_numbers.specs.Numbers.{bits};
ghost use Rattle.ir_meaning.specs.Operands.{truth_value, constant_value, value_of, integer, pointer, integer_of, pointer_of, truth_of};
ghost use Rattle.ir_values.specs.declared.constants.Const.{out-Const};

use crate::registers::get;
use crate::states::Frame;
use ir_memories::{Memory, Value};
use ir_numbers::bits;
use ir_values::{Const, Operand, Width};

/// A truth value as a value of one bit.
pub fn truth_value<P: Copy>(holds: bool) -> Value<P>
    ensures { result ≡ truth_value holds }
{
    Value::Int(Width::W1, if holds { 1 } else { 0 })
}

/// The lowest bits of a number.
pub fn low_bits(width: Width, n: u64) -> u64
    ensures value { result ≡ n % 2 ^ bits width }
    ensures range { result < 2 ^ bits width }
{
    n & (u64::MAX >> (64 - bits(width)))
}

/// The value of a constant, in a module of the file.
fn constant_value<M: Memory>(memory: &M, file: u32, constant: &Const) -> Option<Value<M::Pointer>>
    ensures { result ≡ constant_value M.model memory.now file (out-Const constant.now) }
{
    match constant {
        Const::Int(width, n) => Some(Value::Int(*width, low_bits(*width, *n))),
        Const::Null => Some(Value::Ptr(memory.null())),
        Const::Addr(name, offset) => {
            Some(Value::Ptr(memory.address(file, name.bytes(), *offset)))
        }
        Const::Number(name, offset) => {
            let address = memory.address(file, name.bytes(), *offset);
            Some(Value::Int(Width::W64, memory.number(address)?))
        }
        _ => None,
    }
}

/// What an operand holds.
pub fn value_of<M: Memory>(
    memory: &M,
    frame: &Frame<M::Pointer>,
    operand: &Operand,
) -> Option<Value<M::Pointer>>
    ensures { result ≡ value_of M.model memory.now frame.now operand.now }
{
    match operand {
        Operand::Reg(name) => get(&frame.registers, name.bytes()),
        Operand::Const(constant) => constant_value(memory, frame.file, constant),
    }
}

/// The number of an integer of a width.
fn integer<P: Copy>(width: Width, value: Value<P>) -> Option<u64>
    ensures value { result ≡ integer width value }
    ensures range { IfSome result (λ n. n < 2 ^ bits width) }
{
    match value {
        Value::Int(other, n) => {
            if bits(width) == bits(other) {
                Some(low_bits(width, n))
            } else {
                None
            }
        }
        _ => None,
    }
}

pub fn pointer<P: Copy>(value: Value<P>) -> Option<P>
    ensures { result ≡ pointer value }
{
    match value {
        Value::Ptr(p) => Some(p),
        _ => None,
    }
}

/// The number that an operand of an integer type holds.
pub fn integer_of<M: Memory>(
    memory: &M,
    frame: &Frame<M::Pointer>,
    width: Width,
    operand: &Operand,
) -> Option<u64>
    ensures value { result ≡ integer_of M.model memory.now frame.now width operand.now }
    ensures range { IfSome result (λ n. n < 2 ^ bits width) }
{
    integer(width, value_of(memory, frame, operand)?)
}

/// The pointer that an operand holds.
pub fn pointer_of<M: Memory>(
    memory: &M,
    frame: &Frame<M::Pointer>,
    operand: &Operand,
) -> Option<M::Pointer>
    ensures { result ≡ pointer_of M.model memory.now frame.now operand.now }
{
    pointer(value_of(memory, frame, operand)?)
}

/// The truth value that an operand holds.
pub fn truth_of<M: Memory>(memory: &M, frame: &Frame<M::Pointer>, operand: &Operand) -> Option<bool>
    ensures { result ≡ truth_of M.model memory.now frame.now operand.now }
{
    let n = integer_of(memory, frame, Width::W1, operand)?;
    Some(n == 1)
}
