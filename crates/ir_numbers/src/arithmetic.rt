ghost use Rattle.std.specs.Prelude.{◌≡◌, ◌^◌, ◌<◌, IfSome};
ghost use Rattle.ir_numbers.specs.Numbers.{bits};
ghost use Rattle.ir_values.specs.declared.instructions.BinOp.{BinOp};
ghost use Rattle.ir_numbers.specs.Arithmetic.{arith, can_divide, compared, converted, Casts};

use crate::numbers::{bits, fits, low_bits, signed, wrapped};
use ir_values::{BinOp, CastOp, Pred, Width};

/// What an operation gives on two integers of one width, as numbers from 0.
///
/// `None` exactly for a zero divisor, a signed division or remainder whose quotient is too large, which is
/// the least number by -1, and a shift by as many bits as the width has or more.
///
/// Source: LLVM Language Reference, "Binary Operations" and "Bitwise Binary Operations".
#[tactic(auto, using(crate::proofs::SignedLemmas::below))]
pub fn binary(op: BinOp, width: Width, a: u64, b: u64) -> Option<u64>
    requires a { a < 2 ^ bits width }
    requires b { b < 2 ^ bits width }
    ensures value { result ≡ arith op (bits width) a b }
    ensures range { IfSome result (λ n. n < 2 ^ bits width) }
{
    match op {
        BinOp::Add => Some(low_bits(width, a.wrapping_add(b))),
        BinOp::Sub => Some(low_bits(width, a.wrapping_sub(b))),
        BinOp::Mul => Some(low_bits(width, a.wrapping_mul(b))),
        BinOp::UDiv => a.checked_div(b),
        BinOp::SDiv => signed_quotient(width, a, b),
        BinOp::URem => a.checked_rem(b),
        BinOp::SRem => signed_remainder(width, a, b),
        BinOp::Shl => shifted_left(width, a, b),
        BinOp::LShr => shifted_right(width, a, b),
        BinOp::AShr => shifted_right_with_sign(width, a, b),
        BinOp::And => Some(a & b),
        BinOp::Or => Some(a | b),
        BinOp::Xor => Some(a ^ b),
    }
}

/// Whether the signed numbers can be divided.
fn can_divide(width: Width, a: u64, b: u64) -> bool
    requires a { a < 2 ^ bits width }
    requires b { b < 2 ^ bits width }
    ensures { result ≡ can_divide (bits width) a b }
{
    match signed(width, a).checked_div(signed(width, b)) {
        Some(quotient) => fits(width, quotient),
        None => false,
    }
}

#[tactic(auto, using(crate::proofs::SignedLemmas::division))]
fn signed_quotient(width: Width, a: u64, b: u64) -> Option<u64>
    requires a { a < 2 ^ bits width }
    requires b { b < 2 ^ bits width }
    ensures { result ≡ arith BinOp.SDiv (bits width) a b }
{
    if can_divide(width, a, b) {
        Some(wrapped(width, signed(width, a) / signed(width, b)))
    } else {
        None
    }
}

#[tactic(auto, using(crate::proofs::SignedLemmas::division))]
fn signed_remainder(width: Width, a: u64, b: u64) -> Option<u64>
    requires a { a < 2 ^ bits width }
    requires b { b < 2 ^ bits width }
    ensures { result ≡ arith BinOp.SRem (bits width) a b }
{
    if can_divide(width, a, b) {
        Some(wrapped(width, signed(width, a) % signed(width, b)))
    } else {
        None
    }
}

fn shifted_left(width: Width, a: u64, by: u64) -> Option<u64>
    ensures { result ≡ arith BinOp.Shl (bits width) a by }
{
    if by < bits(width) as u64 {
        Some(low_bits(width, a << by))
    } else {
        None
    }
}

fn shifted_right(width: Width, a: u64, by: u64) -> Option<u64>
    ensures { result ≡ arith BinOp.LShr (bits width) a by }
{
    if by < bits(width) as u64 {
        Some(a >> by)
    } else {
        None
    }
}

fn shifted_right_with_sign(width: Width, a: u64, by: u64) -> Option<u64>
    requires { a < 2 ^ bits width }
    ensures { result ≡ arith BinOp.AShr (bits width) a by }
{
    if by < bits(width) as u64 {
        Some(wrapped(width, signed(width, a) >> by))
    } else {
        None
    }
}

/// What a comparison of two integers of one width gives, as numbers from 0.
///
/// Source: LLVM Language Reference, "'icmp' Instruction".
pub fn compare(pred: Pred, width: Width, a: u64, b: u64) -> bool
    requires a { a < 2 ^ bits width }
    requires b { b < 2 ^ bits width }
    ensures { result ≡ compared pred (bits width) a b }
{
    match pred {
        Pred::Eq => a == b,
        Pred::Ne => a != b,
        Pred::Ugt => a > b,
        Pred::Uge => a >= b,
        Pred::Ult => a < b,
        Pred::Ule => a <= b,
        Pred::Sgt => signed(width, a) > signed(width, b),
        Pred::Sge => signed(width, a) >= signed(width, b),
        Pred::Slt => signed(width, a) < signed(width, b),
        Pred::Sle => signed(width, a) <= signed(width, b),
    }
}

/// An integer of one width as one of another: widened with zeros, widened with its sign, or narrowed.
///
/// Source: LLVM Language Reference, "Conversion Operations".
pub fn cast(op: CastOp, from: Width, to: Width, a: u64) -> u64
    requires a { a < 2 ^ bits from }
    requires widths { Casts op (bits from) (bits to) }
    ensures value { result ≡ converted op (bits from) (bits to) a }
    ensures range { result < 2 ^ bits to }
{
    match op {
        CastOp::Zext => a,
        CastOp::Sext => wrapped(to, signed(from, a)),
        CastOp::Trunc => low_bits(to, a),
    }
}
