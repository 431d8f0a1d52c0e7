// Widths and numbers as instructions keep them.
ghost use Rattle.std.specs.Prelude.{◌≡◌};
ghost use Rattle.ir_values.specs.declared.constants.Const.{out-Const};
ghost use Rattle.built_instructions.specs.Values as spec;

use check_types::{Types, head};
use ir_values::{Const, Operand, Ty, Width};
use kept_parts::width_of;

fn width_or(width: Option<Width>) -> Width
    ensures { result ≡ spec.width_or width }
{
    match width {
        Some(width) => width,
        None => Width::W64,
    }
}

/// The width of the integers that a written type stands for.
pub(crate) fn width_at<'a>(types: &Types<'a>, ty: &'a Ty) -> Width
    ensures { result ≡ spec.width_at types.now.units ty.now }
{
    width_or(width_of(head(types, ty)))
}

pub(crate) fn number_or(n: Option<u64>) -> u64
    ensures { result ≡ spec.number_or n }
{
    match n {
        Some(n) => n,
        None => 0,
    }
}

fn layer_number(constant: &Const) -> u64
    ensures { result ≡ spec.layer_number (out-Const constant.now) }
{
    match constant {
        Const::Int(_, n) => *n,
        _ => 0,
    }
}

/// The number that a kept operand is.
pub(crate) fn number_in(value: &Operand) -> u64
    ensures { result ≡ spec.number_in value.now }
{
    match value {
        Operand::Reg(_) => 0,
        Operand::Const(constant) => layer_number(constant),
    }
}

/// The lowest 8 bits of a number.
pub(crate) fn byte_of(n: u64) -> u8
    ensures { result ≡ spec.byte_of n }
{
    (n % 256) as u8
}

/// The lowest 32 bits of a number, in two's complement.
pub(crate) fn offset_of(n: u64) -> i32
    ensures { result ≡ spec.offset_of n }
{
    let low = n % 0x1_0000_0000;
    if low < 0x8000_0000 {
        low as i32
    } else {
        -1 - (0xFFFF_FFFF - low) as i32
    }
}
