// Integers.
ghost use Rattle.std.specs.Prelude.{◌≡◌, ◌*◌, ◌<◌, ◌++◌, codes, decimal};
ghost use Rattle.std.specs.Fmt.{signed_decimal};
ghost use Rattle.ir_names.specs.Numbers as spec;
ghost use Rattle.ir_names.specs.Puts.{Puts};

use crate::printer::Printer;
use ir_values::Width;
use itoa::Buffer;

/// Prints a number in decimal.
pub fn put_decimal<P: Printer>(line: &mut P, n: u64)
    ensures { Puts (P.state line.old) (P.state line.new) (decimal n) }
{
    line.put(Buffer::new().format(n).as_bytes())
}

/// Prints a signed number in decimal.
pub fn put_signed_decimal<P: Printer>(line: &mut P, n: i32)
    ensures { Puts (P.state line.old) (P.state line.new) (signed_decimal n) }
{
    line.put(Buffer::new().format(n).as_bytes())
}

/// Prints an integer in signed decimal; one of type i1 as `true` or `false`.
///
/// Source: LLVM Language Reference, "Simple Constants".
#[tactic(auto, unfolding(crate::specs::Numbers::integer_text))]
pub fn put_integer<P: Printer>(line: &mut P, width: Width, n: u64)
    ensures { Puts (P.state line.old) (P.state line.new) (spec.integer_text width n) }
{
    match width {
        Width::W1 => put_truth(line, n % 2),
        Width::W8 => put_signed(line, 0x80, n % 0x100),
        Width::W16 => put_signed(line, 0x8000, n % 0x1_0000),
        Width::W32 => put_signed(line, 0x8000_0000, n % 0x1_0000_0000),
        Width::W64 => put_signed(line, 0x8000_0000_0000_0000, n),
    }
}

fn put_truth<P: Printer>(line: &mut P, n: u64)
    ensures { Puts (P.state line.old) (P.state line.new) (spec.truth_text n) }
{
    if n == 0 {
        line.put(b"false")
    } else {
        line.put(b"true")
    }
}

fn put_signed<P: Printer>(line: &mut P, half: u64, n: u64)
    requires { n < 2 * half }
    ensures { Puts (P.state line.old) (P.state line.new) (spec.signed_text half n) }
{
    if n < half {
        put_decimal(line, n)
    } else {
        put_negative(line, half - (n - half))
    }
}

fn put_negative<P: Printer>(line: &mut P, magnitude: u64)
    ensures { Puts (P.state line.old) (P.state line.new) (codes "-" ++ decimal magnitude) }
{
    line.put(b"-");
    put_decimal(line, magnitude)
}
