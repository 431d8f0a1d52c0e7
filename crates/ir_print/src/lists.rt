// The lists in instructions.
ghost use Rattle.std.specs.Prelude.{◌++◌, map, flat_map, get_or};
ghost use Rattle.ir_values.specs.declared.types.Ty.{Ty};
ghost use Rattle.ir_print.specs.Constants.{typed_text};
ghost use Rattle.ir_print.specs.Instructions as Spec;
ghost use Rattle.ir_print.specs.Pieces.{commas, spaces};
ghost use Rattle.ir_names.specs.Puts.{Puts};

use crate::constants::{put_operand, put_typed};
use crate::parts::put_to;
use crate::types::{put_comma, put_space, put_width};
use ir_names::{Printer, put_integer, put_local};
use ir_values::{Operand, Ty, Width};
use ltt_base::Text;

/// Prints the arguments of a call.
pub fn put_args<P: Printer>(line: &mut P, types: &[Ty], args: &[Operand])
    ensures { Puts (P.state line.old) (P.state line.new) (commas (Spec.args_text types.now args.now)) }
{
    for (at, value) in args.iter().enumerate() {
        put_comma(line, at);
        put_arg(line, at, types, value);
    }
}

fn put_arg<P: Printer>(line: &mut P, at: usize, types: &[Ty], value: &Operand)
    ensures { Puts (P.state line.old) (P.state line.new) (typed_text (get_or types.now at Ty.Void) value.now) }
{
    match types.get(at) {
        Some(ty) => put_typed(line, value, ty),
        None => put_typed(line, value, &Ty::Void),
    }
}

/// Prints the indices of an address.
pub fn put_indices<P: Printer>(line: &mut P, indices: &[(Width, Operand)])
    ensures { Puts (P.state line.old) (P.state line.new) (flat_map Spec.index_text indices.now) }
{
    for index in indices {
        put_index(line, index);
    }
}

fn put_index<P: Printer>(line: &mut P, index: &(Width, Operand))
    ensures { Puts (P.state line.old) (P.state line.new) (Spec.index_text index.now) }
{
    line.put(b", ");
    put_typed(line, &index.1, &Ty::Int(index.0))
}

/// Prints the values of a phi.
pub fn put_arms<P: Printer>(line: &mut P, arms: &[(Operand, Text)], ty: &Ty)
    ensures { Puts (P.state line.old) (P.state line.new) (commas (map (Spec.arm_text ty.now) arms.now)) }
{
    for (at, arm) in arms.iter().enumerate() {
        put_comma(line, at);
        put_arm(line, arm, ty);
    }
}

fn put_arm<P: Printer>(line: &mut P, arm: &(Operand, Text), ty: &Ty)
    ensures { Puts (P.state line.old) (P.state line.new) (Spec.arm_text ty.now arm.now) }
{
    line.put(b"[");
    put_operand(line, &arm.0, ty);
    line.put(b", ");
    put_local(line, arm.1.bytes());
    line.put(b"]")
}

/// Prints the cases of a switch.
pub fn put_cases<P: Printer>(line: &mut P, cases: &[(u64, Text)], width: Width)
    ensures { Puts (P.state line.old) (P.state line.new) (spaces (map (Spec.case_text width) cases.now)) }
{
    for (at, choice) in cases.iter().enumerate() {
        put_space(line, at);
        put_case(line, choice, width);
    }
}

fn put_case<P: Printer>(line: &mut P, choice: &(u64, Text), width: Width)
    ensures { Puts (P.state line.old) (P.state line.new) (Spec.case_text width choice.now) }
{
    put_width(line, width);
    line.put(b" ");
    put_integer(line, width, choice.0);
    line.put(b", ");
    put_to(line, choice.1.bytes())
}
