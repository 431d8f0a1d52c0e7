// The parts of instructions.
ghost use Rattle.std.specs.Prelude.{codes, ◌++◌, decimal};
ghost use Rattle.ir_print.specs.Instructions as Spec;
ghost use Rattle.ir_names.specs.Names.{quoted, local_text};
ghost use Rattle.ir_names.specs.Puts.{Puts};

use crate::constants::put_operand;
use ir_names::{Printer, put_decimal, put_global, put_local, put_quoted};
use ir_values::{BinOp, Callee, CastOp, Pred, Ty, TypeId};
use ltt_base::Text;

/// Prints the word of an operation.
pub fn put_op<P: Printer>(line: &mut P, op: BinOp)
    ensures { Puts (P.state line.old) (P.state line.new) (Spec.op_text op) }
{
    match op {
        BinOp::Add => line.put(b"add"),
        BinOp::Sub => line.put(b"sub"),
        BinOp::Mul => line.put(b"mul"),
        BinOp::UDiv => line.put(b"udiv"),
        BinOp::SDiv => line.put(b"sdiv"),
        BinOp::URem => line.put(b"urem"),
        BinOp::SRem => line.put(b"srem"),
        BinOp::Shl => line.put(b"shl"),
        BinOp::LShr => line.put(b"lshr"),
        BinOp::AShr => line.put(b"ashr"),
        BinOp::And => line.put(b"and"),
        BinOp::Or => line.put(b"or"),
        BinOp::Xor => line.put(b"xor"),
    }
}

/// Prints the word of a comparison.
pub fn put_pred<P: Printer>(line: &mut P, pred: Pred)
    ensures { Puts (P.state line.old) (P.state line.new) (Spec.pred_text pred) }
{
    match pred {
        Pred::Eq => line.put(b"eq"),
        Pred::Ne => line.put(b"ne"),
        Pred::Ugt => line.put(b"ugt"),
        Pred::Uge => line.put(b"uge"),
        Pred::Ult => line.put(b"ult"),
        Pred::Ule => line.put(b"ule"),
        Pred::Sgt => line.put(b"sgt"),
        Pred::Sge => line.put(b"sge"),
        Pred::Slt => line.put(b"slt"),
        Pred::Sle => line.put(b"sle"),
    }
}

/// Prints the word of a change of width.
pub fn put_cast<P: Printer>(line: &mut P, op: CastOp)
    ensures { Puts (P.state line.old) (P.state line.new) (Spec.cast_text op) }
{
    match op {
        CastOp::Zext => line.put(b"zext"),
        CastOp::Sext => line.put(b"sext"),
        CastOp::Trunc => line.put(b"trunc"),
    }
}

/// Prints the register that a call sets, if it sets one.
pub fn put_sets<P: Printer>(line: &mut P, dst: &Option<Text>)
    ensures { Puts (P.state line.old) (P.state line.new) (Spec.sets dst.now) }
{
    match dst {
        None => line.put(b""),
        Some(dst) => put_set(line, dst.bytes()),
    }
}

fn put_set<P: Printer>(line: &mut P, dst: &[u8])
    ensures { Puts (P.state line.old) (P.state line.new) (local_text dst.now ++ codes " = ") }
{
    put_local(line, dst);
    line.put(b" = ")
}

/// Prints a block that a branch names.
pub fn put_to<P: Printer>(line: &mut P, label: &[u8])
    ensures { Puts (P.state line.old) (P.state line.new) (Spec.to_text label.now) }
{
    line.put(b"label ");
    put_local(line, label)
}

/// Prints a type identifier.
pub fn put_id<P: Printer>(line: &mut P, id: &TypeId)
    ensures { Puts (P.state line.old) (P.state line.new) (Spec.id_text id.now) }
{
    match id {
        TypeId::Name(name) => put_id_name(line, name.bytes()),
        TypeId::Node(_, node) => put_id_node(line, u64::from(*node)),
    }
}

fn put_id_name<P: Printer>(line: &mut P, name: &[u8])
    ensures { Puts (P.state line.old) (P.state line.new) (codes "!" ++ quoted name.now) }
{
    line.put(b"!");
    put_quoted(line, name)
}

fn put_id_node<P: Printer>(line: &mut P, node: u64)
    ensures { Puts (P.state line.old) (P.state line.new) (codes "!" ++ decimal node) }
{
    line.put(b"!");
    put_decimal(line, node)
}

/// Prints what a call calls.
pub fn put_callee<P: Printer>(line: &mut P, callee: &Callee)
    ensures { Puts (P.state line.old) (P.state line.new) (Spec.callee_text callee.now) }
{
    match callee {
        Callee::Function(name) => put_global(line, name.bytes()),
        Callee::Value(value) => put_operand(line, value, &Ty::Ptr),
    }
}
