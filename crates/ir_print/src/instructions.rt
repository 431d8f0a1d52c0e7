// Instructions. A function for each prints it piece by piece.
ghost use Rattle.std.specs.Prelude.{◌++◌, codes};
ghost use Rattle.ir_values.specs.declared.instructions.Inst.{Inst};
ghost use Rattle.ir_values.specs.declared.types.Width.{Width};
ghost use Rattle.ir_print.specs.Constants.{typed_text};
ghost use Rattle.ir_print.specs.Instructions as Spec;
ghost use Rattle.ir_names.specs.Numbers.{integer_text};
ghost use Rattle.ir_names.specs.Puts.{Puts};

use crate::constants::{put_operand, put_typed};
use crate::lists::{put_args, put_arms, put_cases, put_indices};
use crate::parts::{put_callee, put_cast, put_id, put_op, put_pred, put_sets, put_to};
use crate::types::{put_pair, put_ty, put_width};
use ir_names::{Printer, put_decimal, put_integer, put_local, put_signed_decimal};
use ir_values::{BinOp, Callee, CastOp, FuncTy, Inst, Operand, Pred, Ty, TypeId, Width};
use ltt_base::Text;

/// Prints an instruction, without the spaces before it and the end of its line.
pub fn put_inst<P: Printer>(line: &mut P, inst: &Inst)
    ensures { Puts (P.state line.old) (P.state line.new) (Spec.inst_text inst.now) }
{
    match inst {
        Inst::Binary {
            dst,
            op,
            width,
            a,
            b,
        } => put_binary(line, dst.bytes(), *op, *width, a, b),
        Inst::Compare {
            dst,
            pred,
            ty,
            a,
            b,
        } => put_compare(line, dst.bytes(), *pred, ty, a, b),
        Inst::Select {
            dst,
            cond,
            ty,
            a,
            b,
        } => put_select(line, dst.bytes(), cond, ty, a, b),
        Inst::Cast {
            dst,
            op,
            from,
            a,
            to,
        } => put_conversion(line, dst.bytes(), *op, *from, a, *to),
        Inst::Gep {
            dst,
            ty,
            base,
            index,
        } => put_gep(line, dst.bytes(), ty, base, index.items()),
        Inst::Load { dst, ty, addr } => put_load(line, dst.bytes(), ty, addr),
        Inst::Store { ty, value, addr } => put_store(line, ty, value, addr),
        Inst::Call {
            dst,
            fty,
            callee,
            args,
        } => put_call(line, dst, fty, callee, args.items()),
        Inst::Extract { dst, pair, part } => put_extract(line, dst.bytes(), pair.bytes(), *part),
        Inst::Phi { dst, ty, arms } => put_phi(line, dst.bytes(), ty, arms.items()),
        Inst::Test { dst, ptr, id } => put_test(line, dst.bytes(), ptr, id),
        Inst::PublicTest { dst, ptr, id } => put_public_test(line, dst.bytes(), ptr, id),
        Inst::Assume { cond } => put_assume(line, cond),
        Inst::CheckedLoad {
            dst,
            ptr,
            offset,
            id,
        } => put_checked_load(line, dst.bytes(), ptr, *offset, id),
        Inst::Number { dst, ptr } => put_number(line, dst.bytes(), ptr),
        Inst::Rotate { dst, value, by } => put_rotate(line, dst.bytes(), value, *by),
        Inst::Br { to } => put_br(line, to.bytes()),
        Inst::CondBr { cond, yes, no } => put_cond_br(line, cond, yes.bytes(), no.bytes()),
        Inst::Switch {
            width,
            value,
            other,
            cases,
        } => put_switch(line, *width, value, other.bytes(), cases.items()),
        Inst::Ret { ty, value } => put_ret(line, ty, value),
        Inst::Unreachable => put_unreachable(line),
        Inst::Trap { code } => put_trap(line, *code),
    }
}

#[tactic(auto, unfolding(crate::specs::Instructions::inst_pieces))]
fn put_binary<P: Printer>(
    line: &mut P,
    dst: &[u8],
    op: BinOp,
    width: Width,
    a: &Operand,
    b: &Operand,
)
    ensures { Puts (P.state line.old) (P.state line.new) (Spec.inst_text (Inst.Binary dst.now op width a.now b.now)) }
{
    put_local(line, dst);
    line.put(b" = ");
    put_op(line, op);
    line.put(b" ");
    put_typed(line, a, &Ty::Int(width));
    line.put(b", ");
    put_operand(line, b, &Ty::Int(width))
}

#[tactic(auto, unfolding(crate::specs::Instructions::inst_pieces))]
fn put_compare<P: Printer>(line: &mut P, dst: &[u8], pred: Pred, ty: &Ty, a: &Operand, b: &Operand)
    ensures { Puts (P.state line.old) (P.state line.new) (Spec.inst_text (Inst.Compare dst.now pred ty.now a.now b.now)) }
{
    put_local(line, dst);
    line.put(b" = icmp ");
    put_pred(line, pred);
    line.put(b" ");
    put_typed(line, a, ty);
    line.put(b", ");
    put_operand(line, b, ty)
}

#[tactic(auto, unfolding(crate::specs::Instructions::inst_pieces))]
fn put_select<P: Printer>(
    line: &mut P,
    dst: &[u8],
    cond: &Operand,
    ty: &Ty,
    a: &Operand,
    b: &Operand,
)
    ensures { Puts (P.state line.old) (P.state line.new) (Spec.inst_text (Inst.Select dst.now cond.now ty.now a.now b.now)) }
{
    put_local(line, dst);
    line.put(b" = select ");
    put_typed(line, cond, &Ty::Int(Width::W1));
    line.put(b", ");
    put_typed(line, a, ty);
    line.put(b", ");
    put_typed(line, b, ty)
}

#[tactic(auto, unfolding(crate::specs::Instructions::inst_pieces))]
fn put_conversion<P: Printer>(
    line: &mut P,
    dst: &[u8],
    op: CastOp,
    from: Width,
    a: &Operand,
    to: Width,
)
    ensures { Puts (P.state line.old) (P.state line.new) (Spec.inst_text (Inst.Cast dst.now op from a.now to)) }
{
    put_local(line, dst);
    line.put(b" = ");
    put_cast(line, op);
    line.put(b" ");
    put_typed(line, a, &Ty::Int(from));
    line.put(b" to ");
    put_width(line, to)
}

#[tactic(auto, unfolding(crate::specs::Instructions::inst_pieces))]
fn put_gep<P: Printer>(
    line: &mut P,
    dst: &[u8],
    ty: &Ty,
    base: &Operand,
    index: &[(Width, Operand)],
)
    ensures { Puts (P.state line.old) (P.state line.new) (Spec.inst_text (Inst.Gep dst.now ty.now base.now index.now)) }
{
    put_local(line, dst);
    line.put(b" = getelementptr ");
    put_ty(line, ty);
    line.put(b", ");
    put_typed(line, base, &Ty::Ptr);
    put_indices(line, index)
}

#[tactic(auto, unfolding(crate::specs::Instructions::inst_pieces))]
fn put_load<P: Printer>(line: &mut P, dst: &[u8], ty: &Ty, addr: &Operand)
    ensures { Puts (P.state line.old) (P.state line.new) (Spec.inst_text (Inst.Load dst.now ty.now addr.now)) }
{
    put_local(line, dst);
    line.put(b" = load ");
    put_ty(line, ty);
    line.put(b", ");
    put_typed(line, addr, &Ty::Ptr);
    line.put(b", align 1")
}

#[tactic(auto, unfolding(crate::specs::Instructions::inst_pieces))]
fn put_store<P: Printer>(line: &mut P, ty: &Ty, value: &Operand, addr: &Operand)
    ensures { Puts (P.state line.old) (P.state line.new) (Spec.inst_text (Inst.Store ty.now value.now addr.now)) }
{
    line.put(b"store ");
    put_typed(line, value, ty);
    line.put(b", ");
    put_typed(line, addr, &Ty::Ptr);
    line.put(b", align 1")
}

#[tactic(auto, unfolding(crate::specs::Instructions::inst_pieces))]
fn put_call<P: Printer>(
    line: &mut P,
    dst: &Option<Text>,
    fty: &FuncTy,
    callee: &Callee,
    args: &[Operand],
)
    ensures { Puts (P.state line.old) (P.state line.new) (Spec.inst_text (Inst.Call dst.now fty.now callee.now args.now)) }
{
    put_sets(line, dst);
    line.put(b"call ");
    put_ty(line, &fty.result);
    line.put(b" ");
    put_callee(line, callee);
    line.put(b"(");
    put_args(line, fty.params.items(), args);
    line.put(b")")
}

#[tactic(auto, unfolding(crate::specs::Instructions::inst_pieces))]
fn put_extract<P: Printer>(line: &mut P, dst: &[u8], pair: &[u8], part: u8)
    ensures { Puts (P.state line.old) (P.state line.new) (Spec.inst_text (Inst.Extract dst.now pair.now part)) }
{
    put_local(line, dst);
    line.put(b" = extractvalue ");
    put_pair(line);
    line.put(b" ");
    put_local(line, pair);
    line.put(b", ");
    put_decimal(line, u64::from(part))
}

#[tactic(auto, unfolding(crate::specs::Instructions::inst_pieces))]
fn put_phi<P: Printer>(line: &mut P, dst: &[u8], ty: &Ty, arms: &[(Operand, Text)])
    ensures { Puts (P.state line.old) (P.state line.new) (Spec.inst_text (Inst.Phi dst.now ty.now arms.now)) }
{
    put_local(line, dst);
    line.put(b" = phi ");
    put_ty(line, ty);
    line.put(b" ");
    put_arms(line, arms, ty)
}

#[tactic(auto, unfolding(crate::specs::Instructions::inst_pieces))]
fn put_br<P: Printer>(line: &mut P, to: &[u8])
    ensures { Puts (P.state line.old) (P.state line.new) (Spec.inst_text (Inst.Br to.now)) }
{
    line.put(b"br ");
    put_to(line, to)
}

#[tactic(auto, unfolding(crate::specs::Instructions::inst_pieces))]
fn put_cond_br<P: Printer>(line: &mut P, cond: &Operand, met: &[u8], unmet: &[u8])
    ensures { Puts (P.state line.old) (P.state line.new) (Spec.inst_text (Inst.CondBr cond.now met.now unmet.now)) }
{
    line.put(b"br ");
    put_typed(line, cond, &Ty::Int(Width::W1));
    line.put(b", ");
    put_to(line, met);
    line.put(b", ");
    put_to(line, unmet)
}

#[tactic(auto, unfolding(crate::specs::Instructions::inst_pieces))]
fn put_switch<P: Printer>(
    line: &mut P,
    width: Width,
    value: &Operand,
    other: &[u8],
    cases: &[(u64, Text)],
)
    ensures { Puts (P.state line.old) (P.state line.new) (Spec.inst_text (Inst.Switch width value.now other.now cases.now)) }
{
    line.put(b"switch ");
    put_typed(line, value, &Ty::Int(width));
    line.put(b", ");
    put_to(line, other);
    line.put(b" [");
    put_cases(line, cases, width);
    line.put(b"]")
}

#[tactic(auto, unfolding(crate::specs::Instructions::inst_pieces))]
fn put_ret<P: Printer>(line: &mut P, ty: &Ty, value: &Option<Operand>)
    ensures { Puts (P.state line.old) (P.state line.new) (Spec.inst_text (Inst.Ret ty.now value.now)) }
{
    match value {
        None => line.put(b"ret void"),
        Some(value) => put_ret_value(line, ty, value),
    }
}

fn put_ret_value<P: Printer>(line: &mut P, ty: &Ty, value: &Operand)
    ensures { Puts (P.state line.old) (P.state line.new) (codes "ret " ++ typed_text ty.now value.now) }
{
    line.put(b"ret ");
    put_typed(line, value, ty)
}

#[tactic(auto, unfolding(crate::specs::Instructions::inst_pieces))]
fn put_unreachable<P: Printer>(line: &mut P)
    ensures { Puts (P.state line.old) (P.state line.new) (Spec.inst_text Inst.Unreachable) }
{
    line.put(b"unreachable")
}

#[tactic(auto, unfolding(crate::specs::Instructions::inst_pieces))]
fn put_trap<P: Printer>(line: &mut P, code: Option<u8>)
    ensures { Puts (P.state line.old) (P.state line.new) (Spec.inst_text (Inst.Trap code)) }
{
    match code {
        None => line.put(b"call void @llvm.trap()"),
        Some(code) => put_coded_trap(line, code),
    }
}

fn put_coded_trap<P: Printer>(line: &mut P, code: u8)
    ensures { Puts (P.state line.old) (P.state line.new) (codes "call void @llvm.ubsantrap(i8 " ++ integer_text Width.W8 code ++ codes ")") }
{
    line.put(b"call void @llvm.ubsantrap(i8 ");
    put_integer(line, Width::W8, u64::from(code));
    line.put(b")")
}

#[tactic(auto, unfolding(crate::specs::Instructions::inst_pieces))]
fn put_test<P: Printer>(line: &mut P, dst: &[u8], ptr: &Operand, id: &TypeId)
    ensures { Puts (P.state line.old) (P.state line.new) (Spec.inst_text (Inst.Test dst.now ptr.now id.now)) }
{
    put_local(line, dst);
    line.put(b" = call i1 @llvm.type.test(");
    put_typed(line, ptr, &Ty::Ptr);
    line.put(b", metadata ");
    put_id(line, id);
    line.put(b")")
}

#[tactic(auto, unfolding(crate::specs::Instructions::inst_pieces))]
fn put_public_test<P: Printer>(line: &mut P, dst: &[u8], ptr: &Operand, id: &TypeId)
    ensures { Puts (P.state line.old) (P.state line.new) (Spec.inst_text (Inst.PublicTest dst.now ptr.now id.now)) }
{
    put_local(line, dst);
    line.put(b" = call i1 @llvm.public.type.test(");
    put_typed(line, ptr, &Ty::Ptr);
    line.put(b", metadata ");
    put_id(line, id);
    line.put(b")")
}

#[tactic(auto, unfolding(crate::specs::Instructions::inst_pieces))]
fn put_assume<P: Printer>(line: &mut P, cond: &Operand)
    ensures { Puts (P.state line.old) (P.state line.new) (Spec.inst_text (Inst.Assume cond.now)) }
{
    line.put(b"call void @llvm.assume(");
    put_typed(line, cond, &Ty::Int(Width::W1));
    line.put(b")")
}

#[tactic(auto, unfolding(crate::specs::Instructions::inst_pieces))]
fn put_checked_load<P: Printer>(line: &mut P, dst: &[u8], ptr: &Operand, offset: i32, id: &TypeId)
    ensures { Puts (P.state line.old) (P.state line.new) (Spec.inst_text (Inst.CheckedLoad dst.now ptr.now offset id.now)) }
{
    put_local(line, dst);
    line.put(b" = call ");
    put_pair(line);
    line.put(b" @llvm.type.checked.load(");
    put_typed(line, ptr, &Ty::Ptr);
    line.put(b", i32 ");
    put_signed_decimal(line, offset);
    line.put(b", metadata ");
    put_id(line, id);
    line.put(b")")
}

#[tactic(auto, unfolding(crate::specs::Instructions::inst_pieces))]
fn put_number<P: Printer>(line: &mut P, dst: &[u8], ptr: &Operand)
    ensures { Puts (P.state line.old) (P.state line.new) (Spec.inst_text (Inst.Number dst.now ptr.now)) }
{
    put_local(line, dst);
    line.put(b" = ptrtoint ");
    put_typed(line, ptr, &Ty::Ptr);
    line.put(b" to i64")
}

#[tactic(auto, unfolding(crate::specs::Instructions::inst_pieces))]
fn put_rotate<P: Printer>(line: &mut P, dst: &[u8], value: &Operand, by: u8)
    ensures { Puts (P.state line.old) (P.state line.new) (Spec.inst_text (Inst.Rotate dst.now value.now by)) }
{
    put_local(line, dst);
    line.put(b" = call i64 @llvm.fshr.i64(");
    put_typed(line, value, &Ty::Int(Width::W64));
    line.put(b", ");
    put_typed(line, value, &Ty::Int(Width::W64));
    line.put(b", i64 ");
    put_decimal(line, u64::from(by));
    line.put(b")")
}
