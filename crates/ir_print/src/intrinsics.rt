// The intrinsics that an output may call.
ghost use Rattle.std.specs.Prelude.{◌≡◌, ◌++◌, true};
ghost use Rattle.std.specs.List.{list_any};
ghost use Rattle.ir_print.specs.ModuleText as Spec;
ghost use Rattle.ir_names.specs.Puts.{Puts};

use ir_names::Printer;
use ir_values::{Block, Func, Inst, Module};

/// An intrinsic that is declared where it is called: `llvm.fshr.i64`, `llvm.trap` or `llvm.ubsantrap`.
#[derive(Clone, Copy)]
pub enum Intrinsic {
    Rotation,
    Trap,
    CodedTrap,
}

/// Prints the declarations of the intrinsics that a module calls.
pub fn put_intrinsics<P: Printer>(line: &mut P, m: &Module)
    ensures { Puts (P.state line.old) (P.state line.new) (Spec.intrinsics_text m.now) }
{
    put_called(line, m, Intrinsic::Rotation);
    put_called(line, m, Intrinsic::Trap);
    put_called(line, m, Intrinsic::CodedTrap)
}

fn put_called<P: Printer>(line: &mut P, m: &Module, intrinsic: Intrinsic)
    ensures { Puts (P.state line.old) (P.state line.new) (Spec.called_text m.now intrinsic) }
{
    if is_called(intrinsic, m.funcs.items()) {
        put_intrinsic(line, intrinsic)
    } else {
        line.put(b"")
    }
}

#[tactic(auto, unfolding(crate::specs::ModuleText::intrinsic_text))]
fn put_intrinsic<P: Printer>(line: &mut P, intrinsic: Intrinsic)
    ensures { Puts (P.state line.old) (P.state line.new) (Spec.intrinsic_text intrinsic) }
{
    match intrinsic {
        Intrinsic::Rotation => line.put(b"declare i64 @llvm.fshr.i64(i64, i64, i64)\n"),
        Intrinsic::Trap => line.put(b"declare void @llvm.trap()\n"),
        Intrinsic::CodedTrap => line.put(b"declare void @llvm.ubsantrap(i8)\n"),
    }
}

fn is_called(intrinsic: Intrinsic, funcs: &[Func]) -> bool
    ensures { result ≡ Spec.is_called intrinsic funcs.now }
{
    funcs
        .iter()
        .any(|f| is_called_in(intrinsic, f.blocks.items()))
}

fn is_called_in(intrinsic: Intrinsic, blocks: &[Block]) -> bool
    ensures { result ≡ list_any (λ block. list_any (Spec.is_call intrinsic) block.insts) blocks.now }
{
    blocks
        .iter()
        .any(|block| is_called_by(intrinsic, block.insts.items()))
}

fn is_called_by(intrinsic: Intrinsic, insts: &[Inst]) -> bool
    ensures { result ≡ list_any (Spec.is_call intrinsic) insts.now }
{
    insts.iter().any(|inst| is_call(intrinsic, inst))
}

#[tactic(auto, unfolding(crate::specs::ModuleText::is_call))]
fn is_call(intrinsic: Intrinsic, inst: &Inst) -> bool
    ensures { result ≡ Spec.is_call intrinsic inst.now }
{
    match (intrinsic, inst) {
        (Intrinsic::Rotation, Inst::Rotate { .. }) => true,
        (Intrinsic::Trap, Inst::Trap { code: None }) => true,
        (Intrinsic::CodedTrap, Inst::Trap { code: Some(_) }) => true,
        _ => false,
    }
}
