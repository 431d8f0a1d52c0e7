ghost use Rattle.std.specs.Prelude.{◌≡◌, ◌+◌, ◌^◌, ◌<◌, IfOk, OnErr};
ghost use Rattle.ir_meaning.specs.Plain.{asking, passing, computing, plain};
ghost use Rattle.ir_meaning.specs.Acts.{Acts};

use crate::addresses::address_at;
use crate::branches::{assume, branch, enter, switch};
use crate::frames::give;
use crate::instructions::{
    binary_at, checked_at, compared_at, converted_at, extracted_at, loaded_at, number_at,
    rotated_at, selected_at, tested_at,
};
use crate::states::Frame;
use ir_memories::{Memory, NoMemory};
use ir_values::{Inst, Module};
use std::alloc::Global;

/// Takes an instruction that asks the memory.
fn ask<M: Memory>(
    alloc: Global,
    memory: &M,
    frame: &mut Frame<M::Pointer>,
    inst: &Inst,
) -> Result<bool, NoMemory>
    requires { frame.old.place + 1 < 2 ^ 64 }
    ensures state { IfOk result (λ done. Acts done (asking M.model memory.now frame.old inst.now) frame.old frame.new) }
    ensures same { OnErr result (frame.new ≡ frame.old) }
{
    match inst {
        Inst::Load { dst, ty, addr } => {
            let value = loaded_at(memory, frame, ty, addr);
            give(alloc, frame, dst, value)
        }
        Inst::Test { dst, ptr, id } => {
            let value = tested_at(memory, frame, ptr, id);
            give(alloc, frame, dst, value)
        }
        Inst::CheckedLoad {
            dst,
            ptr,
            offset,
            id,
        } => {
            let value = checked_at(memory, frame, ptr, *offset, id);
            give(alloc, frame, dst, value)
        }
        Inst::Number { dst, ptr } => {
            let value = number_at(memory, frame, ptr);
            give(alloc, frame, dst, value)
        }
        _ => Ok(false),
    }
}

/// Takes an instruction that hands a value on.
fn pass<M: Memory>(
    alloc: Global,
    memory: &M,
    frame: &mut Frame<M::Pointer>,
    inst: &Inst,
) -> Result<bool, NoMemory>
    requires { frame.old.place + 1 < 2 ^ 64 }
    ensures state { IfOk result (λ done. Acts done (passing M.model memory.now frame.old inst.now) frame.old frame.new) }
    ensures same { OnErr result (frame.new ≡ frame.old) }
{
    match inst {
        Inst::Select {
            dst,
            cond,
            ty: _,
            a,
            b,
        } => {
            let value = selected_at(memory, frame, cond, a, b);
            give(alloc, frame, dst, value)
        }
        Inst::Gep {
            dst,
            ty,
            base,
            index,
        } => {
            let value = address_at(memory, frame, ty, base, index.items());
            give(alloc, frame, dst, value)
        }
        Inst::Extract { dst, pair, part } => {
            let value = extracted_at(frame, pair.bytes(), *part);
            give(alloc, frame, dst, value)
        }
        _ => ask(alloc, memory, frame, inst),
    }
}

/// Takes an instruction that computes a number.
fn compute<M: Memory>(
    alloc: Global,
    memory: &M,
    frame: &mut Frame<M::Pointer>,
    inst: &Inst,
) -> Result<bool, NoMemory>
    requires { frame.old.place + 1 < 2 ^ 64 }
    ensures state { IfOk result (λ done. Acts done (computing M.model memory.now frame.old inst.now) frame.old frame.new) }
    ensures same { OnErr result (frame.new ≡ frame.old) }
{
    match inst {
        Inst::Binary {
            dst,
            op,
            width,
            a,
            b,
        } => {
            let value = binary_at(memory, frame, *op, *width, a, b);
            give(alloc, frame, dst, value)
        }
        Inst::Compare {
            dst,
            pred,
            ty,
            a,
            b,
        } => {
            let value = compared_at(memory, frame, *pred, ty, a, b);
            give(alloc, frame, dst, value)
        }
        Inst::Cast {
            dst,
            op,
            from,
            a,
            to,
        } => {
            let value = converted_at(memory, frame, *op, *from, a, *to);
            give(alloc, frame, dst, value)
        }
        Inst::Rotate { dst, value, by } => {
            let value = rotated_at(memory, frame, value, *by);
            give(alloc, frame, dst, value)
        }
        _ => pass(alloc, memory, frame, inst),
    }
}

/// Takes an instruction that stays in its frame.
pub fn plain<M: Memory>(
    alloc: Global,
    modules: &[Module],
    memory: &M,
    frame: &mut Frame<M::Pointer>,
    inst: &Inst,
) -> Result<bool, NoMemory>
    requires { frame.old.place + 1 < 2 ^ 64 }
    ensures state { IfOk result (λ done. Acts done (plain M.model modules.now memory.now frame.old inst.now) frame.old frame.new) }
    ensures same { OnErr result (frame.new ≡ frame.old) }
{
    match inst {
        Inst::Br { to } => enter(alloc, modules, memory, frame, to),
        Inst::CondBr {
            cond,
            yes: on,
            no: off,
        } => { branch(alloc, modules, memory, frame, cond, on, off) }
        Inst::Switch {
            width,
            value,
            other,
            cases,
        } => {
            switch(
                alloc,
                modules,
                memory,
                frame,
                *width,
                value,
                other,
                cases.items(),
            )
        }
        Inst::Assume { cond } => Ok(assume(memory, frame, cond)),
        _ => compute(alloc, memory, frame, inst),
    }
}
