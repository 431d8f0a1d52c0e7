ghost use Rattle.std.specs.Prelude.{◌≡◌, ◌+◌, ◌^◌, ◌<◌, IfOk, OnErr};
ghost use Rattle.std.specs.Option.{option_copied};
ghost use Rattle.std.specs.List.{position};
ghost use Rattle.ir_meaning.specs.Branches.{is_labelled, arm_of, case_of, begins_with_phi, phis, entered, branched_at, switched_at, assumed_at};
ghost use Rattle.ir_meaning.specs.Acts.{Acts};

use crate::operands::{integer_of, truth_of, value_of};
use crate::places::function_at;
use crate::registers::put;
use crate::states::{Frame, Register};
use ir_memories::{Memory, NoMemory};
use ir_values::{Block, Inst, Module, Operand, Width};
use ltt_base::{Copied, List, Text};
use std::alloc::Global;

/// The place of the block of a label.
fn block_at(blocks: &[Block], label: &[u8]) -> Option<usize>
    ensures { result ≡ position (is_labelled label.now) blocks.now }
{
    blocks.iter().position(|block| block.label.bytes() == label)
}

/// The operand of a phi for the block that control comes from.
fn arm_of<'a>(arms: &'a [(Operand, Text)], label: &[u8]) -> Option<&'a Operand>
    ensures { option_copied result ≡ arm_of arms.now label.now }
{
    for at in 0..arms.len() {
        let arm = &arms[at];
        if arm.1.bytes() == label {
            return Some(&arm.0);
        }
    }
    None
}

/// The label of the case that a number meets.
fn case_of<'a>(n: u64, other: &'a Text, cases: &'a [(u64, Text)]) -> &'a Text
    ensures { result.now ≡ case_of n other.now cases.now }
{
    for at in 0..cases.len() {
        let case = &cases[at];
        if case.0 == n {
            return &case.1;
        }
    }
    other
}

/// The registers with those of a block's phis, and the place behind the phis.
fn phis<M: Memory>(
    alloc: Global,
    memory: &M,
    frame: &Frame<M::Pointer>,
    label: &[u8],
    insts: &[Inst],
) -> Result<Option<(List<Register<M::Pointer>>, usize)>, NoMemory>
    ensures { IfOk result (λ after. after ≡ phis M.model memory.now frame.now label.now frame.now.registers 0 insts.now) }
{
    let Ok(mut registers) = frame.registers.copied(alloc) else {
        return Err(NoMemory);
    };
    for at in 0..insts.len() {
        let Inst::Phi { dst, ty: _, arms } = &insts[at] else {
            return Ok(Some((registers, at)));
        };
        let Some(operand) = arm_of(arms.items(), label) else {
            return Ok(None);
        };
        let Some(value) = value_of(memory, frame, operand) else {
            return Ok(None);
        };
        put(alloc, &mut registers, dst.bytes(), value)?;
    }
    Ok(Some((registers, insts.len())))
}

fn begins_with_phi(insts: &[Inst]) -> bool
    ensures { result ≡ begins_with_phi insts.now }
{
    match insts {
        [Inst::Phi { .. }, ..] => true,
        _ => false,
    }
}

/// Goes behind the phis of the block of a label.
#[tactic(auto, using(crate::proofs::BranchLemmas::no_phis))]
pub fn enter<M: Memory>(
    alloc: Global,
    modules: &[Module],
    memory: &M,
    frame: &mut Frame<M::Pointer>,
    to: &Text,
) -> Result<bool, NoMemory>
    ensures state { IfOk result (λ done. Acts done (entered M.model modules.now memory.now frame.old to.now) frame.old frame.new) }
    ensures same { OnErr result (frame.new ≡ frame.old) }
{
    let Some(function) = function_at(modules, frame.file, frame.func) else {
        return Ok(false);
    };
    let blocks = function.blocks.items();
    let Some(here) = blocks.get(frame.block) else {
        return Ok(false);
    };
    let Some(at) = block_at(blocks, to.bytes()) else {
        return Ok(false);
    };
    let insts = blocks[at].insts.items();
    if !begins_with_phi(insts) {
        frame.block = at;
        frame.place = 0;
        return Ok(true);
    }
    let Some((registers, place)) = phis(alloc, memory, frame, here.label.bytes(), insts)? else {
        return Ok(false);
    };
    frame.block = at;
    frame.place = place;
    frame.registers = registers;
    Ok(true)
}

/// Takes a branch with a condition.
pub fn branch<M: Memory>(
    alloc: Global,
    modules: &[Module],
    memory: &M,
    frame: &mut Frame<M::Pointer>,
    cond: &Operand,
    on: &Text,
    off: &Text,
) -> Result<bool, NoMemory>
    ensures state { IfOk result (λ done. Acts done (branched_at M.model modules.now memory.now frame.old cond.now on.now off.now) frame.old frame.new) }
    ensures same { OnErr result (frame.new ≡ frame.old) }
{
    match truth_of(memory, frame, cond) {
        Some(holds) => {
            let to = if holds { on } else { off };
            enter(alloc, modules, memory, frame, to)
        }
        None => Ok(false),
    }
}

/// Takes a switch.
pub fn switch<M: Memory>(
    alloc: Global,
    modules: &[Module],
    memory: &M,
    frame: &mut Frame<M::Pointer>,
    width: Width,
    value: &Operand,
    other: &Text,
    cases: &[(u64, Text)],
) -> Result<bool, NoMemory>
    ensures state { IfOk result (λ done. Acts done (switched_at M.model modules.now memory.now frame.old width value.now other.now cases.now) frame.old frame.new) }
    ensures same { OnErr result (frame.new ≡ frame.old) }
{
    match integer_of(memory, frame, width, value) {
        Some(n) => enter(alloc, modules, memory, frame, case_of(n, other, cases)),
        None => Ok(false),
    }
}

/// Goes behind an assumption that holds.
pub fn assume<M: Memory>(memory: &M, frame: &mut Frame<M::Pointer>, cond: &Operand) -> bool
    requires { frame.old.place + 1 < 2 ^ 64 }
    ensures { Acts result (assumed_at M.model memory.now frame.old cond.now) frame.old frame.new }
{
    match truth_of(memory, frame, cond) {
        Some(true) => {
            frame.place += 1;
            true
        }
        _ => false,
    }
}
