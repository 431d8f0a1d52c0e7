ghost use Rattle.std.specs.Prelude.{◌≡◌, ℕ, ◌+◌, ◌^◌, ◌<◌, IfOk, OnOk, OnErr};
ghost use Rattle.ir_meaning.specs.Steps.{resumed, left, returned_at, stored_at, act, taken, step, run};
ghost use Rattle.ir_meaning.specs.Acts.{Acts};

use crate::frames::answer;
use crate::operands::{pointer_of, value_of};
use crate::places::instruction_at;
use crate::plain::plain;
use crate::states::{Frame, State, Status};
use ir_memories::{Memory, NoMemory, Value};
use ir_values::{Inst, Module, Operand};
use std::alloc::Global;

/// Puts a caller behind its call.
fn resume<P: Copy + Drop>(
    alloc: Global,
    frame: &mut Frame<P>,
    modules: &[Module],
    value: Option<Value<P>>,
) -> Result<bool, NoMemory>
    ensures state { IfOk result (λ done. Acts done (resumed modules.now frame.old value) frame.old frame.new) }
    ensures same { OnErr result (frame.new ≡ frame.old) }
{
    let inst = instruction_at(modules, frame.file, frame.func, frame.block, frame.place);
    let Some(Inst::Call { dst, .. }) = inst else {
        return Ok(false);
    };
    answer(alloc, frame, dst, value)
}

impl<M: Memory> State<M, M::Pointer> {
    /// Leaves the frame with what it returns.
    fn leave(
        &mut self,
        alloc: Global,
        modules: &[Module],
        value: Option<Value<M::Pointer>>,
    ) -> Result<bool, NoMemory>
        ensures state { IfOk result (λ done. Acts done (left modules.now self.old value self.old.callers) self.old self.new) }
        ensures same { OnErr result (self.new ≡ self.old) }
    {
        if self.callers.is_empty() {
            self.status = Status::Returned;
            self.result = value;
            return Ok(true);
        }
        let done = resume(alloc, self.callers.top_mut(), modules, value)?;
        if done {
            if let Some(caller) = self.callers.pop() {
                self.frame = caller;
            }
        }
        Ok(done)
    }

    fn return_at(
        &mut self,
        alloc: Global,
        modules: &[Module],
        value: &Option<Operand>,
    ) -> Result<bool, NoMemory>
        ensures state { IfOk result (λ done. Acts done (returned_at M.model modules.now self.old value.now) self.old self.new) }
        ensures same { OnErr result (self.new ≡ self.old) }
    {
        match value {
            None => self.leave(alloc, modules, None),
            Some(operand) => match value_of(&self.memory, &self.frame, operand) {
                Some(value) => self.leave(alloc, modules, Some(value)),
                None => Ok(false),
            },
        }
    }

    fn store_at(&mut self, value: &Operand, addr: &Operand) -> bool
        requires { self.old.frame.place + 1 < 2 ^ 64 }
        ensures { Acts result (stored_at M.model self.old value.now addr.now) self.old self.new }
    {
        let Some(value) = value_of(&self.memory, &self.frame, value) else {
            return false;
        };
        let Some(p) = pointer_of(&self.memory, &self.frame, addr) else {
            return false;
        };
        if !self.memory.store(&value, p) {
            return false;
        }
        self.frame.place += 1;
        true
    }

    /// Takes an instruction.
    fn act(
        &mut self,
        alloc: Global,
        modules: &[Module],
        answers: &[u64],
        inst: &Inst,
    ) -> Result<bool, NoMemory>
        requires { self.old.frame.place + 1 < 2 ^ 64 }
        ensures state { IfOk result (λ done. Acts done (act M.model modules.now answers.now self.old inst.now) self.old self.new) }
        ensures same { OnErr result (self.new ≡ self.old) }
    {
        match inst {
            Inst::Ret { ty: _, value } => self.return_at(alloc, modules, value),
            Inst::Store { ty: _, value, addr } => Ok(self.store_at(value, addr)),
            Inst::Call {
                dst,
                fty,
                callee,
                args,
            } => self.call_at(alloc, modules, answers, dst, fty, callee, args.items()),
            Inst::Trap { code: _ } => {
                self.status = Status::Trapped;
                Ok(true)
            }
            _ => plain(alloc, modules, &self.memory, &mut self.frame, inst),
        }
    }

    /// Takes the instruction that the frame stands at.
    fn take(&mut self, alloc: Global, modules: &[Module], answers: &[u64]) -> Result<bool, NoMemory>
        ensures state { IfOk result (λ done. Acts done (taken M.model modules.now answers.now self.old) self.old self.new) }
        ensures same { OnErr result (self.new ≡ self.old) }
    {
        let frame = &self.frame;
        let inst = instruction_at(modules, frame.file, frame.func, frame.block, frame.place);
        match inst {
            Some(inst) => self.act(alloc, modules, answers, inst),
            None => Ok(false),
        }
    }

    /// Takes one step. Without memory nothing changes.
    pub fn step(
        &mut self,
        alloc: Global,
        modules: &[Module],
        answers: &[u64],
    ) -> Result<Status, NoMemory>
        ensures state { OnOk result (self.new ≡ step M.model modules.now answers.now self.old) }
        ensures same { OnErr result (self.new ≡ self.old) }
        ensures status { IfOk result (λ status. status ≡ self.new.status) }
    {
        match self.status {
            Status::Running => {}
            other => return Ok(other),
        }
        let done = self.take(alloc, modules, answers)?;
        if !done {
            self.status = Status::Undefined;
        }
        Ok(self.status)
    }

    /// Takes so many steps; of a run that has ended the others change nothing. Without memory it has taken fewer.
    #[tactic(auto, using(crate::proofs::RunLemmas::run_last))]
    pub fn run(
        &mut self,
        alloc: Global,
        modules: &[Module],
        answers: &[u64],
        n: u64,
    ) -> Result<(), NoMemory>
        ensures done { OnOk result (self.new ≡ run M.model modules.now answers.now n self.old) }
        ensures fewer { OnErr result ((k : ℕ) × (k < n) × (self.new ≡ run M.model modules.now answers.now k self.old)) }
    {
        for _ in 0..n {
            self.step(alloc, modules, answers)?;
        }
        Ok(())
    }
}
