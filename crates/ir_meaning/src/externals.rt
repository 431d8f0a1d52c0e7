ghost use Rattle.std.specs.Prelude.{◌≡◌, ◌+◌, ◌^◌, ◌<◌, IfOk, OnErr, slice_get};
ghost use Rattle.ir_values.specs.declared.types.Ty.{out-Ty};
ghost use Rattle.ir_meaning.specs.Externals.{answer_value, starved, happened, replied, external_at, entered_function, reached, called_at};
ghost use Rattle.ir_meaning.specs.Acts.{Acts};

use crate::calls::{callee_frame, callee_of, is_external, values};
use crate::frames::answer;
use crate::operands::low_bits;
use crate::states::{Event, State, Status};
use ir_memories::{Goal, Memory, NoMemory, Value};
use ir_values::{Callee, FuncTy, Module, Operand, Ty};
use ltt_base::{List, Text};
use std::alloc::Global;
use std::mem;
use type_metadata::Object;

/// An answer as a value of the result's type.
fn answer_value<M: Memory>(memory: &M, ty: &Ty, n: u64) -> Option<Value<M::Pointer>>
    ensures { result ≡ answer_value M.model (out-Ty ty.now) n }
{
    match ty {
        Ty::Int(width) => Some(Value::Int(*width, low_bits(*width, n))),
        Ty::Ptr => {
            if n == 0 {
                Some(Value::Ptr(memory.null()))
            } else {
                None
            }
        }
        _ => None,
    }
}

impl<M: Memory> State<M, M::Pointer> {
    /// No answer is left for a result of this type.
    fn starve(&mut self, ty: &Ty) -> bool
        ensures { Acts result (starved self.old (out-Ty ty.now)) self.old self.new }
    {
        match ty {
            Ty::Int(_) | Ty::Ptr => {
                self.status = Status::Starved;
                true
            }
            _ => false,
        }
    }

    /// An event happens.
    #[tactic(auto, using(crate::proofs::CallLemmas::dropped_last))]
    fn happen(
        &mut self,
        alloc: Global,
        dst: &Option<Text>,
        event: Event<M::Pointer>,
        taken: usize,
    ) -> Result<bool, NoMemory>
        requires { self.old.frame.place + 1 < 2 ^ 64 }
        ensures state { IfOk result (λ done. Acts done (happened self.old dst.now event taken) self.old self.new) }
        ensures same { OnErr result (self.new ≡ self.old) }
    {
        let value = event.answer;
        if self.events.add(event).is_err() {
            return Err(NoMemory);
        }
        match answer(alloc, &mut self.frame, dst, value) {
            Ok(true) => {
                self.taken = taken;
                Ok(true)
            }
            other => {
                let _event = self.events.pop();
                other
            }
        }
    }

    /// Calls an external function that has a result.
    fn reply(
        &mut self,
        alloc: Global,
        answers: &[u64],
        dst: &Option<Text>,
        name: Text,
        args: List<Value<M::Pointer>>,
        ty: &Ty,
    ) -> Result<bool, NoMemory>
        requires { self.old.frame.place + 1 < 2 ^ 64 }
        ensures state { IfOk result (λ done. Acts done (replied M.model answers.now self.old dst.now name args (out-Ty ty.now) (slice_get answers.now self.old.taken)) self.old self.new) }
        ensures same { OnErr result (self.new ≡ self.old) }
    {
        let taken = self.taken;
        let Some(n) = answers.get(taken) else {
            return Ok(self.starve(ty));
        };
        let Some(value) = answer_value(&self.memory, ty, *n) else {
            return Ok(false);
        };
        let event = Event {
            name,
            args,
            answer: Some(value),
        };
        self.happen(alloc, dst, event, taken + 1)
    }

    /// Calls an external function.
    fn call_external(
        &mut self,
        alloc: Global,
        answers: &[u64],
        dst: &Option<Text>,
        name: Text,
        args: List<Value<M::Pointer>>,
        ty: &Ty,
    ) -> Result<bool, NoMemory>
        requires { self.old.frame.place + 1 < 2 ^ 64 }
        ensures state { IfOk result (λ done. Acts done (external_at M.model answers.now self.old dst.now name args (out-Ty ty.now)) self.old self.new) }
        ensures same { OnErr result (self.new ≡ self.old) }
    {
        match ty {
            Ty::Void => {
                let event = Event {
                    name,
                    args,
                    answer: None,
                };
                let taken = self.taken;
                self.happen(alloc, dst, event, taken)
            }
            _ => self.reply(alloc, answers, dst, name, args, ty),
        }
    }

    /// Calls a function that a module defines.
    fn call_defined(
        &mut self,
        alloc: Global,
        modules: &[Module],
        object: Object,
        fty: &FuncTy,
        args: &[Value<M::Pointer>],
    ) -> Result<bool, NoMemory>
        ensures state { IfOk result (λ done. Acts done (entered_function modules.now self.old object fty.now args.now) self.old self.new) }
        ensures same { OnErr result (self.new ≡ self.old) }
    {
        let Some(frame) = callee_frame(alloc, modules, object, fty, args)? else {
            return Ok(false);
        };
        let caller = mem::replace(&mut self.frame, frame);
        match self.callers.push(caller) {
            Ok(()) => Ok(true),
            Err(caller) => {
                self.frame = caller;
                Err(NoMemory)
            }
        }
    }

    /// Calls what a pointer leads to.
    fn reach(
        &mut self,
        alloc: Global,
        modules: &[Module],
        answers: &[u64],
        dst: &Option<Text>,
        fty: &FuncTy,
        args: List<Value<M::Pointer>>,
        goal: Goal,
    ) -> Result<bool, NoMemory>
        requires { self.old.frame.place + 1 < 2 ^ 64 }
        ensures state { IfOk result (λ done. Acts done (reached M.model modules.now answers.now self.old dst.now fty.now args goal) self.old self.new) }
        ensures same { OnErr result (self.new ≡ self.old) }
    {
        match goal {
            Goal::Defined(object) => self.call_defined(alloc, modules, object, fty, args.items()),
            Goal::External(name) => {
                if is_external(modules, name.bytes(), fty) {
                    self.call_external(alloc, answers, dst, name, args, &fty.result)
                } else {
                    Ok(false)
                }
            }
        }
    }

    /// Takes a call.
    pub fn call_at(
        &mut self,
        alloc: Global,
        modules: &[Module],
        answers: &[u64],
        dst: &Option<Text>,
        fty: &FuncTy,
        callee: &Callee,
        operands: &[Operand],
    ) -> Result<bool, NoMemory>
        requires { self.old.frame.place + 1 < 2 ^ 64 }
        ensures state { IfOk result (λ done. Acts done (called_at M.model modules.now answers.now self.old dst.now fty.now callee.now operands.now) self.old self.new) }
        ensures same { OnErr result (self.new ≡ self.old) }
    {
        let Some(p) = callee_of(&self.memory, &self.frame, callee) else {
            return Ok(false);
        };
        let Some(args) = values(alloc, &self.memory, &self.frame, operands)? else {
            return Ok(false);
        };
        let Some(goal) = self.memory.goal(alloc, p)? else {
            return Ok(false);
        };
        self.reach(alloc, modules, answers, dst, fty, args, goal)
    }
}
