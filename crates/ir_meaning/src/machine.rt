ghost use Rattle.std.specs.Prelude.{◌≡◌, IfOk, OnOk, OnErr};
ghost use Rattle.ir_meaning.specs.Starts.{IsEntry, start, outcome};
ghost use Rattle.ir_meaning.specs.Steps.{step};

use crate::starts::first_frame;
use crate::states::{Outcome, State, Status};
use ir_memories::{Memory, NoMemory};
use ir_values::Module;
use ltt_base::{List, Stack};
use std::alloc::Global;
use type_metadata::Object;

/// A program that runs: its modules, the answers that externals give, and how far it has come.
#[derive(Drop)]
pub struct Machine<'a, M: Memory> {
    alloc: Global,
    pub modules: &'a [Module],
    pub answers: &'a [u64],
    pub state: State<M, M::Pointer>,
}

/// The state before the first step.
fn start<M: Memory>(
    alloc: Global,
    modules: &[Module],
    memory: M,
    entry: Object,
    args: &[u64],
) -> Result<State<M, M::Pointer>, NoMemory>
    requires { IsEntry modules.now entry args.now }
    ensures { IfOk result (λ state. state ≡ start modules.now memory entry args.now) }
{
    let frame = first_frame(alloc, modules, entry, args)?;
    Ok(State {
        memory,
        frame,
        callers: Stack::new(alloc),
        taken: 0,
        events: List::new(alloc),
        status: Status::Running,
        result: None,
    })
}

impl<'a, M: Memory> Machine<'a, M> {
    /// A machine before its first step.
    pub fn start(
        alloc: Global,
        modules: &'a [Module],
        memory: M,
        entry: Object,
        args: &[u64],
        answers: &'a [u64],
    ) -> Result<Machine<'a, M>, NoMemory>
        requires { IsEntry modules.now entry args.now }
        ensures modules { IfOk result (λ machine. machine.modules.now ≡ modules.now) }
        ensures answers { IfOk result (λ machine. machine.answers.now ≡ answers.now) }
        ensures state { IfOk result (λ machine. machine.state ≡ start modules.now memory entry args.now) }
    {
        let state = start(alloc, modules, memory, entry, args)?;
        Ok(Machine {
            alloc,
            modules,
            answers,
            state,
        })
    }

    /// Takes one step. A run that has ended answers its status again. Without memory nothing changes.
    pub fn step(&mut self) -> Result<Status, NoMemory>
        ensures modules { self.new.modules ≡ self.old.modules }
        ensures answers { self.new.answers ≡ self.old.answers }
        ensures state { OnOk result (self.new.state ≡ step M.model self.old.modules.now self.old.answers.now self.old.state) }
        ensures same { OnErr result (self.new.state ≡ self.old.state) }
        ensures status { IfOk result (λ status. status ≡ self.new.state.status) }
    {
        self.state.step(self.alloc, self.modules, self.answers)
    }
}

/// What a run of at most so many steps comes to.
pub fn run<M: Memory>(
    alloc: Global,
    modules: &[Module],
    memory: M,
    entry: Object,
    args: &[u64],
    answers: &[u64],
    n: u64,
) -> Result<Outcome<M::Pointer>, NoMemory>
    requires { IsEntry modules.now entry args.now }
    ensures { IfOk result (λ o. o ≡ outcome M.model modules.now memory entry args.now answers.now n) }
{
    let mut state = start(alloc, modules, memory, entry, args)?;
    state.run(alloc, modules, answers, n)?;
    let State {
        events,
        status,
        result,
        ..
    } = state;
    Ok(Outcome {
        events,
        status,
        result,
    })
}
