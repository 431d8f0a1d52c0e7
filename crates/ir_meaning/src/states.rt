use ir_memories::Value;
use ltt_base::{Copied, List, Memory, Stack, Text};
use std::alloc::Global;

/// How a run stands. `Starved`: a call of an external function wants an answer, and none is left.
/// `Undefined`: the step has no meaning.
#[derive(Clone, Copy, PartialEq, Eq)]
pub enum Status {
    Running,
    Returned,
    Trapped,
    Starved,
    Undefined,
}

/// A register of a frame, without the `%` of its name.
#[derive(Drop)]
pub struct Register<P: Copy> {
    pub name: Text,
    pub value: Value<P>,
}

impl<P: Copy + Drop> Copied for Register<P> {
    fn copied(&self, alloc: Global) -> Result<Register<P>, Memory> {
        Ok(Register {
            name: self.name.copied(alloc)?,
            value: self.value,
        })
    }
}

/// A function that runs: the number of its file, from 1, its own among the functions of that module, and
/// the block and the instruction that it stands at, from 0.
#[derive(Drop)]
pub struct Frame<P: Copy> {
    pub file: u32,
    pub func: u32,
    pub block: usize,
    pub place: usize,
    pub registers: List<Register<P>>,
}

/// A call of an external function: its name, the arguments, and the answer that it took.
#[derive(Drop)]
pub struct Event<P: Copy> {
    pub name: Text,
    pub args: List<Value<P>>,
    pub answer: Option<Value<P>>,
}

/// What a run has come to. `callers` are the frames that wait, the last one first, each at its call;
/// `taken` counts the answers that externals took; `result` is what the entry returned.
#[derive(Drop)]
pub struct State<W: Drop, P: Copy> {
    pub memory: W,
    pub frame: Frame<P>,
    pub callers: Stack<Frame<P>>,
    pub taken: usize,
    pub events: List<Event<P>>,
    pub status: Status,
    pub result: Option<Value<P>>,
}

/// What a run has come to, as it is seen from outside.
#[derive(Drop)]
pub struct Outcome<P: Copy> {
    pub events: List<Event<P>>,
    pub status: Status,
    pub result: Option<Value<P>>,
}
