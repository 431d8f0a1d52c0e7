//! The meaning of a program: a machine that takes it step by step, over any memory.
#![tactic(auto)]

mod addresses;
mod branches;
mod calls;
mod externals;
mod frames;
mod instructions;
mod laws;
mod machine;
mod operands;
mod places;
mod plain;
mod registers;
mod starts;
mod states;
mod steps;

pub use laws::{
    calls_come_back, plain_instructions_stay_in_their_frame, registers_hold_what_was_put, runs_add,
};
pub use machine::{Machine, run};
pub use starts::is_entry;
pub use states::{Event, Frame, Outcome, Register, State, Status};
