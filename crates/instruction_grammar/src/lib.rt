//! Instructions: their texts and their readers.
#![tactic(auto)]

mod actions;
mod bare_operand;
mod branches;
mod calls;
mod memory;
mod operands;
mod operations;
mod phis;
mod words;

pub use actions::{action, plain_action, with_result};
pub use memory::number;
