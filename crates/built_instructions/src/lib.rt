//! The instructions of a module, each made of the unit that writes it.
#![tactic(auto)]

mod arguments;
mod branches;
mod calls;
mod instructions;
mod laws;
mod plain;
mod values;

pub use instructions::instruction_of;
pub use laws::{registers_are_defined, sorts_are_kept};
