//! What is wrong with what instructions read: registers, constants and labels, and the types of registers.
#![tactic(auto)]

mod made;
mod operands;
mod registers;

pub use made::Made;
pub use operands::{label_flaw, operand_flaw, operand_kept, other_flaw, register_flaw, value_flaw};
pub use registers::{defined_head, register_type};
