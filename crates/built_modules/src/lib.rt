//! The module that the units of a file become.
#![tactic(auto)]

mod blocks;
mod functions;
mod laws;
mod linkages;
mod modules;
mod variables;

pub use laws::blocks_hold_their_instructions;
pub use modules::module_of;
