//! The printer: a module as the text of its IR.
#![tactic(auto)]

mod buffer;
mod constants;
mod forms;
mod instructions;
mod intrinsics;
mod items;
mod lists;
mod output;
mod parts;
mod printing;
mod types;

pub use buffer::Buffer;
pub use output::Output;
pub use printing::{PrintFault, print_module};
pub use types::put_ty;
