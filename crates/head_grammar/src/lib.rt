//! The heads of functions, and variables: their texts and their readers.
#![tactic(auto)]

mod attached;
mod begun;
mod extras;
mod heads;
mod kept;
mod parameters;
mod variables;

pub use heads::{read_declare, read_define};
pub use variables::read_variable;
