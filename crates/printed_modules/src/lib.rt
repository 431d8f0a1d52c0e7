//! Printed modules that are read again: their units have the same module.
#![tactic(auto)]

mod laws;

pub use laws::{example_is_printed, lines_are_the_module, plain_is_printed, printed_is_same_again};
