//! Outputs of thin files that are read again: their text has the same module.
#![tactic(auto)]

mod laws;

pub use laws::{
    example_has_output, outputs_are_printed, outputs_are_same_again, read_outputs_are_same_again,
};
