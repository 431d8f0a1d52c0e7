//! Outputs without flaws that are read again: their text has the same module.
#![tactic(auto)]

mod laws;

pub use laws::{
    clean_is_same_again, clean_outputs_are_printed, example_is_output, order_is_printed,
    outputs_without_named_types_are_same_again, outputs_without_named_types_are_shallow,
    written_modules_are_shallow,
};
