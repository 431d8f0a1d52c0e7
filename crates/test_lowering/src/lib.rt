//! The output module, in which each type test is a comparison that is true exactly at carriers.
#![tactic(auto)]

mod functions;
mod laws;
mod rewriting;

pub use laws::{lowered_tests_are_exact, placement_is_possible};
pub use rewriting::lower_thin;
