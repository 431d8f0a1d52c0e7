//! Runs of a source and runs of its output: the theorem that they do the same.
#![tactic(auto)]

mod laws;

pub use laws::{addresses_are_possible, lowering_is_simulated};
