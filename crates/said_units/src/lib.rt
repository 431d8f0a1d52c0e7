//! What the units of a text of bytes say.
#![tactic(auto)]

mod laws;

pub use laws::read_units_are_said;
