//! The reader of a module's text: from tokens to units.
#![tactic(auto)]

mod forms;
mod laws;
mod lexing;
mod reading;
mod refusals;
mod stuck;
mod unit;

pub use laws::{answers_agree, units_agree};
pub use reading::read_units;
