//! The check of a file's units: whether no unit has a flaw, or else the first that has one, with the one that counts.
#![tactic(auto)]

mod check;
mod modules;
mod units;

pub use check::check_units;
pub use modules::{check_output, check_source};
