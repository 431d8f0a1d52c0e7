//! What is wrong with the instructions of a body: the types and values that they write, and the names that they use.
#![tactic(auto)]

mod addresses;
mod branches;
mod cases;
mod flaws;
mod phis;
mod plain;

pub use flaws::instruction_flaw;
