//! The tables of functions: which functions each has, and where a function's entry stands.
#![tactic(auto)]

mod laws;
mod table;

pub use laws::entries_stand;
pub use table::{JumpTable, entry_of, tables};
