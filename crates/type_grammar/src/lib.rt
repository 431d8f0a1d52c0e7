//! Types and constants: their texts and their readers.
#![tactic(auto)]

mod address;
mod bare;
mod constants;
mod items;
mod laws;
mod left;
mod numbers;
mod reading;
mod simple;
mod types;
mod words;

pub use bare::{Bare, at_type};
pub use constants::constant;
pub use laws::opened_is_told;
pub use numbers::{int_of, length_of};
pub use reading::{read_constant, read_own_items, read_type, read_value_type};
pub use types::ty;
