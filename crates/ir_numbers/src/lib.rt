//! Integers of a width, and the layout of types: what the operations give, and where the parts of a value stand.
#![tactic(auto)]

mod arithmetic;
mod layout;
mod numbers;

pub use arithmetic::{binary, cast, compare};
pub use layout::{align_of, field_at, is_laid_out, size_of};
pub use numbers::bits;
