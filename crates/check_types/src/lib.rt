//! The types that units write: what names stand for, which of them end, and what is wrong with a type at its place.
#![tactic(auto)]

mod differences;
mod ends;
mod heads;
mod left;
mod marks;
mod measures;
mod named;
mod order;
mod parts;
mod places;
mod replacing;
mod sizes;
mod written;

pub use differences::differ;
pub use ends::Types;
pub use heads::{head, named_head};
pub use left::{left_flaw, left_word};
pub use named::{is_opaque, named_type};
pub use parts::{part, struct_offset};
pub use places::Allowed;
pub use replacing::replaced;
pub use sizes::{align, is_past, past_flaw, size};
pub use written::type_flaw;
