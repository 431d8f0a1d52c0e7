//! Type identifiers and the objects that carry them.
#![tactic(auto)]

mod denoting;
mod extents;
mod items;
mod laws;
mod listing;
mod marks;
mod names;
mod objects;
mod places;
mod types;

pub use denoting::denotes;
pub use extents::extent_of;
pub use items::{Item, items_of};
pub use laws::{carriers_carry, identifiers_are_carried, some_definition_carries};
pub use listing::Listing;
pub use objects::{Carrier, Denoted, Object, is_same_object};
pub use types::{Types, collect};
