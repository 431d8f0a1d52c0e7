//! The combined variables and tables that the objects of identifiers are laid out in.
#![tactic(auto)]

mod fragments;
mod groups;
mod ids;
mod laws;
mod layout;
mod owners;
mod placing;
mod row;
mod slots;

pub use groups::{Group, Home};
pub use ids::{IdMembers, Shape};
pub use laws::{example_is_met, objects_have_homes};
pub use layout::{Layout, arrange};
