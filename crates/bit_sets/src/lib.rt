//! Sets of offsets as bits, the comparison that tests them, and the byte array that holds the long ones.
#![tactic(auto)]

mod bytes;
mod filling;
mod lanes;
mod laws;
mod rotation;
mod set;

pub use lanes::{Lanes, Spot};
pub use laws::{kinds_are_met, lanes_hold, tests_are_exact};
pub use rotation::rotated_in;
pub use set::{BitSet, Kind, build};
