//! The constants that units write: what is wrong with them, what they come to, and how a module keeps them.
#![tactic(auto)]

mod addresses;
mod expected;
mod indices;
mod intrinsics;
mod judged;
mod keeping;
mod numbers;
mod rules;
mod shapes;

pub use addresses::{callee_of, global_of, index_of, offset_of};
pub use expected::{Expected, place_of};
pub use indices::{Index, indices_flaw};
pub use intrinsics::{Intrinsic, intrinsic_of, is_declared_intrinsic, is_left_intrinsic};
pub use judged::{constant_flaw, expected_flaw};
pub use keeping::kept;
