//! What is wrong with calls: of functions, through values, and of intrinsics.
#![tactic(auto)]

mod arguments;
mod callees;
mod calls;
mod fitting;

pub use arguments::{Role, node_flaw, role_of};
pub use callees::is_left_call;
pub use calls::call_flaw;
