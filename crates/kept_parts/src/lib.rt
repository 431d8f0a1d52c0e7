//! How parts of units are kept in a module: what calls call, the values of arguments, arms and cases, and the numbers of nodes.
#![tactic(auto)]

mod arguments;
mod arms;
mod callees;
mod cases;
mod nodes;
mod widths;

pub use arguments::argument_kept;
pub use arms::kept_arms;
pub use callees::{called, called_intrinsic};
pub use cases::case_number;
pub use nodes::node_number;
pub use widths::width_of;
