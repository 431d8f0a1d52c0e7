//! Flaws of units, and what defines the names of a file.
#![tactic(auto)]

mod context;
mod flaws;
mod names;
mod reserved;
mod spaces;

pub use context::Context;
pub use flaws::{Flaw, counts, named_when, when, worded_when};
pub use names::{again_flaw, definition_flaw, missing_flaw, use_flaw};
pub use reserved::{intrinsic_flaw, is_intrinsic, reserved_flaw};
pub use spaces::{Space, name_in, sign};
