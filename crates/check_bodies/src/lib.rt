//! Where units stand in the bodies of functions, the numbers of unnamed values, and the names of a body.
#![tactic(auto)]

mod blocks;
mod body;
mod flaws;
mod index;
mod labels;
mod names;
mod numbers;
mod sorts;
mod sources;
mod standing;
mod structure;

pub use blocks::{BlockMark, Edge, block_at, block_label, edges_of};
pub use body::Body;
pub use flaws::{body_flaw, head_flaw, missing_flaw, outside_flaw, unclosed_flaw};
pub use names::{Asked, Defined, Local, add_own, head_names, names_of, parameters};
pub use numbers::{behind_name, behind_parameters, name_or};
pub use sorts::{Sort, has_result, is_instruction, sort_of, written_name};
pub use standing::{
    Spot, Stage, Standing, after, entered, is_begun, is_named, opened, standing_at,
};
pub use structure::{is_closed, is_misplaced, is_past_limit};
