//! The laws on what a call of `ltt` owes: one thing at most, and an accepted call in which no fault was counted is done.
#![tactic(auto)]

mod laws;

pub use laws::{accepted_is_done, one_is_due};
