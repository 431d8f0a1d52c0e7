//! Texts that are put together of blanks and tokens: the tokens that stand in them.
#![tactic(auto)]

mod laws;

pub use laws::atoms_are_cut;
