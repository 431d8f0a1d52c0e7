//! The words of items and instructions that are read by where they stand: linkage, dropped words, places and attachments.
#![tactic(auto)]

mod attached;
mod attributes;
mod linkage;
mod places;
mod runs;
mod words;

pub use attached::{attachments, dropped_attachments, head_attach, head_attachments};
pub use attributes::{attribute, attribute_run, parameter_run};
pub use linkage::{maybe_linkage, maybe_other_linkage};
pub use places::{comdat, next_placed, placed, section, variable_places};
pub use runs::{call_run, dropped_run, dropped_word, function_run, instruction_run, item_run};
