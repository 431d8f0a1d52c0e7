//! Files that are read and have no flaw: their modules are such that a run may begin in them.
#![tactic(auto)]

mod laws;

pub use laws::{
    clean_files_can_run, clean_modules_are_counted, clean_types_have_sizes, read_types_have_no_pair,
};
