//! The units of a module that are neither items with a type nor instructions, and those that are left out.
#![tactic(auto)]

mod headers;
mod items;
mod left_units;
mod lines;
mod metadata;
mod reading;
mod summaries;
mod tables;
mod tokens;

pub use items::with_type_name;
pub use reading::{
    read_attributes, read_close, read_comdat, read_entry, read_header, read_label, read_left_unit,
    read_metadata, read_table, read_type_body,
};
