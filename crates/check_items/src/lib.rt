//! Units that stand outside all bodies: items, the attachments of definitions, and what is wrong with them.
#![tactic(auto)]

mod attached;
mod counts;
mod entries;
mod functions;
mod identifiers;
mod items;
mod known;
mod layouts;
mod linkages;
mod nodes;
mod signatures;
mod tables;
mod variables;

pub use attached::{attached_flaw, declared_flaw, is_type, is_visibility};
pub use counts::{Counts, carriers_flaw, counted, first_counts, functions_flaw, variables_flaw};
pub use entries::{entries_of, visibility_of};
pub use functions::{declare_flaw, define_flaw};
pub use identifiers::{identifiers_flaw, too_many_from};
pub use items::item_flaw;
pub use known::is_known;
pub use layouts::layout_flaw;
pub use linkages::{is_external, linkage_flaw};
pub use nodes::{id_of, is_distinct_node, is_some_id, lone_number, node_items, offset_of};
pub use signatures::{Shape, is_metadata_at, is_signature};
pub use tables::table_flaw;
pub use variables::variable_flaw;
