//! Which units are a thin file, and the module that such a file is.
#![tactic(auto)]

mod thin;

pub use thin::{
    Node, Second, Thin, Variable, source_module, thin_is_determined, thin_is_possible, thin_of,
};
