//! Printed modules: the units that their texts are read as.
#![tactic(auto)]

mod laws;

pub use laws::printed_reads_again;
