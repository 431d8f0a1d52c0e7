//! The top call, `ltt`: what the words ask for, from the bytes of the files to the bytes of the output.
#![tactic(auto)]

mod command;
mod lines;
mod making;
mod pipeline;
mod telling;
mod top;

pub use pipeline::{check_text, lower_text, output_of, run_text};
pub use telling::say_memory;
pub use top::ltt;
