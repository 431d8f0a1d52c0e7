//! Modules that are run by their meaning: the words that ask for a run, the run, and the lines that tell it.
#![tactic(auto)]

mod entries;
mod laws;
mod lines;
mod names;
mod runs;
mod telling;
mod words;

pub use entries::entry_of;
pub use laws::{answers_are_decimals, numbers_are_decimals};
pub use lines::{event_line, status_line};
pub use runs::{is_source, run_source};
pub use telling::print_run;
pub use words::{answers_of, are_answers, number_of, steps_of};
