//! What every crate of `ltt` stands on: texts, lists, places, refusals, files and sinks.
#![tactic(auto)]

mod boxed;
mod comparing;
mod copied;
mod disk_files;
mod list;
mod memory_files;
mod memory_sink;
mod outside;
mod reading;
mod refusal;
mod same;
mod stack;
mod standard_sink;
mod text;
mod writing;

pub use boxed::Boxed;
pub use copied::Copied;
pub use disk_files::DiskFiles;
pub use list::List;
pub use memory_files::MemFiles;
pub use memory_sink::MemSink;
pub use outside::{Failed, Files, Sink};
pub use reading::{ReadFault, read_file, read_selected};
pub use refusal::{Code, Fault, Memory, Place, Placed, Refusal};
pub use same::Same;
pub use stack::Stack;
pub use standard_sink::StdSink;
pub use text::Text;
pub use writing::write_all;
