// Texts that are made.
use ltt_base::{Memory, Text};
use std::alloc::AllocError;

/// Adds a text that was made.
pub fn push_made(out: &mut Text, made: Result<String, AllocError>) -> Result<(), Memory> {
    match made {
        Ok(made) => out.extend(made.as_bytes()),
        Err(_) => Err(Memory),
    }
}
