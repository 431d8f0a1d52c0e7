// Texts that are made.
use ltt_base::{Memory, Text};
use std::alloc::{AllocError, Global};

/// Adds a text that was made.
pub fn push_made(out: &mut Text, made: Result<String, AllocError>) -> Result<(), Memory> {
    match made {
        Ok(made) => out.extend(made.as_bytes()),
        Err(_) => Err(Memory),
    }
}

/// A number in decimal.
pub fn push_number(alloc: Global, out: &mut Text, number: u64) -> Result<(), Memory> {
    push_made(out, format!(in alloc; "{}", number))
}

fn push_times(out: &mut Text, times: u32, part: &str) -> Result<(), Memory> {
    for _ in 0..times {
        out.extend(part.as_bytes())?;
    }
    Ok(())
}

/// The text of five parts with `|` between them, whose second and fourth stand so many times.
pub fn nested(alloc: Global, times: u32, parts: &str) -> Result<Text, Memory> {
    let (head, parts) = parts.split_once('|').unwrap_or((parts, ""));
    let (open, parts) = parts.split_once('|').unwrap_or((parts, ""));
    let (middle, parts) = parts.split_once('|').unwrap_or((parts, ""));
    let (close, tail) = parts.split_once('|').unwrap_or((parts, ""));
    let mut out = Text::copy(alloc, head.as_bytes())?;
    push_times(&mut out, times, open)?;
    out.extend(middle.as_bytes())?;
    push_times(&mut out, times, close)?;
    out.extend(tail.as_bytes())?;
    Ok(out)
}
