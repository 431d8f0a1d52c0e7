// Data layouts.
ghost use Rattle.std.specs.Prelude.{◌≡◌, ◌≤◌, ◌<◌, ◌+◌, length, take, drop, find, IfOk};
ghost use Rattle.std.specs.List.{prefix_len};
ghost use Rattle.std.specs.Option.{option_copied};
ghost use Rattle.check_items.specs.Layouts as spec;

use check_names::{Flaw, worded_when};
use ltt_base::{Code, Memory};
use std::alloc::Global;

fn is_inner(byte: u8) -> bool
    ensures { result ≡ spec.is_inner byte }
{
    byte != b'-'
}

fn part_len(text: &[u8]) -> usize
    ensures len { result ≡ prefix_len spec.is_inner text.now }
    ensures within { result ≤ length text.now }
{
    text.iter().take_while(|byte| is_inner(**byte)).count()
}

fn is_foreign(part: &[u8]) -> bool
    ensures { result ≡ spec.is_foreign part.now }
{
    part == b"E".as_slice() || part.starts_with(b"p:") && !part.starts_with(b"p:64:64")
}

fn first_part(text: &[u8]) -> &[u8]
    ensures part { result.now ≡ take (prefix_len spec.is_inner text.now) text.now }
    ensures len { length result.now ≡ prefix_len spec.is_inner text.now }
    ensures within { length result.now ≤ length text.now }
{
    &text[..part_len(text)]
}

fn behind(text: &[u8], at: usize) -> &[u8]
    requires { at < length text.now }
    ensures { result.now ≡ drop (at + 1) text.now }
{
    &text[at + 1..]
}

fn foreign_part(text: &[u8]) -> Option<&[u8]>
    ensures { option_copied result ≡ find spec.is_foreign (spec.layout_parts text.now) }
{
    let mut rest = text;
    loop {
        let part = first_part(rest);
        if is_foreign(part) {
            return Some(part);
        }
        if part.len() == rest.len() {
            return None;
        }
        rest = behind(rest, part.len());
    }
}

/// The flaw of a target's data layout: its first part that says big-endian, or pointers other than those of 64 bits.
pub fn layout_flaw(alloc: Global, text: &[u8]) -> Result<Option<Flaw>, Memory>
    ensures { IfOk result (λ flaw. flaw ≡ spec.layout_flaw text.now) }
{
    match foreign_part(text) {
        Some(part) => worded_when(alloc, true, Code::E07, part),
        None => Ok(None),
    }
}
