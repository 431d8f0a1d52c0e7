// Sets of offsets, and the byte arrays of several.
ghost use Rattle.std.specs.Prelude.{All, IfOk};
ghost use Rattle.bit_sets.specs.BitSet.{AreOffsets, IsSet};

use crate::making::{push_made, push_number};
use bit_sets::{BitSet, Kind, Lanes, build, rotated_in};
use ltt_base::{Code, Fault, Memory, Text};
use std::alloc::Global;

/// Bytes that an offset doesn't reach.
const MOST: u64 = 134_217_728;

// the offsets that the words name
fn offsets(alloc: Global, words: &str) -> Result<Vec<u64>, Memory>
    ensures { IfOk result (λ offsets. AreOffsets offsets.items) }
{
    let mut offsets = Vec::new(alloc);
    for word in words.split(' ') {
        let offset = word.parse::<u64>().unwrap_or(MOST);
        if offset < MOST {
            match offsets.push(offset) {
                Ok(()) => {}
                Err(_) => return Err(Memory),
            }
        }
    }
    Ok(offsets)
}

fn set_of(alloc: Global, words: &str) -> Result<BitSet, Memory>
    ensures { IfOk result IsSet }
{
    let offsets = offsets(alloc, words)?;
    build(alloc, offsets.as_slice())
}

fn word(kind: Kind) -> &'static str {
    match kind {
        Kind::Unsat => "unsat",
        Kind::Single => "single",
        Kind::AllOnes => "all ones",
        Kind::Inline => "inline",
        Kind::ByteArray => "byte array",
    }
}

fn tell_numbers(alloc: Global, out: &mut Text, set: &BitSet) -> Result<(), Memory> {
    let line = format!(in alloc;
        "{} from {} by {} to {}:",
        word(set.kind),
        set.min,
        set.align,
        set.size_m1
    );
    push_made(out, line)?;
    for word in set.words.items() {
        out.extend(b" ")?;
        push_number(alloc, out, *word)?;
    }
    Ok(())
}

fn tell_members(out: &mut Text, set: &BitSet, words: &str) -> Result<(), Memory>
    requires { IsSet set.now }
{
    for word in words.split(' ') {
        if let Ok(offset) = word.parse::<u64>() {
            out.extend(if set.has(offset) { b" y" } else { b" n" })?;
        }
    }
    Ok(())
}

/// Tells the set of these offsets, and whether it has each of the others.
pub fn tell(alloc: Global, out: &mut Text, words: &str, text: &[u8]) -> Result<(), Memory> {
    let set = set_of(alloc, words)?;
    tell_numbers(alloc, out, &set)?;
    tell_members(out, &set, str::from_utf8(text).unwrap_or(""))
}

/// Tells whether a number is rotated in: the number, the step and the last bit.
pub fn tell_rotated(out: &mut Text, words: &str) -> Result<(), Memory> {
    let (number, words) = words.split_once(' ').unwrap_or((words, ""));
    let (align, size) = words.split_once(' ').unwrap_or((words, ""));
    let align = align.parse::<u8>().unwrap_or(64);
    if align >= 64 {
        return out.extend(b"no step");
    }
    let held = rotated_in(
        number.parse::<u64>().unwrap_or(0),
        align,
        size.parse::<u64>().unwrap_or(0),
    );
    out.extend(if held { b"y" } else { b"n" })
}

fn sets_of(alloc: Global, text: &str) -> Result<Vec<BitSet>, Memory>
    ensures { IfOk result (λ sets. All IsSet sets.items) }
{
    let mut sets = Vec::new(alloc);
    for line in text.split('\n') {
        let set = set_of(alloc, line)?;
        match sets.push(set) {
            Ok(()) => {}
            Err(_) => return Err(Memory),
        }
    }
    Ok(sets)
}

fn tell_last(alloc: Global, out: &mut Text, lanes: &Lanes) -> Result<(), Memory> {
    push_made(out, format!(in alloc; "{} bytes", lanes.bytes.len()))?;
    match lanes.spots.items().last() {
        Some(Some(spot)) => {
            push_made(
                out,
                format!(in alloc; ", the last from {} at {}", spot.start, spot.mask),
            )
        }
        _ => Ok(()),
    }
}

/// Tells how many bytes the sets of each line take, and where the last stands.
pub fn tell_lanes(alloc: Global, out: &mut Text, text: &[u8]) -> Result<(), Memory> {
    let sets = sets_of(alloc, str::from_utf8(text).unwrap_or(""))?;
    match Lanes::place(alloc, sets.as_slice()) {
        Ok(lanes) => tell_last(alloc, out, &lanes),
        Err(Fault::Refused(refusal)) => {
            out.extend(if refusal.code == Code::E12 {
                b"E12 "
            } else {
                b"??? "
            })?;
            out.extend(refusal.word.bytes())
        }
        Err(Fault::Memory) => Err(Memory),
    }
}
