ghost use Rattle.std.specs.Prelude.{◌≡◌, ◌<◌, ◌≤◌, length, All, IfOk, MatchOption};
ghost use Rattle.bit_sets.specs.BitSet.{IsSet};
ghost use Rattle.bit_sets.specs.Lanes as spec;

use crate::bytes::{bytes_of, spots_of};
use crate::filling::{Filling, array_order, fill};
use crate::set::{BitSet, greatest};
use ltt_base::{Code, Fault, List, Memory, Place, Refusal, Text};
use std::alloc::Global;

/// Where the bits of a byte array stand: bit i is the mask's bit of byte `start + i`.
///
/// Source: Control Flow Integrity Design, on byte arrays; LLVM's `ByteArrayBuilder`.
#[derive(Clone, Copy, PartialEq, Eq)]
pub struct Spot {
    pub start: u64,
    pub mask: u8,
}

/// The bytes in which all byte arrays stand, and the spot of each set: none where it is no byte array.
#[derive(Drop)]
pub struct Lanes {
    pub bytes: List<u8>,
    pub spots: List<Option<Spot>>,
}

impl Lanes {
    /// Places the byte arrays, those with more bits first, each at the end of the shortest of eight lanes.
    ///
    /// A lane is one bit of each byte. More than 16,777,216 bytes are refused, with the word `bits` and no place.
    ///
    /// Source: LLVM's `ByteArrayBuilder`, which takes the arrays in the same order.
    pub fn place(alloc: Global, sets: &[BitSet]) -> Result<Lanes, Fault>
        requires { All IsSet sets.now }
        ensures { spec.ArePlaced sets.now result }
    {
        match lanes_of(alloc, sets)? {
            Some(lanes) => Ok(lanes),
            None => Err(too_many_bytes(alloc)),
        }
    }
}

// The lanes, if they are not too long.
fn lanes_of(alloc: Global, sets: &[BitSet]) -> Result<Option<Lanes>, Memory>
    requires { All IsSet sets.now }
    ensures { IfOk result (λ lanes. MatchOption lanes (spec.most_bytes < spec.byte_count sets.now)
        (λ l. (l ≡ spec.lanes_of sets.now) × (spec.byte_count sets.now ≤ spec.most_bytes))) }
{
    let order = array_order(alloc, sets)?;
    match fill(alloc, sets, order.as_slice())? {
        Some(filling) => Ok(Some(filled_lanes(alloc, sets, &filling)?)),
        None => Ok(None),
    }
}

// The bytes and spots of what was placed.
fn filled_lanes(alloc: Global, sets: &[BitSet], filling: &Filling) -> Result<Lanes, Memory>
    requires { All (λ one. one.number < length sets.now) filling.now.stood }
    ensures { IfOk result (λ lanes. lanes ≡ spec.lanes_from sets.now filling.now) }
{
    let count = greatest(filling.lengths.items());
    Ok(Lanes {
        bytes: bytes_of(alloc, sets, filling.stood.items(), count)?,
        spots: spots_of(alloc, sets.len(), filling.stood.items())?,
    })
}

// The refusal of more bytes than the limit.
fn too_many_bytes(alloc: Global) -> Fault
    ensures { spec.IsTooMany result }
{
    match Text::copy(alloc, b"bits") {
        Ok(word) => Fault::Refused(Refusal {
            code: Code::E12,
            place: Place {
                file: 0,
                line: 0,
                column: 0,
            },
            word,
        }),
        Err(Memory) => Fault::Memory,
    }
}
