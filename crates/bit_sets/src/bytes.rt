ghost use Rattle.std.specs.Prelude.{◌≡◌, ℕ, ◌+◌, ◌^◌, ◌<◌, ◌≤◌, All, IfOk, length, replicate};
ghost use Rattle.bit_sets.specs.Lanes as spec;
ghost use Rattle.bit_sets.specs.Computing as form;

use crate::filling::Stood;
use crate::lanes::Spot;
use crate::set::{BitSet, is_set};
use ltt_base::{List, Memory};
use std::alloc::Global;

// The bytes in which the placed arrays stand.
pub fn bytes_of(
    alloc: Global,
    sets: &[BitSet],
    stood: &[Stood],
    count: u64,
) -> Result<List<u8>, Memory>
    requires within { All (λ one. one.number < length sets.now) stood.now }
    ensures { IfOk result (λ bytes. bytes ≡ spec.bytes_from (spec.byte_at sets.now stood.now) 0 count) }
{
    let mut bytes = no_bytes(alloc, count)?;
    for at in 0..stood.len() {
        let one = stood[at];
        write(bytes.as_mut_slice(), &sets[one.number], one.spot);
    }
    Ok(List::from_vec(bytes))
}

// Bytes without bits.
fn no_bytes(alloc: Global, count: u64) -> Result<Vec<u8>, Memory>
    ensures { IfOk result (λ bytes. bytes.items ≡ replicate count 0) }
{
    let mut bytes = Vec::new(alloc);
    for _byte in 0..count {
        match bytes.push(0) {
            Ok(()) => {}
            Err(_) => return Err(Memory),
        }
    }
    Ok(bytes)
}

// Puts an array's bits into its bytes.
fn write(bytes: &mut [u8], set: &BitSet, spot: Spot)
    ensures { bytes.new ≡ form.joined (spec.byte_of set.now spot) 0 bytes.old }
{
    for at in spot.start as usize..bytes.len() {
        let bit = at as u64 - spot.start;
        if bit > set.size_m1 {
            return;
        }
        if is_set(set.words.items(), bit) {
            bytes[at] |= spot.mask;
        }
    }
}

// The spot of each set.
pub fn spots_of(alloc: Global, count: usize, stood: &[Stood]) -> Result<List<Option<Spot>>, Memory>
    requires within { All (λ one. one.number < count) stood.now }
    ensures { IfOk result (λ spots. spots ≡ spec.spots_of count stood.now) }
{
    let mut spots = List::new(alloc);
    for _set in 0..count {
        spots.add(None)?;
    }
    for at in 0..stood.len() {
        let one = stood[at];
        spots.set(one.number, Some(one.spot));
    }
    Ok(spots)
}
