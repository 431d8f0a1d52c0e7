ghost use Rattle.std.specs.Prelude.{◌≡◌, ℕ, ◌+◌, ◌*◌, ◌^◌, ◌<◌, ◌≤◌, [], length, map, All, OnOk, OnErr, IfOk, MatchOption, slice_index};
ghost use Rattle.bit_sets.specs.BitSet as set;
ghost use Rattle.bit_sets.specs.Lanes as spec;

use crate::lanes::Spot;
use crate::set::{BitSet, Kind, greatest, least};
use ltt_base::{List, Memory};
use std::alloc::Global;

// The most bytes that the byte arrays may take together.
pub const MOST_BYTES: u64 = 16_777_216;

// A byte array that has its place: the set's number, and where its bits are.
#[derive(Clone, Copy)]
pub struct Stood {
    pub number: usize,
    pub spot: Spot,
}

// Eight lanes with the arrays that have their places, the first placed first.
#[derive(Drop)]
pub struct Filling {
    pub lengths: List<u64>,
    pub stood: List<Stood>,
}

// The byte arrays in the order in which they are placed.
pub fn array_order(alloc: Global, sets: &[BitSet]) -> Result<Vec<(u64, usize)>, Memory>
    requires { All (λ set. set.size_m1 < 2 ^ 27) sets.now }
    ensures { IfOk result (λ pairs. pairs.items ≡ spec.array_order sets.now) }
{
    let mut pairs = arrays(alloc, sets)?;
    match pairs.sort() {
        Ok(()) => Ok(pairs),
        Err(_) => Err(Memory),
    }
}

// The byte arrays in given order, each behind its key.
fn arrays(alloc: Global, sets: &[BitSet]) -> Result<Vec<(u64, usize)>, Memory>
    requires { All (λ set. set.size_m1 < 2 ^ 27) sets.now }
    ensures { IfOk result (λ pairs. pairs.items ≡ spec.arrays_from 0 sets.now) }
{
    let mut pairs = Vec::new(alloc);
    for number in 0..sets.len() {
        let set = &sets[number];
        if is_byte_array(set) {
            let key = (1 << 27) - set.size_m1;
            match pairs.push((key, number)) {
                Ok(()) => {}
                Err(_) => return Err(Memory),
            }
        }
    }
    Ok(pairs)
}

fn is_byte_array(set: &BitSet) -> bool
    ensures { result ≡ spec.is_byte_array set.now.kind }
{
    match set.kind {
        Kind::ByteArray => true,
        _ => false,
    }
}

impl Filling {
    // Eight empty lanes.
    fn new(alloc: Global) -> Result<Filling, Memory>
        ensures { IfOk result (λ filling. filling ≡ spec.none_filled) }
    {
        match Vec::from_slice(alloc, &[0, 0, 0, 0, 0, 0, 0, 0]) {
            Ok(lengths) => Ok(Filling {
                lengths: List::from_vec(lengths),
                stood: List::new(alloc),
            }),
            Err(_) => Err(Memory),
        }
    }

    // Places an array at the end of the shortest lane. Without memory the lanes are of no use.
    fn add(&mut self, number: usize, size_m1: u64) -> Result<(), Memory>
        requires lanes { length self.old.lengths ≡ 8 }
        requires lengths { All (λ len. len ≤ spec.most_bytes) self.old.lengths }
        requires small { size_m1 < 2 ^ 27 }
        ensures { OnOk result (self.new ≡ spec.filled_by size_m1 self.old number) }
    {
        let lane = shortest(self.lengths.items());
        let start = self.lengths.items()[lane];
        let spot = Spot {
            start,
            mask: 1 << lane,
        };
        self.lengths.set(lane, start + (size_m1 + 1));
        self.stood.add(Stood { number, spot })
    }
}

// The lanes with all arrays in this order; `None` once a lane is too long.
pub fn fill(
    alloc: Global,
    sets: &[BitSet],
    order: &[(u64, usize)],
) -> Result<Option<Filling>, Memory>
    requires small { All (λ set. set.size_m1 < 2 ^ 27) sets.now }
    requires within { All (λ pair. pair.1 < length sets.now) order.now }
    ensures { let whole = spec.filled_in sets.now order.now in
        IfOk result (λ filling. MatchOption filling (spec.most_bytes < set.greatest whole.lengths)
        (λ f. (f ≡ whole) × (set.greatest whole.lengths ≤ spec.most_bytes))) }
{
    let mut filling = Filling::new(alloc)?;
    for at in 0..order.len() {
        let (_, number) = order[at];
        filling.add(number, sets[number].size_m1)?;
        if greatest(filling.lengths.items()) > MOST_BYTES {
            return Ok(None);
        }
    }
    Ok(Some(filling))
}

// The first of the shortest lanes.
fn shortest(lengths: &[u64]) -> usize
    requires { 0 < length lengths.now }
    ensures here { result ≡ spec.shortest lengths.now }
    ensures within { result < length lengths.now }
{
    let low = least(lengths);
    for lane in 0..lengths.len() {
        if lengths[lane] == low {
            return lane;
        }
    }
    unreachable!()
}
