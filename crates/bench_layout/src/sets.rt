ghost use Rattle.std.specs.Prelude.{◌<◌, ◌≤◌, All, IfOk};
ghost use Rattle.bit_sets.specs.BitSet.{AreOffsets, IsSet};

use anyhow::bail;
use bit_sets::{BitSet, Lanes, build};
use ltt_base::{List, Memory};
use std::alloc::Global;

/// The number of words of a set of all but some of so many offsets.
pub fn bits_but_some(alloc: Global, count: u32) -> anyhow::Result<usize>
    requires { count ≤ 16777216 }
{
    let offsets = but_some(alloc, count)?;
    let set = build(alloc, offsets.items())?;
    Ok(set.words.len())
}

/// All but each thousandth offset.
fn but_some(alloc: Global, count: u32) -> Result<List<u64>, Memory>
    requires { count ≤ 16777216 }
    ensures { IfOk result AreOffsets }
{
    let mut offsets = List::new(alloc);
    for offset in 0..count {
        if offset % 1000 != 7 {
            offsets.add(u64::from(offset))?;
        }
    }
    Ok(offsets)
}

/// The set of these offsets.
fn set_of(alloc: Global, offsets: &[u64]) -> Result<BitSet, Memory>
    requires { AreOffsets offsets.now }
    ensures { IfOk result IsSet }
{
    let set = build(alloc, offsets)?;
    Ok(set)
}

/// The number of bytes in which so many byte arrays stand.
pub fn many_arrays(alloc: Global, count: u32) -> anyhow::Result<usize> {
    let sets = arrays(alloc, count)?;
    match Lanes::place(alloc, sets.items()) {
        Ok(lanes) => Ok(lanes.bytes.len()),
        Err(fault) => bail!("{fault}"),
    }
}

/// Sets of 66 to 1,065 bits.
fn arrays(alloc: Global, count: u32) -> Result<List<BitSet>, Memory>
    ensures { IfOk result (λ sets. All IsSet sets) }
{
    let mut sets = List::new(alloc);
    for number in 0..count {
        let set = set_of(alloc, &[0, 1, 65 + u64::from(number % 1000)])?;
        sets.add(set)?;
    }
    Ok(sets)
}
