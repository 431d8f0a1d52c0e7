//! Lays out made identifiers, or makes sets of made offsets: what docs/speed.md times.
#![tactic(auto)]

mod ids;
mod sets;

ghost use Rattle.std.specs.Prelude.{◌<◌, ◌≤◌};

use anyhow::{Context, bail};
use ids::{chain, groups, one_id, pairs_of_pairs, random_ids};
use sets::{bits_but_some, many_arrays};
use std::alloc::Global;
use std::env;

/// The most objects, offsets or sets.
const MOST: u32 = 16_777_216;

/// A number of what was made, of so many objects, offsets or sets.
fn figure(alloc: Global, word: &str, count: u32) -> anyhow::Result<usize>
    requires some { 0 < count }
    requires few { count ≤ 16777216 }
{
    match word {
        "random" => groups(alloc, &random_ids(alloc, count)?, count),
        "chain" => groups(alloc, &chain(alloc, count)?, count),
        "pairs" => groups(alloc, &pairs_of_pairs(alloc, count)?, count),
        "one" => groups(alloc, &one_id(alloc, count)?, count),
        "set" => bits_but_some(alloc, count),
        "lanes" => many_arrays(alloc, count),
        _ => bail!("{word} is nothing to make"),
    }
}

fn main(rt: HostRuntime) -> anyhow::Result<()> {
    let mut words = env::args(&rt)?;
    let count = words
        .nth(1)
        .context("give a number of objects, offsets or sets")?
        .parse::<u32>()?;
    if count == 0 || count > MOST {
        bail!("give a number from 1 to {MOST}");
    }
    for word in words {
        let made = figure(rt.alloc(), word.as_str(), count)?;
        println!(&rt; "{word}: {made}")?;
    }
    Ok(())
}
