//! Reads the text of a file, a number of times over, to units: what docs/speed.md times.
#![tactic(auto)]

ghost use Rattle.std.specs.Prelude.{◌≤◌, length, IfOk};

use anyhow::{Context, bail};
use ir_text::read_units;
use ltt_base::{DiskFiles, Fault, read_file};
use std::alloc::Global;
use std::env;

/// The longest text that is read, in bytes.
const TEXT_LIMIT: usize = 67_108_864;

/// The text, a number of times over.
fn repeated(alloc: Global, text: &[u8], times: usize) -> anyhow::Result<Vec<u8>> {
    let mut long = Vec::new(alloc);
    for _ in 0..times {
        long.extend_from_slice(text)?;
    }
    Ok(long)
}

/// The number of units of a text.
fn units(alloc: Global, text: &[u8]) -> anyhow::Result<usize> {
    if text.len() > TEXT_LIMIT {
        bail!("the text is too long");
    }
    match read_units(alloc, text, 1) {
        Ok(units) => Ok(units.len()),
        Err(Fault::Refused(refusal)) => bail!("{}:{}", refusal.place.line, refusal.place.column),
        Err(Fault::Memory) => bail!("out of memory"),
    }
}

fn main(rt: HostRuntime) -> anyhow::Result<()> {
    let mut words = env::args(&rt)?;
    let name = words.nth(1).context("give a file")?;
    let times = words
        .next()
        .context("and how often to read it")?
        .parse::<usize>()?;
    let mut files = DiskFiles::new(&rt);
    match read_file(rt.alloc(), &mut files, name.as_str(), TEXT_LIMIT) {
        Ok(text) => {
            let long = repeated(rt.alloc(), text.bytes(), times)?;
            println!(&rt; "{} units", units(rt.alloc(), long.as_slice())?)?;
        }
        Err(fault) => bail!("{name}: {fault}"),
    }
    Ok(())
}
