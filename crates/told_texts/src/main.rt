//! Tables of calls below `ltt` that need no check of a module: what is read of a text, and how sets, layouts and tables of numbers
//! come out.
#![tactic(auto)]

mod cutting;
mod forms;
mod layouts;
mod making;
mod parts;
mod passing;
mod reading;
mod sets;
mod sizes;
mod telling;
mod tokens;
mod units;
mod values;

use ltt_base::{Memory, Text};
use std::alloc::Global;
use std::{env, fs, io};

/// What a case is told as, where that isn't what it says: the lines behind `--- out`.
fn other(alloc: Global, case: &str) -> Result<Option<Text>, Memory> {
    let mut found = Text::new(alloc);
    let Some((asked, wanted)) = case.split_once("\n--- out") else {
        return Ok(Some(found));
    };
    let Some((_title, asked)) = asked.split_once("\n--- ") else {
        return Ok(Some(found));
    };
    let (call, text) = asked.split_once('\n').unwrap_or((asked, ""));
    telling::tell(alloc, &mut found, call, text)?;
    if found.is_bytes(wanted.strip_prefix('\n').unwrap_or("").as_bytes()) {
        return Ok(None);
    }
    Ok(Some(found))
}

/// Compares the cases of the files that its words name, and prints those that differ.
fn main(rt: HostRuntime) -> io::Result<()> {
    let mut cases = 0u64;
    let mut differ = 0u64;
    for name in env::args(&rt)?.skip(1) {
        let file = fs::read_to_string(&rt, name.as_str())?;
        let table = file.as_str().strip_suffix('\n').unwrap_or("");
        for case in table.split("\n=== ").skip(1) {
            cases = cases.wrapping_add(1);
            match other(rt.alloc(), case) {
                Ok(None) => {}
                Ok(Some(found)) => {
                    differ = differ.wrapping_add(1);
                    let found = str::from_utf8(found.bytes()).unwrap_or("bytes");
                    println!(&rt; "=== {case}\n--- found\n{found}")?;
                }
                Err(Memory) => println!(&rt; "out of memory")?,
            }
        }
    }
    println!(&rt; "{cases} cases, {differ} differ")
}
