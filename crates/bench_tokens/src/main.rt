//! Counts the tokens of a file: what docs/speed.md times.
#![tactic(auto)]

ghost use Rattle.std.specs.Prelude.{◌≤◌, length};

use anyhow::{Context, bail};
use ir_lex::Lexer;
use ltt_base::{DiskFiles, read_file};
use std::env;

/// The longest text that the lexer takes, in bytes.
const TEXT_LIMIT: usize = 67_108_864;

/// The number of tokens before the end of the text, or before the first byte at which none begins.
fn tokens(text: &[u8]) -> usize
    requires { length text.now ≤ 67_108_864 }
{
    let mut lexer = Lexer::new(text, 1);
    for count in 0..text.len() {
        match lexer.next() {
            Ok(Some(_)) => {}
            _ => return count,
        }
    }
    text.len()
}

fn main(rt: HostRuntime) -> anyhow::Result<()> {
    let mut words = env::args(&rt)?;
    let name = words.nth(1).context("give a file")?;
    let mut files = DiskFiles::new(&rt);
    match read_file(rt.alloc(), &mut files, name.as_str(), TEXT_LIMIT) {
        Ok(text) => println!(&rt; "{} tokens", tokens(text.bytes()))?,
        Err(fault) => bail!("{name}: {fault}"),
    }
    Ok(())
}
