// A line that is cut behind each of its tokens.
ghost use Rattle.std.specs.Prelude.{◌≤◌, length};

use ir_lex::Lexer;
use ir_text::read_units;
use ltt_base::{Code, Fault, List, Memory, Text};
use std::alloc::Global;

/// `u` where a text is read whole, else the number of the token that is refused: a digit, or a letter from 10 on.
fn answer(alloc: Global, text: &[u8], starts: &[u32]) -> u8 {
    if text.len() > 67_108_864 {
        return b'?';
    }
    match read_units(alloc, text, 9) {
        Ok(_) => b'u',
        Err(Fault::Refused(refusal)) => {
            if refusal.code == Code::E02 {
                token_name(starts, refusal.place.column)
            } else {
                b'?'
            }
        }
        Err(Fault::Memory) => b'?',
    }
}

fn token_name(starts: &[u32], column: u32) -> u8 {
    let mut name = b'0';
    for start in starts {
        if *start == column {
            return name;
        }
        name = if name == b'9' {
            b'a'
        } else {
            name.wrapping_add(1)
        };
    }
    b'?'
}

/// Tells an answer for each token of the line.
pub fn tell(alloc: Global, out: &mut Text, line: &[u8]) -> Result<(), Memory>
    requires { length line.now ≤ 67_108_864 }
{
    let mut starts = List::new(alloc);
    let mut lexer = Lexer::new(line, 9);
    for _ in 0..line.len() {
        match lexer.next() {
            Ok(Some(token)) => {
                starts.add(token.place.column)?;
                let cut = line.get(..token.end).unwrap_or(line);
                out.extend(&[answer(alloc, cut, starts.items())])?;
            }
            _ => return Ok(()),
        }
    }
    Ok(())
}
