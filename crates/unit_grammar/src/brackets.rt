ghost use Rattle.std.specs.Prelude.{◌≡◌, ◌^◌, ◌<◌, drop};
ghost use Rattle.unit_grammar.specs.Grammar.{open_behind};
ghost use Rattle.unit_grammar.specs.Readers.{enclosed_read};
ghost use Rattle.unit_grammar.specs.Seeing.{Passes, seen_piece, tokens};
ghost use Rattle.unit_grammar.specs.Signs as spec;

use crate::input::Input;
use crate::seen::Seen;
use crate::stop::Stop;
use crate::tokens::{is_text, mark};
use ir_lex::Kind;

fn open_behind(seen: &Seen<'_>, opening: &[u8], closing: &[u8], others: usize) -> usize
    requires { others < 2 ^ 63 }
    ensures { result ≡ open_behind (spec.mark opening.now) (spec.mark closing.now) others (seen_piece seen.now) }
{
    if is_text(seen, Kind::Mark, opening) {
        return others + 2;
    }
    if is_text(seen, Kind::Mark, closing) {
        return others;
    }
    others + 1
}

/// All from a mark to the one that closes it; the answer is the place behind it. No other marks are counted.
pub fn enclosed(input: &Input<'_>, at: usize, opening: &[u8], closing: &[u8]) -> Result<usize, Stop>
    ensures { Passes (tokens input.now) result (enclosed_read (spec.mark opening.now) (spec.mark closing.now) (drop at (tokens input.now))) }
{
    let mut at = mark(input, at, opening)?;
    let mut others = 0;
    while let Some(seen) = input.at(at) {
        at += 1;
        let count = open_behind(&seen, opening, closing, others);
        if count == 0 {
            return Ok(at);
        }
        others = count - 1;
    }
    Err(Stop::Absent)
}
