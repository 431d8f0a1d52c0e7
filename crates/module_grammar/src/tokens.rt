ghost use Rattle.std.specs.Prelude.{drop};
ghost use Rattle.ir_lex.specs.declared.token.Kind.{Kind};
ghost use Rattle.unit_grammar.specs.Readers.{past, token_read};
ghost use Rattle.unit_grammar.specs.Seeing.{Gives, Passes, tokens};
ghost use Rattle.unit_grammar.specs.Signs as spec;

use ir_lex::Kind;
use unit_grammar::{Input, Stop, is_text};

/// A mark with these bytes: where it ends in the text.
pub fn mark_end(input: &Input<'_>, at: usize, bytes: &[u8]) -> Result<(usize, usize), Stop>
    ensures { Gives (tokens input.now) result (token_read (spec.mark bytes.now) (λ t. t.end) (drop at (tokens input.now))) }
{
    match input.at(at) {
        Some(seen) => {
            if is_text(&seen, Kind::Mark, bytes) {
                Ok((seen.end, at + 1))
            } else {
                Err(Stop::Absent)
            }
        }
        None => Err(Stop::Absent),
    }
}

/// A number that is written so; the answer is the place behind it.
pub fn written_number(input: &Input<'_>, at: usize, bytes: &[u8]) -> Result<usize, Stop>
    ensures { Passes (tokens input.now) result (past (spec.of_text Kind.Number bytes.now) (drop at (tokens input.now))) }
{
    match input.at(at) {
        Some(seen) => {
            if is_text(&seen, Kind::Number, bytes) {
                Ok(at + 1)
            } else {
                Err(Stop::Absent)
            }
        }
        None => Err(Stop::Absent),
    }
}
