ghost use Rattle.std.specs.Prelude.{◌≡◌, drop, map, slice_range};
ghost use Rattle.ir_lex.specs.Places.{breaks_line};
ghost use Rattle.module_grammar.specs.Lines as spec;
ghost use Rattle.module_grammar.specs.Reading.{line_rest};
ghost use Rattle.unit_grammar.specs.Seeing.{seen_piece, tokens};

use unit_grammar::{Input, Seen, is_word_of};

/// The bytes of a text from one offset up to another, as far as it has them.
fn part(text: &[u8], start: usize, end: usize) -> &[u8]
    ensures { result.now ≡ slice_range text.now start end }
{
    let end = if end < text.len() { end } else { text.len() };
    if start < end {
        return &text[start..end];
    }
    &text[0..0]
}

fn breaks_line(text: &[u8], start: usize, end: usize) -> bool
    ensures { result ≡ breaks_line text.now start end }
{
    part(text, start, end).iter().any(|byte| *byte == b'\n')
}

fn stops(seen: &Seen<'_>, end: usize, carried: &[&str]) -> bool
    ensures { result ≡ spec.stops (map (λ text. text.now) carried.now) end (seen_piece seen.now) }
{
    breaks_line(seen.source, end, seen.start) && !is_word_of(seen, carried)
}

/// The place of the first token from a place on that stands first on its line and is none of these words; the token before
/// them ends at an offset that is given.
pub fn line_end(input: &Input<'_>, at: usize, end: usize, carried: &[&str]) -> usize
    ensures { drop result (tokens input.now) ≡ line_rest (map (λ text. text.now) carried.now) end (drop at (tokens input.now)) }
{
    let mut at = at;
    let mut end = end;
    while let Some(seen) = input.at(at) {
        if stops(&seen, end, carried) {
            return at;
        }
        end = seen.end;
        at += 1;
    }
    at
}
