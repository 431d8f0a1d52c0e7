ghost use Rattle.std.specs.Prelude.{◌≡◌, ◌≤◌, ◌⊎◌, slice_range, drop, length};
ghost use Rattle.unit_grammar.specs.Pieces.{spelling};
ghost use Rattle.unit_grammar.specs.Readers.{before};

use crate::seen::Seen;
use ir_lex::Token;

/// A text and its tokens. A token whose bytes don't lie in the text has those of them that do.
#[derive(Drop)]
pub struct Input<'a> {
    pub text: &'a [u8],
    pub tokens: &'a [Token],
}

fn least(a: usize, b: usize) -> usize
    ensures below { result ≤ b }
    ensures one { (result ≡ a) ⊎ ((result ≡ b) × (b ≤ a)) }
{
    if a < b { a } else { b }
}

/// The bytes of a text from one offset up to another, as far as it has them.
fn part(text: &[u8], start: usize, end: usize) -> &[u8]
    ensures { result.now ≡ slice_range text.now start end }
{
    let end = least(end, text.len());
    if start < end {
        return &text[start..end];
    }
    &text[0..0]
}

impl<'a> Input<'a> {
    ghost use Rattle.unit_grammar.specs.Seeing.{Sees, tokens};

    /// The token at a place, from 0.
    pub fn at(&self, at: usize) -> Option<Seen<'a>>
        ensures { Sees (tokens self.now) at result }
    {
        if at < self.tokens.len() {
            let token = self.tokens[at];
            Some(Seen {
                kind: token.kind,
                bytes: part(self.text, token.start, token.end),
                place: token.place,
                start: token.start,
                end: token.end,
                source: self.text,
            })
        } else {
            None
        }
    }

    /// How many tokens stand from a place on.
    pub fn left(&self, at: usize) -> usize
        ensures { result ≡ length (drop at (tokens self.now)) }
    {
        self.tokens.len().saturating_sub(at)
    }

    /// The text from the token at a place up to the one before another place, with the blanks and comments between them.
    pub fn spelled(&self, at: usize, behind: usize) -> &'a [u8]
        ensures { result.now ≡ spelling (before (drop at (tokens self.now)) (drop behind (tokens self.now))) }
    {
        let most = least(behind, self.tokens.len());
        if at < most {
            let first = self.tokens[at];
            let last = self.tokens[most - 1];
            return part(self.text, first.start, last.end);
        }
        &self.text[0..0]
    }
}
