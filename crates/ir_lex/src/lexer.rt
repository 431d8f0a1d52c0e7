//! The tokens of a text, one by one.
ghost use Rattle.std.specs.Prelude.{◌≡◌, ◌+◌, ◌≤◌, length, drop};
ghost use Rattle.std.specs.List.{prefix_len};
ghost use Rattle.ir_lex.specs.Letters.{is_name_byte};
ghost use Rattle.ir_lex.specs.Reader.{Gives};
ghost use Rattle.ir_lex.specs.Steps.{EndsNames};

use crate::choice::front;
use crate::class::{Class, run_len};
use crate::gap::gap_end;
use crate::place::place_of;
use crate::token::Token;
use ltt_base::Place;
use std::marker::Model;

/// A text that is read token by token, from the first to the last. It takes no memory.
///
/// `names` is the end of the run of bytes of names that was measured last, so that a run that is no label is
/// measured once and not at each token in it.
#[derive(Drop)]
pub struct Lexer<'a> {
    text: &'a [u8],
    at: usize,
    place: Place,
    names: usize,
}

impl<'a> Model for Lexer<'a> {
    ghost use Rattle.ir_lex.specs.Reader.{Reader};
    ghost use Rattle.ir_lex.specs.Steps.{IsReady};

    ghost Value = { Reader };

    ghost view = { λ lexer. record { file = lexer.place.file; text = lexer.text.now; at = lexer.at } };

    ghost invariant = { λ lexer. IsReady lexer.text.now lexer.at lexer.place lexer.names };
}

/// The end of the run of bytes of names at an offset, where that of the run at an offset before it is known.
#[tactic(auto, using(crate::proofs::NameLemmas::name_rules))]
fn names_end(text: &[u8], before: usize, at: usize, names: usize) -> usize
    requires order { before ≤ at }
    requires within { at ≤ length text.now }
    requires names { EndsNames text.now before names }
    ensures end { result ≡ at + prefix_len is_name_byte (drop at text.now) }
{
    if at < names {
        return names;
    }
    at + run_len(&text[at..], Class::NameByte)
}

impl<'a> Lexer<'a> {
    /// A reader at the start of a text. `file` is the number that its places carry.
    pub fn new(text: &'a [u8], file: u32) -> Lexer<'a>
        requires { length text.now ≤ 67_108_864 }
        ensures { result ≡ record { file = file; text = text.now; at = 0 } }
    {
        Lexer {
            text,
            at: 0,
            place: Place {
                file,
                line: 1,
                column: 1,
            },
            names: 0,
        }
    }

    /// The next token, the longest at its place; of two kinds as long, the one that `Kind` lists first.
    ///
    /// Spans are bytes from the start of the text. A place counts lines, and bytes in a line, from 1.
    /// `None`: only blanks and comments are left. `Err`: no token begins at that place. After either, each later
    /// call answers the same.
    ///
    /// Source: LLVM Language Reference, "Identifiers" and "String constants", without what docs/language.md leaves out.
    pub fn next(&mut self) -> Result<Option<Token>, Place>
        ensures { Gives self.old result self.new }
    {
        let text = self.text;
        let (start, place) = gap_end(text, self.at, self.place);
        if start == text.len() {
            return Ok(None);
        }
        let names = names_end(text, self.at, start, self.names);
        let Some(cut) = front(&text[start..], names - start) else {
            return Err(place);
        };
        let end = start + cut.len;
        self.at = end;
        self.place = place_of(text, start, end, place);
        self.names = names;
        Ok(Some(Token {
            kind: cut.kind,
            start,
            end,
            place,
        }))
    }
}
