ghost use Rattle.std.specs.Prelude.{◌≡◌, ℕ, ◌+◌, ◌<◌, ◌≤◌, ◌/◌, ◌%◌, length};
ghost use Rattle.ir_text.specs.Answers.{byte_word, hex_digit};
ghost use Rattle.ir_text.specs.Lexing.{Lexed, NamesByte, Nexts};
ghost use Rattle.ir_text.specs.Stuck.{IsOffset};

use crate::refusals::refused;
use crate::stuck::byte_at_place;
use ir_lex::{Lexer, Token};
use ltt_base::{Code, Fault, List, Place};
use std::alloc::Global;

fn hex_digit(value: u8) -> u8
    requires { value < 16 }
    ensures { result ≡ hex_digit value }
{
    if value < 10 {
        b'0' + value
    } else {
        b'A' + value - 10
    }
}

fn no_token(alloc: Global, text: &[u8], file: u32, place: Place) -> Fault
    requires { (offset : ℕ) × IsOffset file text.now place offset }
    ensures { NamesByte file text.now place result }
{
    let byte = byte_at_place(text, file, place);
    let word = [b'0', b'x', hex_digit(byte / 16), hex_digit(byte % 16)];
    refused(alloc, Code::E01, place, &word)
}

fn next_token(
    alloc: Global,
    text: &[u8],
    file: u32,
    lexer: &mut Lexer<'_>,
) -> Result<Option<Token>, Fault>
    requires file { lexer.old.file ≡ file }
    requires text { lexer.old.text ≡ text.now }
    ensures { Nexts file text.now lexer.old result lexer.new }
{
    match lexer.next() {
        Ok(token) => Ok(token),
        Err(place) => Err(no_token(alloc, text, file, place)),
    }
}

fn collect(
    alloc: Global,
    text: &[u8],
    file: u32,
    lexer: &mut Lexer<'_>,
) -> Result<List<Token>, Fault>
    requires file { lexer.old.file ≡ file }
    requires text { lexer.old.text ≡ text.now }
    requires start { lexer.old.at ≡ 0 }
    ensures { Lexed file text.now result }
{
    let mut tokens = List::new(alloc);
    'each: loop {
        match next_token(alloc, text, file, lexer) {
            Ok(Some(token)) => {
                if tokens.push(token).is_err() {
                    return Err(Fault::Memory);
                }
            }
            Ok(None) => return Ok(tokens),
            Err(fault) => return Err(fault),
        }
    }
}

/// The tokens of a text. E01 where at a byte no token begins.
pub fn lex(alloc: Global, text: &[u8], file: u32) -> Result<List<Token>, Fault>
    requires { length text.now ≤ 67_108_864 }
    ensures { Lexed file text.now result }
{
    let mut lexer = Lexer::new(text, file);
    collect(alloc, text, file, &mut lexer)
}
