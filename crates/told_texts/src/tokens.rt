// The tokens of a text.
ghost use Rattle.std.specs.Prelude.{◌≤◌, length};

use crate::making::push_made;
use ir_lex::{Kind, Lexer, Token};
use ltt_base::{List, Memory, Text};
use std::alloc::Global;

/// The tokens up to the text's end, or to where none begins.
pub fn tokens_of(alloc: Global, text: &[u8]) -> Result<List<Token>, Memory>
    requires { length text.now ≤ 67_108_864 }
{
    let mut lexer = Lexer::new(text, 1);
    let mut tokens = List::new(alloc);
    for _ in 0..text.len() {
        match lexer.next() {
            Ok(Some(token)) => tokens.add(token)?,
            _ => return Ok(tokens),
        }
    }
    Ok(tokens)
}

fn word(kind: Kind) -> &'static str {
    match kind {
        Kind::Word => "Word",
        Kind::Label => "Label",
        Kind::Global => "Global",
        Kind::Local => "Local",
        Kind::Comdat => "Comdat",
        Kind::Meta => "Meta",
        Kind::MetaText => "MetaText",
        Kind::Group => "Group",
        Kind::SummaryNumber => "SummaryNumber",
        Kind::HashWord => "HashWord",
        Kind::Number => "Number",
        Kind::Float => "Float",
        Kind::Quoted => "Quoted",
        Kind::Bytes => "Bytes",
        Kind::Mark => "Mark",
        Kind::Dots => "Dots",
    }
}

fn tell_token(alloc: Global, out: &mut Text, token: &Token) -> Result<(), Memory> {
    let place = token.place;
    let line = format!(in alloc;
        "{} {}-{} {}:{}\n",
        word(token.kind),
        token.start,
        token.end,
        place.line,
        place.column
    );
    push_made(out, line)
}

/// A line for each token: its kind, its bytes and its place. Then where none begins.
pub fn tell(alloc: Global, out: &mut Text, text: &[u8]) -> Result<(), Memory>
    requires { length text.now ≤ 67_108_864 }
{
    let mut lexer = Lexer::new(text, 1);
    for _ in 0..=text.len() {
        match lexer.next() {
            Ok(Some(token)) => tell_token(alloc, out, &token)?,
            Ok(None) => return Ok(()),
            Err(place) => {
                let line = format!(in alloc; "stuck {}:{}\n", place.line, place.column);
                return push_made(out, line);
            }
        }
    }
    Ok(())
}
