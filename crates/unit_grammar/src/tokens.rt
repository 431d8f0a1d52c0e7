ghost use Rattle.std.specs.Prelude.{◌≡◌, drop, map};
ghost use Rattle.std.specs.List.{list_any};
ghost use Rattle.std.specs.Str.{bytes_eq};
ghost use Rattle.unit_grammar.specs.Readers.{past, piece_read, token_read};
ghost use Rattle.unit_grammar.specs.Seeing.{Gives, GivesPiece, Passes, seen_piece, tokens};
ghost use Rattle.unit_grammar.specs.Signs as spec;
ghost use Rattle.unit_grammar.specs.Attachments.{meta_kind, meta_node};

use crate::bytes::are_digits;
use crate::escapes::{bare_name, either_name, without_first};
use crate::input::Input;
use crate::seen::Seen;
use crate::stop::Stop;
use ir_lex::Kind;
use ltt_base::Text;
use std::alloc::Global;

/// Whether a token is of the kind.
pub fn is_kind(seen: &Seen<'_>, kind: Kind) -> bool
    ensures { result ≡ spec.is_kind kind (seen_piece seen.now) }
{
    seen.kind as u8 == kind as u8
}

/// Whether these bytes are one of the texts.
pub fn is_one_of(bytes: &[u8], texts: &[&str]) -> bool
    ensures { result ≡ list_any (bytes_eq bytes.now) (map (λ text. text.now) texts.now) }
{
    for text in texts {
        if bytes == text.as_bytes() {
            return true;
        }
    }
    false
}

/// Whether a token is of the kind and has these bytes.
pub fn is_text(seen: &Seen<'_>, kind: Kind, bytes: &[u8]) -> bool
    ensures { result ≡ spec.passes (spec.of_text kind bytes.now) (seen_piece seen.now) }
{
    is_kind(seen, kind) && seen.bytes == bytes
}

fn text(input: &Input<'_>, at: usize, kind: Kind, bytes: &[u8]) -> Result<usize, Stop>
    ensures { Passes (tokens input.now) result (past (spec.of_text kind bytes.now) (drop at (tokens input.now))) }
{
    match input.at(at) {
        Some(seen) => {
            if is_text(&seen, kind, bytes) {
                Ok(at + 1)
            } else {
                Err(Stop::Absent)
            }
        }
        None => Err(Stop::Absent),
    }
}

/// A mark with these bytes; the answer is the place behind it.
pub fn mark(input: &Input<'_>, at: usize, bytes: &[u8]) -> Result<usize, Stop>
    ensures { Passes (tokens input.now) result (past (spec.mark bytes.now) (drop at (tokens input.now))) }
{
    text(input, at, Kind::Mark, bytes)
}

/// A word with these bytes; the answer is the place behind it.
pub fn word(input: &Input<'_>, at: usize, bytes: &[u8]) -> Result<usize, Stop>
    ensures { Passes (tokens input.now) result (past (spec.word bytes.now) (drop at (tokens input.now))) }
{
    text(input, at, Kind::Word, bytes)
}

/// A token of the kind, with any bytes.
pub fn of_kind<'a>(input: &Input<'a>, at: usize, kind: Kind) -> Result<(Seen<'a>, usize), Stop>
    ensures { GivesPiece (tokens input.now) result (piece_read (spec.of_kind kind) (drop at (tokens input.now))) }
{
    match input.at(at) {
        Some(seen) => {
            if is_kind(&seen, kind) {
                Ok((seen, at + 1))
            } else {
                Err(Stop::Absent)
            }
        }
        None => Err(Stop::Absent),
    }
}

/// Whether a token is a word and one of these.
pub fn is_word_of(seen: &Seen<'_>, texts: &[&str]) -> bool
    ensures { result ≡ spec.passes (spec.words (map (λ text. text.now) texts.now)) (seen_piece seen.now) }
{
    is_kind(seen, Kind::Word) && is_one_of(seen.bytes, texts)
}

/// A token of the kind, with any bytes; the answer is the place behind it.
pub fn pass_kind(input: &Input<'_>, at: usize, kind: Kind) -> Result<usize, Stop>
    ensures { Passes (tokens input.now) result (past (spec.of_kind kind) (drop at (tokens input.now))) }
{
    match input.at(at) {
        Some(seen) => {
            if is_kind(&seen, kind) {
                Ok(at + 1)
            } else {
                Err(Stop::Absent)
            }
        }
        None => Err(Stop::Absent),
    }
}

/// A word that is one of these; the answer is the place behind it.
pub fn pass_word(input: &Input<'_>, at: usize, texts: &[&str]) -> Result<usize, Stop>
    ensures { Passes (tokens input.now) result
        (past (spec.words (map (λ text. text.now) texts.now)) (drop at (tokens input.now))) }
{
    match input.at(at) {
        Some(seen) => {
            if is_word_of(&seen, texts) {
                Ok(at + 1)
            } else {
                Err(Stop::Absent)
            }
        }
        None => Err(Stop::Absent),
    }
}

/// A word that is one of these.
pub fn word_of<'a>(input: &Input<'a>, at: usize, texts: &[&str]) -> Result<(Seen<'a>, usize), Stop>
    ensures { GivesPiece (tokens input.now) result
        (piece_read (spec.words (map (λ text. text.now) texts.now)) (drop at (tokens input.now))) }
{
    match input.at(at) {
        Some(seen) => {
            if is_word_of(&seen, texts) {
                Ok((seen, at + 1))
            } else {
                Err(Stop::Absent)
            }
        }
        None => Err(Stop::Absent),
    }
}

/// The name behind the sign of a token of the kind.
fn behind_sign(
    alloc: Global,
    input: &Input<'_>,
    at: usize,
    kind: Kind,
) -> Result<(Text, usize), Stop>
    ensures { Gives (tokens input.now) result (token_read (spec.of_kind kind) spec.behind_sign (drop at (tokens input.now))) }
{
    let (seen, at) = of_kind(input, at, kind)?;
    let name = either_name(alloc, without_first(seen.bytes))?;
    Ok((name, at))
}

/// A global: its name.
pub fn global(alloc: Global, input: &Input<'_>, at: usize) -> Result<(Text, usize), Stop>
    ensures { Gives (tokens input.now) result (token_read (spec.of_kind Kind.Global) (spec.name Kind.Global) (drop at (tokens input.now))) }
{
    behind_sign(alloc, input, at, Kind::Global)
}

/// A local: its name.
pub fn local(alloc: Global, input: &Input<'_>, at: usize) -> Result<(Text, usize), Stop>
    ensures { Gives (tokens input.now) result (token_read (spec.of_kind Kind.Local) (spec.name Kind.Local) (drop at (tokens input.now))) }
{
    behind_sign(alloc, input, at, Kind::Local)
}

fn is_numbered(bytes: &[u8], first: u8) -> bool
    ensures { result ≡ spec.is_numbered first bytes.now }
{
    if bytes.len() < 2 {
        return false;
    }
    bytes[0] == first && are_digits(without_first(bytes))
}

/// Whether a token is of the kind and is this byte and digits.
pub fn is_number(seen: &Seen<'_>, kind: Kind, first: u8) -> bool
    ensures { result ≡ spec.passes (spec.of_number kind first) (seen_piece seen.now) }
{
    is_kind(seen, kind) && is_numbered(seen.bytes, first)
}

/// A token of the kind that is this byte and digits.
pub fn numbered<'a>(
    input: &Input<'a>,
    at: usize,
    kind: Kind,
    first: u8,
) -> Result<(Seen<'a>, usize), Stop>
    ensures { GivesPiece (tokens input.now) result (piece_read (spec.of_number kind first) (drop at (tokens input.now))) }
{
    match input.at(at) {
        Some(seen) => {
            if is_number(&seen, kind, first) {
                Ok((seen, at + 1))
            } else {
                Err(Stop::Absent)
            }
        }
        None => Err(Stop::Absent),
    }
}

fn is_meta_kind(seen: &Seen<'_>) -> bool
    ensures { result ≡ spec.passes meta_kind (seen_piece seen.now) }
{
    is_kind(seen, Kind::Meta) && !is_numbered(seen.bytes, b'!')
}

/// A node's number, without the `!` and without leading zeros.
pub fn node(alloc: Global, input: &Input<'_>, at: usize) -> Result<(Text, usize), Stop>
    ensures { Gives (tokens input.now) result (token_read meta_node (spec.name Kind.Meta) (drop at (tokens input.now))) }
{
    let (seen, at) = numbered(input, at, Kind::Meta, b'!')?;
    let digits = Text::copy(alloc, bare_name(without_first(seen.bytes)))?;
    Ok((digits, at))
}

/// The name of a kind of metadata, without the `!`.
pub fn meta_kind(alloc: Global, input: &Input<'_>, at: usize) -> Result<(Text, usize), Stop>
    ensures { Gives (tokens input.now) result (token_read meta_kind (spec.name Kind.Meta) (drop at (tokens input.now))) }
{
    match input.at(at) {
        Some(seen) => {
            if is_meta_kind(&seen) {
                let name = Text::copy(alloc, bare_name(without_first(seen.bytes)))?;
                Ok((name, at + 1))
            } else {
                Err(Stop::Absent)
            }
        }
        None => Err(Stop::Absent),
    }
}
