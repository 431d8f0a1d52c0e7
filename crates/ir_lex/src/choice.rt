//! The kind and the length of the token at the front of some bytes.
ghost use Rattle.std.specs.Prelude.{◌≡◌, ◌<◌, IfSome, IfNone, ◌∷◌, [], length};
ghost use Rattle.std.specs.List.{prefix_len};
ghost use Rattle.ir_lex.specs.Letters.{is_name_byte};
ghost use Rattle.ir_lex.specs.Lengths as lengths;
ghost use Rattle.ir_lex.specs.Choice as spec;
ghost use Rattle.ir_lex.specs.Kinds.{Begins, NoneBegins};

use crate::length::length_of;
use crate::token::Kind;

/// A token to be: its kind and its length.
#[derive(Clone, Copy)]
pub struct Cut {
    pub kind: Kind,
    pub len: usize,
}

/// What a byte can begin: the tokens that can stand at it, if any, are of few kinds.
#[derive(Clone, Copy)]
pub enum First {
    Letter,
    Digit,
    Minus,
    Dollar,
    Dot,
    Quote,
    At,
    Percent,
    Bang,
    Hash,
    Caret,
    Plus,
    Mark,
    Other,
}

#[inline(always)]
#[tactic(auto, unfolding(crate::specs::Choice::first_of))]
fn first_of(byte: u8) -> First
    ensures { result ≡ spec.first_of byte }
{
    match byte {
        b'A'..=b'Z' | b'a'..=b'z' | b'_' => First::Letter,
        b'0'..=b'9' => First::Digit,
        b'-' => First::Minus,
        b'$' => First::Dollar,
        b'.' => First::Dot,
        b'"' => First::Quote,
        b'@' => First::At,
        b'%' => First::Percent,
        b'!' => First::Bang,
        b'#' => First::Hash,
        b'^' => First::Caret,
        b'+' => First::Plus,
        b'=' | b',' | b'(' | b')' | b'{' | b'}' | b'[' | b']' | b'<' | b'>' | b'*' | b':' =>
            First::Mark,
        _ => First::Other,
    }
}

/// Of two cuts the longer, and of two of one length the first.
#[inline(always)]
fn better(cut: Option<Cut>, other: Option<Cut>) -> Option<Cut>
    ensures { result ≡ spec.better cut other }
{
    match (cut, other) {
        (None, other) => other,
        (Some(cut), None) => Some(cut),
        (Some(cut), Some(other)) => {
            if cut.len < other.len {
                Some(other)
            } else {
                Some(cut)
            }
        }
    }
}

/// The longest token of a kind.
#[inline(always)]
fn of_one(kind: Kind, bytes: &[u8], names: usize) -> Option<Cut>
    requires { names ≡ prefix_len is_name_byte bytes.now }
    ensures { result ≡ spec.cut_of kind (lengths.length_of kind bytes.now) }
{
    match length_of(kind, bytes, names) {
        Some(len) => Some(Cut { kind, len }),
        None => None,
    }
}

/// The longest token of two kinds.
#[inline(always)]
fn of_two(a: Kind, b: Kind, bytes: &[u8], names: usize) -> Option<Cut>
    requires { names ≡ prefix_len is_name_byte bytes.now }
    ensures { result ≡ spec.best (a ∷ b ∷ []) bytes.now }
{
    better(of_one(a, bytes, names), of_one(b, bytes, names))
}

/// The longest token of three kinds.
#[inline(always)]
fn of_three(a: Kind, b: Kind, c: Kind, bytes: &[u8], names: usize) -> Option<Cut>
    requires { names ≡ prefix_len is_name_byte bytes.now }
    ensures { result ≡ spec.best (a ∷ b ∷ c ∷ []) bytes.now }
{
    better(of_one(a, bytes, names), of_two(b, c, bytes, names))
}

/// The longest token at the front. `names` bytes of names stand there.
#[tactic(auto, unfolding(crate::specs::Choice::longest))]
fn longest(bytes: &[u8], names: usize) -> Option<Cut>
    requires some { 0 < length bytes.now }
    requires names { names ≡ prefix_len is_name_byte bytes.now }
    ensures { result ≡ spec.longest bytes.now }
{
    match first_of(bytes[0]) {
        First::Letter => of_three(Kind::Word, Kind::Label, Kind::Bytes, bytes, names),
        First::Digit => of_three(Kind::Label, Kind::Number, Kind::Float, bytes, names),
        First::Minus => of_three(Kind::Label, Kind::Number, Kind::Float, bytes, names),
        First::Dollar => of_two(Kind::Label, Kind::Comdat, bytes, names),
        First::Dot => of_two(Kind::Label, Kind::Dots, bytes, names),
        First::Quote => of_two(Kind::Label, Kind::Quoted, bytes, names),
        First::At => of_one(Kind::Global, bytes, names),
        First::Percent => of_one(Kind::Local, bytes, names),
        First::Bang => of_three(Kind::Meta, Kind::MetaText, Kind::Mark, bytes, names),
        First::Hash => of_two(Kind::Group, Kind::HashWord, bytes, names),
        First::Caret => of_one(Kind::SummaryNumber, bytes, names),
        First::Plus => of_one(Kind::Float, bytes, names),
        First::Mark => of_one(Kind::Mark, bytes, names),
        First::Other => None,
    }
}

/// The token at the front, if one begins there. `names` bytes of names stand there.
pub fn front(bytes: &[u8], names: usize) -> Option<Cut>
    requires some { 0 < length bytes.now }
    requires names { names ≡ prefix_len is_name_byte bytes.now }
    ensures found { IfSome result (λ cut. Begins bytes.now cut.kind cut.len) }
    ensures none { IfNone result (NoneBegins bytes.now) }
{
    longest(bytes, names)
}
