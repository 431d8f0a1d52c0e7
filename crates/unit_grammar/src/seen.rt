use ir_lex::Kind;
use ltt_base::Place;

/// A token with its bytes: those of `source` from `start` up to `end`.
#[derive(Clone, Copy)]
pub struct Seen<'a> {
    pub kind: Kind,
    pub bytes: &'a [u8],
    pub place: Place,
    pub start: usize,
    pub end: usize,
    pub source: &'a [u8],
}
