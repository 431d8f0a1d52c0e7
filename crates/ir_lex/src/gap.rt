//! Blanks and comments.
ghost use Rattle.std.specs.Prelude.{◌≡◌, ◌≤◌, ◌^◌, length};
ghost use Rattle.ir_lex.specs.Places.{place_at};
ghost use Rattle.ir_lex.specs.Steps as spec;

use crate::class::{Class, is_in};
use crate::place::place_behind;
use ltt_base::Place;

/// Whether a comment is open behind a byte of blanks and comments, if it is one.
#[inline(always)]
fn open_after(inside: bool, byte: u8) -> Option<bool>
    ensures { result ≡ spec.open_after inside byte }
{
    if inside {
        return Some(byte != b'\n');
    }
    if byte == b';' {
        return Some(true);
    }
    if is_in(Class::Blank, byte) {
        return Some(false);
    }
    None
}

/// Where the blanks and comments that begin at an offset end, and the place there.
#[tactic(auto, using(crate::proofs::PlaceLemmas::place_rules))]
pub fn gap_end(text: &[u8], start: usize, place: Place) -> (usize, Place)
    requires size { length text.now ≤ 2 ^ 26 }
    requires within { start ≤ length text.now }
    requires place { place ≡ place_at place.file text.now start }
    ensures end { spec.EndsGap text.now start result.0 }
    ensures place { result.1 ≡ place_at place.file text.now result.0 }
{
    let mut inside = false;
    let mut now = place;
    'bytes: for at in start..text.len() {
        match open_after(inside, text[at]) {
            Some(open) => {
                inside = open;
                now = place_behind(now, text[at]);
            }
            None => return (at, now),
        }
    }
    (text.len(), now)
}
