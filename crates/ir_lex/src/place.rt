//! Lines and columns.
ghost use Rattle.std.specs.Prelude.{◌≡◌, ◌<◌, ◌≤◌, ◌^◌, length};
ghost use Rattle.std.specs.List.{list_any};
ghost use Rattle.ir_lex.specs.Places as spec;

use ltt_base::Place;

/// The place behind a byte that stands at a place.
#[inline(always)]
pub fn place_behind(place: Place, byte: u8) -> Place
    requires line { place.line < 2 ^ 31 }
    requires column { place.column < 2 ^ 31 }
    ensures { result ≡ spec.place_behind place byte }
{
    if byte == b'\n' {
        return Place {
            file: place.file,
            line: place.line + 1,
            column: 1,
        };
    }
    Place {
        file: place.file,
        line: place.line,
        column: place.column + 1,
    }
}

/// The place of the byte at an offset, from that of a byte before.
#[tactic(auto, using(crate::proofs::PlaceLemmas::place_rules))]
pub fn place_of(text: &[u8], start: usize, end: usize, place: Place) -> Place
    requires size { length text.now ≤ 2 ^ 26 }
    requires order { start ≤ end }
    requires within { end ≤ length text.now }
    requires place { place ≡ spec.place_at place.file text.now start }
    ensures { result ≡ spec.place_at place.file text.now end }
{
    let mut now = place;
    'bytes: for at in start..end {
        now = place_behind(now, text[at]);
    }
    now
}

/// Whether a line ends between two offsets. `lines_tell_first` says how this tells a token that stands first on its line.
pub fn breaks_line(text: &[u8], start: usize, end: usize) -> bool
    requires order { start ≤ end }
    requires within { end ≤ length text.now }
    ensures { result ≡ spec.breaks_line text.now start end }
{
    text[start..end].iter().any(|byte| *byte == b'\n')
}
