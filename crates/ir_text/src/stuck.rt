ghost use Rattle.std.specs.Prelude.{◌≡◌, ℕ, ◌^◌, ◌↔◌, IsTrue, ◌<◌, slice_index};
ghost use Rattle.ir_text.specs.Stuck.{IsOffset, line_behind, column_behind};

use ltt_base::Place;

fn behind(line: u64, column: u64, byte: u8) -> (u64, u64)
    requires line { line < 2 ^ 63 }
    requires column { column < 2 ^ 63 }
    ensures line { result.0 ≡ line_behind line byte }
    ensures column { result.1 ≡ column_behind column byte }
{
    if byte == b'\n' {
        (line + 1, 1)
    } else {
        (line, column + 1)
    }
}

fn is_at(place: Place, line: u64, column: u64) -> bool
    ensures { IsTrue result ↔ (line ≡ place.line) × (column ≡ place.column) }
{
    line == place.line as u64 && column == place.column as u64
}

/// The byte at a place of the text.
pub fn byte_at_place(text: &[u8], file: u32, place: Place) -> u8
    requires { (offset : ℕ) × IsOffset file text.now place offset }
    ensures { (offset : ℕ) × IsOffset file text.now place offset × (result ≡ slice_index text.now offset) }
{
    let mut line = 1;
    let mut column = 1;
    for i in 0..text.len() {
        let byte = text[i];
        if is_at(place, line, column) {
            return byte;
        }
        (line, column) = behind(line, column, byte);
    }
    0
}
