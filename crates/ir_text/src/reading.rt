ghost use Rattle.std.specs.Prelude.{◌≤◌, Some, length};
ghost use Rattle.ir_text.specs.Answers.{Answers};
ghost use Rattle.ir_text.specs.Reading.{Adds, UnitsOf};
ghost use Rattle.unit_grammar.specs.Seeing.{Sees, tokens};

use crate::lexing::lex;
use crate::refusals::refused;
use crate::unit::unit;
use ir_values::Unit;
use ltt_base::{Code, Fault, List, Placed};
use std::alloc::Global;
use unit_grammar::{Input, Seen, Stop};

fn add_unit(
    alloc: Global,
    input: &Input<'_>,
    at: usize,
    first: Seen<'_>,
    units: &mut List<Placed<Unit>>,
) -> Result<usize, Fault>
    requires { Sees (tokens input.now) at (Some first) }
    ensures { Adds (tokens input.now) at units.old units.new result }
{
    match unit(alloc, input, at, first) {
        Ok((value, next)) => {
            let placed = Placed {
                place: first.place,
                value,
            };
            if units.push(placed).is_err() {
                return Err(Fault::Memory);
            }
            Ok(next)
        }
        Err(Stop::Absent) => Err(refused(alloc, Code::E02, first.place, first.bytes)),
        Err(Stop::Deep) => Err(refused(alloc, Code::E12, first.place, b"nesting")),
        Err(Stop::Memory) => Err(Fault::Memory),
    }
}

fn units(alloc: Global, input: &Input<'_>) -> Result<List<Placed<Unit>>, Fault>
    ensures { UnitsOf (tokens input.now) result }
{
    let mut units = List::new(alloc);
    let mut at = 0;
    while let Some(first) = input.at(at) {
        at = add_unit(alloc, input, at, first, &mut units)?;
    }
    Ok(units)
}

/// The units of a text, each with the place of its first token. `file` is the number that places carry.
///
/// A unit is the longest text of one that begins at its place, and has at most 64 levels of types and constants. E01
/// comes at the first byte of the text at which no token begins, whose word is the byte as `0xHH`, also behind a token at
/// which no unit stands. Else E02 comes at the first token at which, behind the units before it, no unit stands; its word
/// is the token. Or E12 comes first, where a unit opens a 65th level at its place; its word is `nesting`.
///
/// Source: LLVM Language Reference, "High Level Structure", without what docs/language.md leaves out.
pub fn read_units(alloc: Global, text: &[u8], file: u32) -> Result<List<Placed<Unit>>, Fault>
    requires { length text.now ≤ 67_108_864 }
    ensures { Answers file text.now result }
{
    let tokens = lex(alloc, text, file)?;
    let input = Input {
        text,
        tokens: tokens.items(),
    };
    units(alloc, &input)
}
