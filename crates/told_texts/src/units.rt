// The units of a text.
ghost use Rattle.std.specs.Prelude.{◌≤◌, length};

use crate::making::push_made;
use ir_text::read_units;
use ir_values::{Form, Unit};
use ltt_base::{Code, Fault, List, Memory, Placed, Refusal, Text};
use std::alloc::Global;

fn word(code: Code) -> &'static str {
    match code {
        Code::E01 => "E01",
        Code::E02 => "E02",
        Code::E12 => "E12",
        _ => "another code",
    }
}

fn tell_refusal(alloc: Global, out: &mut Text, refusal: &Refusal) -> Result<(), Memory> {
    let place = refusal.place;
    let line = format!(in alloc;
        "refused {} {}:{}:{} ",
        word(refusal.code),
        place.file,
        place.line,
        place.column
    );
    push_made(out, line)?;
    out.extend(refusal.word.bytes())
}

/// Tells how many units a text has, or why it is refused.
pub fn tell(alloc: Global, out: &mut Text, text: &[u8]) -> Result<(), Memory>
    requires { length text.now ≤ 67_108_864 }
{
    match read_units(alloc, text, 9) {
        Ok(units) => push_made(out, format!(in alloc; "{} units", units.len())),
        Err(Fault::Refused(refusal)) => tell_refusal(alloc, out, &refusal),
        Err(Fault::Memory) => Err(Memory),
    }
}

fn sort(units: &List<Placed<Unit>>) -> &'static str {
    match units.items() {
        [unit] => match &unit.value.form {
            Form::NumberForm { .. } => "number",
            Form::TableForm { .. } => "table",
            Form::LeftForm { .. } => "left",
            _ => "other",
        },
        _ => "not one unit",
    }
}

/// Tells the sort of a text's only unit.
pub fn tell_sort(alloc: Global, out: &mut Text, text: &[u8]) -> Result<(), Memory>
    requires { length text.now ≤ 67_108_864 }
{
    match read_units(alloc, text, 9) {
        Ok(units) => out.extend(sort(&units).as_bytes()),
        Err(Fault::Refused(refusal)) => tell_refusal(alloc, out, &refusal),
        Err(Fault::Memory) => Err(Memory),
    }
}
