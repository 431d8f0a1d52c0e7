// Readers that pass over words, and bytes without their quotes.
ghost use Rattle.std.specs.Prelude.{◌≤◌, length};

use crate::reading::{tell_rest, tell_stop};
use crate::tokens::tokens_of;
use ir_lex::Kind;
use ltt_base::{Memory, Text};
use std::alloc::Global;
use unit_grammar::{Input, Stop, either_name, enclosed, of_kind, unquoted, word, word_of};
use word_grammar::{
    attribute_run, call_run, comdat, dropped_attachments, dropped_run, dropped_word, function_run,
    instruction_run, item_run, next_placed, placed, section,
};

fn behind<T: Drop>(read: Result<(T, usize), Stop>) -> Result<usize, Stop> {
    match read {
        Ok((_value, behind)) => Ok(behind),
        Err(stop) => Err(stop),
    }
}

fn token(input: &Input<'_>, name: &str) -> Result<usize, Stop> {
    match name {
        "a-word" => behind(of_kind(input, 0, Kind::Word)),
        "nuw" => word(input, 0, b"nuw"),
        "one-of-nsw" => behind(word_of(input, 0, &["nsw"])),
        "one-of-nsw-nuw" => behind(word_of(input, 0, &["nsw", "nuw"])),
        "parentheses" => enclosed(input, 0, b"(", b")"),
        "brackets" => enclosed(input, 0, b"[", b"]"),
        _ => Err(Stop::Absent),
    }
}

fn run(input: &Input<'_>, name: &str) -> Result<usize, Stop> {
    match name {
        "attributes" => attribute_run(input, 0),
        "item" => item_run(input, 0),
        "call" => call_run(input, 0),
        "function" => function_run(input, 0),
        "instruction" => instruction_run(input, 0),
        "any" => dropped_run(input, 0),
        "one" => dropped_word(input, 0),
        "attached" => dropped_attachments(input, 0),
        "align" => next_placed(input, 0),
        "placed" => placed(input, 0),
        "section" => section(input, 0),
        "comdat" => comdat(input, 0),
        _ => token(input, name),
    }
}

/// Tells `passed`, and behind ` | ` the text that is left.
pub fn tell(alloc: Global, out: &mut Text, name: &str, text: &[u8]) -> Result<(), Memory>
    requires { length text.now ≤ 67_108_864 }
{
    let tokens = tokens_of(alloc, text)?;
    let input = Input {
        text,
        tokens: tokens.items(),
    };
    match run(&input, name) {
        Ok(behind) => {
            out.extend(b"passed")?;
            tell_rest(out, &input, behind)
        }
        Err(stop) => tell_stop(out, stop),
    }
}

/// Tells the bytes of a quoted text, or of a name that may be a number.
pub fn tell_spelled(alloc: Global, out: &mut Text, name: &str, text: &[u8]) -> Result<(), Memory> {
    let spelled = match name {
        "quoted" => unquoted(alloc, text)?,
        _ => either_name(alloc, text)?,
    };
    out.extend(spelled.bytes())
}
