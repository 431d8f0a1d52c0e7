// What the readers of the grammar answer at the first token of a text.
ghost use Rattle.std.specs.Prelude.{◌≤◌, length};

use crate::forms::show_form;
use crate::parts::read_part;
use crate::tokens::tokens_of;
use crate::values::{show, show_bare, show_item, show_type};
use head_grammar::{read_declare, read_define, read_variable};
use ir_values::{Const, Form, MetaItem, Ty, Width};
use ltt_base::{List, Memory, Text};
use module_grammar::{
    read_attributes, read_close, read_comdat, read_entry, read_header, read_label, read_left_unit,
    read_metadata, read_table, read_type_body, with_type_name,
};
use std::alloc::Global;
use type_grammar::{Bare, at_type, read_constant, read_own_items, read_type};
use unit_grammar::{Input, Stop};

// the body of a type with a name
fn named_type(alloc: Global, input: &Input<'_>) -> Result<(Form, usize), Stop> {
    let name = Text::copy(alloc, b"a")?;
    match read_type_body(alloc, input, 0) {
        Ok((form, behind)) => Ok((with_type_name(name, form), behind)),
        Err(stop) => Err(stop),
    }
}

fn form(alloc: Global, name: &str, input: &Input<'_>) -> Result<(Form, usize), Stop> {
    match name {
        "declare" => read_declare(alloc, input, 0),
        "define" => read_define(alloc, input, 0),
        "variable" => read_variable(alloc, input, 0),
        "header" => read_header(alloc, input, 0),
        "type-body" => named_type(alloc, input),
        "comdat" => read_comdat(alloc, input, 0),
        "attributes" => read_attributes(alloc, input, 0),
        "label" => read_label(alloc, input, 0),
        "close" => read_close(input, 0),
        "metadata" => read_metadata(alloc, input, 0),
        "table" => read_table(alloc, input, 0),
        "entry" => read_entry(alloc, input, 0),
        _ => read_left_unit(alloc, input, 0),
    }
}

fn tell_form(
    alloc: Global,
    out: &mut Text,
    read: Result<(Form, usize), Stop>,
) -> Result<usize, Stop> {
    match read {
        Ok((form, behind)) => {
            show_form(alloc, out, &form)?;
            Ok(behind)
        }
        Err(stop) => Err(stop),
    }
}

fn tell_type(alloc: Global, out: &mut Text, input: &Input<'_>) -> Result<usize, Stop> {
    match read_type(alloc, input, 0) {
        Ok((ty, behind)) => {
            show_type(alloc, out, &ty)?;
            Ok(behind)
        }
        Err(stop) => Err(stop),
    }
}

fn tell_constant(alloc: Global, out: &mut Text, input: &Input<'_>) -> Result<usize, Stop> {
    match read_constant(alloc, input, 0) {
        Ok((bare, behind)) => {
            show_bare(alloc, out, &bare)?;
            Ok(behind)
        }
        Err(stop) => Err(stop),
    }
}

fn show_byte(alloc: Global, out: &mut Text, bare: Bare) -> Result<(), Memory> {
    let constant = at_type(alloc, &Ty::Int(Width::W8), bare)?;
    show(alloc, out, &constant)
}

// a constant behind the type `i8`
fn tell_byte(alloc: Global, out: &mut Text, input: &Input<'_>) -> Result<usize, Stop> {
    match read_constant(alloc, input, 0) {
        Ok((bare, behind)) => {
            show_byte(alloc, out, bare)?;
            Ok(behind)
        }
        Err(stop) => Err(stop),
    }
}

fn show_items(alloc: Global, out: &mut Text, items: &List<MetaItem>) -> Result<(), Memory> {
    for item in items.items() {
        show_item(alloc, out, item)?;
        out.extend(b";")?;
    }
    Ok(())
}

fn tell_items(alloc: Global, out: &mut Text, input: &Input<'_>) -> Result<usize, Stop> {
    match read_own_items(alloc, input, 0) {
        Ok((items, behind)) => {
            show_items(alloc, out, &items)?;
            Ok(behind)
        }
        Err(stop) => Err(stop),
    }
}

fn read(alloc: Global, out: &mut Text, name: &str, input: &Input<'_>) -> Result<usize, Stop> {
    match name {
        "type" => tell_type(alloc, out, input),
        "constant" => tell_constant(alloc, out, input),
        "byte" => tell_byte(alloc, out, input),
        "items" => tell_items(alloc, out, input),
        "linkage" | "other-linkage" | "left-words" | "places" => read_part(alloc, out, name, input),
        "attached" | "head-attached" | "unit-attached" | "global" | "local" => {
            read_part(alloc, out, name, input)
        }
        _ => {
            let read = form(alloc, name, input);
            tell_form(alloc, out, read)
        }
    }
}

/// Tells what stands behind so many tokens.
pub fn tell_rest(out: &mut Text, input: &Input<'_>, behind: usize) -> Result<(), Memory> {
    let rest = input.spelled(behind, input.tokens.len());
    if rest.is_empty() {
        return Ok(());
    }
    out.extend(b" | ")?;
    out.extend(rest)
}

/// Tells why nothing was read.
pub fn tell_stop(out: &mut Text, stop: Stop) -> Result<(), Memory> {
    match stop {
        Stop::Absent => out.extend(b"absent"),
        Stop::Deep => out.extend(b"deep"),
        Stop::Memory => Err(Memory),
    }
}

/// Tells the value that a reader gives, and behind ` | ` the text that it leaves; or that it is `absent` or too `deep`.
pub fn tell(alloc: Global, out: &mut Text, name: &str, text: &[u8]) -> Result<(), Memory>
    requires { length text.now ≤ 67_108_864 }
{
    let tokens = tokens_of(alloc, text)?;
    let input = Input {
        text,
        tokens: tokens.items(),
    };
    match read(alloc, out, name, &input) {
        Ok(behind) => tell_rest(out, &input, behind),
        Err(stop) => tell_stop(out, stop),
    }
}

/// Tells whether a reader reads the text.
pub fn tell_levels(alloc: Global, out: &mut Text, name: &str, text: &[u8]) -> Result<(), Memory>
    requires { length text.now ≤ 67_108_864 }
{
    let tokens = tokens_of(alloc, text)?;
    let input = Input {
        text,
        tokens: tokens.items(),
    };
    let mut shown = Text::new(alloc);
    match read(alloc, &mut shown, name, &input) {
        Ok(behind) => {
            out.extend(b"read")?;
            tell_rest(out, &input, behind)
        }
        Err(stop) => tell_stop(out, stop),
    }
}
