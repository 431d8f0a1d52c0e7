ghost use Rattle.std.specs.Prelude.{◌≡◌, drop};
ghost use Rattle.ir_text.specs.Forms as spec;
ghost use Rattle.ir_text.specs.UnitReaders.{form_read, left_read, number_read};
ghost use Rattle.type_grammar.specs.Levels.{levels};
ghost use Rattle.type_grammar.specs.Reading.{reads};
ghost use Rattle.unit_grammar.specs.Readers.{read};
ghost use Rattle.unit_grammar.specs.Seeing.{Gives, tokens};

use head_grammar::{read_declare, read_define, read_variable};
use instruction_grammar::{action, number, plain_action, with_result};
use ir_values::Form;
use ltt_base::Text;
use module_grammar::{
    read_attributes, read_close, read_comdat, read_entry, read_header, read_label, read_left_unit,
    read_metadata, read_table, read_type_body, with_type_name,
};
use std::alloc::Global;
use unit_grammar::{Input, Stop, local, mark};
use word_grammar::dropped_attachments;

/// `%Name = type ..` and `%r = ..`.
#[tactic(auto, unfolding(crate::specs::Forms::named, crate::specs::Forms::named_body))]
fn named(alloc: Global, input: &Input<'_>, at: usize) -> Result<(Form, usize), Stop>
    ensures { Gives (tokens input.now) result (read (reads levels) spec.named (drop at (tokens input.now))) }
{
    let (name, at) = local(alloc, input, at)?;
    let at = mark(input, at, b"=")?;
    match read_type_body(alloc, input, at) {
        Ok((form, behind)) => return Ok((with_type_name(name, form), behind)),
        Err(Stop::Absent) => {}
        Err(Stop::Deep) => return Err(Stop::Deep),
        Err(Stop::Memory) => return Err(Stop::Memory),
    }
    let (form, behind) = action(alloc, input, at)?;
    Ok((with_result(name, form), behind))
}

#[tactic(auto, unfolding(crate::specs::Forms::body_form))]
fn body_form(alloc: Global, input: &Input<'_>, at: usize) -> Result<(Form, usize), Stop>
    ensures { Gives (tokens input.now) result (read (reads levels) spec.body_form (drop at (tokens input.now))) }
{
    match named(alloc, input, at) {
        Err(Stop::Absent) => {}
        found => return found,
    }
    match action(alloc, input, at) {
        Err(Stop::Absent) => {}
        found => return found,
    }
    match plain_action(alloc, input, at) {
        Err(Stop::Absent) => {}
        found => return found,
    }
    match read_label(alloc, input, at) {
        Err(Stop::Absent) => {}
        found => return found,
    }
    read_close(input, at)
}

#[tactic(auto, unfolding(crate::specs::Forms::module_form))]
fn module_form(alloc: Global, input: &Input<'_>, at: usize) -> Result<(Form, usize), Stop>
    ensures { Gives (tokens input.now) result (read (reads levels) spec.module_form (drop at (tokens input.now))) }
{
    match read_variable(alloc, input, at) {
        Err(Stop::Absent) => {}
        found => return found,
    }
    match read_metadata(alloc, input, at) {
        Err(Stop::Absent) => {}
        found => return found,
    }
    match read_define(alloc, input, at) {
        Err(Stop::Absent) => {}
        found => return found,
    }
    match read_declare(alloc, input, at) {
        Err(Stop::Absent) => {}
        found => return found,
    }
    match read_attributes(alloc, input, at) {
        Err(Stop::Absent) => {}
        found => return found,
    }
    match read_comdat(alloc, input, at) {
        Err(Stop::Absent) => {}
        found => return found,
    }
    match read_header(alloc, input, at) {
        Err(Stop::Absent) => {}
        found => return found,
    }
    read_table(alloc, input, at)
}

#[tactic(auto, unfolding(crate::specs::Forms::form))]
fn told_form(alloc: Global, input: &Input<'_>, at: usize) -> Result<(Form, usize), Stop>
    ensures { Gives (tokens input.now) result (read (reads levels) spec.form (drop at (tokens input.now))) }
{
    match body_form(alloc, input, at) {
        Err(Stop::Absent) => {}
        found => return found,
    }
    module_form(alloc, input, at)
}

/// The form that begins at a place, but for the number of a pointer and what is left out.
#[tactic(auto, unfolding(crate::specs::UnitReaders::form_read))]
pub fn form(alloc: Global, input: &Input<'_>, at: usize) -> Result<(Form, usize), Stop>
    ensures { Gives (tokens input.now) result (form_read (drop at (tokens input.now))) }
{
    match told_form(alloc, input, at) {
        Err(Stop::Absent) => {}
        found => return found,
    }
    read_entry(alloc, input, at)
}

#[tactic(auto, unfolding(crate::specs::Forms::result_name))]
fn result_name(alloc: Global, input: &Input<'_>, at: usize) -> Result<(Option<Text>, usize), Stop>
    ensures { Gives (tokens input.now) result (read (reads levels) spec.result_name (drop at (tokens input.now))) }
{
    match local(alloc, input, at) {
        Ok((name, behind)) => match mark(input, behind, b"=") {
            Ok(last) => Ok((Some(name), last)),
            Err(Stop::Absent) => Ok((None, at)),
            Err(Stop::Deep) => Err(Stop::Deep),
            Err(Stop::Memory) => Err(Stop::Memory),
        },
        Err(Stop::Absent) => Ok((None, at)),
        Err(Stop::Deep) => Err(Stop::Deep),
        Err(Stop::Memory) => Err(Stop::Memory),
    }
}

fn with_maybe_result(name: Option<Text>, form: Form) -> Form
    ensures { result ≡ spec.with_maybe_result name form }
{
    match name {
        Some(name) => with_result(name, form),
        None => form,
    }
}

#[tactic(auto, unfolding(crate::specs::Forms::number_head))]
fn number_head(alloc: Global, input: &Input<'_>, at: usize) -> Result<(Form, usize), Stop>
    ensures { Gives (tokens input.now) result (read (reads levels) spec.number_head (drop at (tokens input.now))) }
{
    let (name, at) = result_name(alloc, input, at)?;
    let (form, at) = number(alloc, input, at)?;
    Ok((with_maybe_result(name, form), at))
}

#[tactic(auto, unfolding(crate::specs::Forms::number_form))]
fn number_form(alloc: Global, input: &Input<'_>, at: usize) -> Result<(Form, usize), Stop>
    ensures { Gives (tokens input.now) result (read (reads levels) spec.number_form (drop at (tokens input.now))) }
{
    let (form, at) = number_head(alloc, input, at)?;
    let at = dropped_attachments(input, at)?;
    Ok((form, at))
}

/// The number of a pointer that begins at a place. One that opens too many levels is none.
#[tactic(auto, unfolding(crate::specs::UnitReaders::number_read))]
pub fn flat_number(alloc: Global, input: &Input<'_>, at: usize) -> Result<(Form, usize), Stop>
    ensures { Gives (tokens input.now) result (number_read (drop at (tokens input.now))) }
{
    match number_form(alloc, input, at) {
        Ok((form, behind)) => Ok((form, behind)),
        Err(Stop::Absent) => Err(Stop::Absent),
        Err(Stop::Deep) => Err(Stop::Absent),
        Err(Stop::Memory) => Err(Stop::Memory),
    }
}

/// What is left out and begins at a place.
#[tactic(auto, unfolding(crate::specs::UnitReaders::left_read))]
pub fn left(alloc: Global, input: &Input<'_>, at: usize) -> Result<(Form, usize), Stop>
    ensures { Gives (tokens input.now) result (left_read (drop at (tokens input.now))) }
{
    read_left_unit(alloc, input, at)
}
