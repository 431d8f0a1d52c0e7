ghost use Rattle.std.specs.Prelude.{◌≡◌, ◌-◌, drop, length, map, take};
ghost use Rattle.module_grammar.specs.Items as spec;
ghost use Rattle.type_grammar.specs.Levels.{levels};
ghost use Rattle.type_grammar.specs.Reading.{reads};
ghost use Rattle.unit_grammar.specs.Readers.{read};
ghost use Rattle.unit_grammar.specs.Seeing.{Gives, tokens};

use ir_lex::Kind;
use ir_values::Form;
use ltt_base::Text;
use std::alloc::Global;
use type_grammar::read_type;
use unit_grammar::{
    Input, Stop, bare_name, either_name, enclosed, mark, of_kind, pass_word, unquoted,
    without_first, word,
};

#[tactic(auto, unfolding(crate::specs::Items::opaque))]
fn opaque(alloc: Global, input: &Input<'_>, at: usize) -> Result<(Form, usize), Stop>
    ensures { Gives (tokens input.now) result (read (reads levels) spec.opaque (drop at (tokens input.now))) }
{
    let at = word(input, at, b"opaque")?;
    let name = Text::copy(alloc, b"")?;
    Ok((Form::TypeForm { name, ty: None }, at))
}

#[tactic(auto, unfolding(crate::specs::Items::defined))]
fn defined(alloc: Global, input: &Input<'_>, at: usize) -> Result<(Form, usize), Stop>
    ensures { Gives (tokens input.now) result (read (reads levels) spec.defined (drop at (tokens input.now))) }
{
    let (ty, at) = read_type(alloc, input, at)?;
    let name = Text::copy(alloc, b"")?;
    Ok((Form::TypeForm { name, ty: Some(ty) }, at))
}

/// What stands behind the name of a type and its `=`.
#[tactic(auto, unfolding(crate::specs::Items::type_body))]
pub fn type_body(alloc: Global, input: &Input<'_>, at: usize) -> Result<(Form, usize), Stop>
    ensures { Gives (tokens input.now) result (read (reads levels) spec.type_body (drop at (tokens input.now))) }
{
    let at = word(input, at, b"type")?;
    match opaque(alloc, input, at) {
        Err(Stop::Absent) => {}
        found => return found,
    }
    defined(alloc, input, at)
}

/// The form of a type with this name. Another form stays as it is.
pub fn with_type_name(name: Text, form: Form) -> Form
    ensures { result ≡ spec.with_type_name name form }
{
    match form {
        Form::TypeForm { name: _, ty } => Form::TypeForm { name, ty },
        form => form,
    }
}

#[tactic(auto, unfolding(crate::specs::Items::comdat_words))]
fn comdat_words() -> &'static [&'static str]
    ensures { map (λ text. text.now) result.now ≡ spec.comdat_words }
{
    &["any", "exactmatch", "largest", "nodeduplicate", "samesize"]
}

#[tactic(auto, unfolding(crate::specs::Items::comdat))]
pub fn comdat(alloc: Global, input: &Input<'_>, at: usize) -> Result<(Form, usize), Stop>
    ensures { Gives (tokens input.now) result (read (reads levels) spec.comdat (drop at (tokens input.now))) }
{
    let (seen, at) = of_kind(input, at, Kind::Comdat)?;
    let at = mark(input, at, b"=")?;
    let at = word(input, at, b"comdat")?;
    let at = pass_word(input, at, comdat_words())?;
    let name = unquoted(alloc, without_first(seen.bytes))?;
    Ok((Form::ComdatForm { name }, at))
}

#[tactic(auto, unfolding(crate::specs::Items::attributes, crate::specs::Items::group))]
pub fn attributes(alloc: Global, input: &Input<'_>, at: usize) -> Result<(Form, usize), Stop>
    ensures { Gives (tokens input.now) result (read (reads levels) spec.attributes (drop at (tokens input.now))) }
{
    let at = word(input, at, b"attributes")?;
    let (seen, at) = of_kind(input, at, Kind::Group)?;
    let at = mark(input, at, b"=")?;
    let at = enclosed(input, at, b"{", b"}")?;
    let number = Text::copy(alloc, bare_name(without_first(seen.bytes)))?;
    Ok((Form::AttributesForm { number }, at))
}

fn without_last(bytes: &[u8]) -> &[u8]
    ensures { result.now ≡ take (length bytes.now - 1) bytes.now }
{
    match bytes {
        [] => bytes,
        [before @ .., _] => before,
    }
}

#[tactic(auto, unfolding(crate::specs::Items::label))]
pub fn label(alloc: Global, input: &Input<'_>, at: usize) -> Result<(Form, usize), Stop>
    ensures { Gives (tokens input.now) result (read (reads levels) spec.label (drop at (tokens input.now))) }
{
    let (seen, at) = of_kind(input, at, Kind::Label)?;
    let name = either_name(alloc, without_last(seen.bytes))?;
    Ok((Form::LabelForm { name }, at))
}

#[tactic(auto, unfolding(crate::specs::Items::close))]
pub fn close(input: &Input<'_>, at: usize) -> Result<(Form, usize), Stop>
    ensures { Gives (tokens input.now) result (read (reads levels) spec.close (drop at (tokens input.now))) }
{
    let at = mark(input, at, b"}")?;
    Ok((Form::CloseForm, at))
}
