// What is wrong with tables of functions.
ghost use Rattle.std.specs.Prelude.{◌≡◌, IfOk};
ghost use Rattle.std.specs.Option.{option_copied};
ghost use Rattle.check_names.specs.Flaws.{each};
ghost use Rattle.check_items.specs.Tables as spec;

use check_constants::is_declared_intrinsic;
use check_names::{
    Context, Flaw, Space, counts, definition_flaw, named_when, use_flaw, when, worded_when,
};
use ir_values::{Form, Unit};
use ltt_base::{Code, Memory, Placed, Text};
use std::alloc::Global;

fn is_other(form: &Form) -> bool
    ensures { result ≡ spec.is_other form.now }
{
    match form {
        Form::VariableForm { .. } => true,
        Form::TableForm { .. } => true,
        _ => false,
    }
}

fn is_other_in(unit: Option<&Placed<Unit>>) -> bool
    ensures { result ≡ spec.is_other_in (option_copied unit.entry) }
{
    match unit {
        Some(unit) => is_other(&unit.value.form),
        None => false,
    }
}

fn listed_flaw(alloc: Global, context: &Context<'_>, name: &[u8]) -> Result<Option<Flaw>, Memory>
    ensures { IfOk result (λ flaw. flaw ≡ spec.listed_flaw context.now.output context.now.units name.now) }
{
    let used = use_flaw(alloc, context, Space::Globals, name)?;
    let other = is_other_in(context.first_unit(Space::Globals, name));
    let intrinsic = is_declared_intrinsic(context, name);
    let uncalled = named_when(alloc, intrinsic, Code::E07, b"@", name)?;
    Ok(counts(used, counts(when(other, Code::E06), uncalled)))
}

fn all_listed_flaw(
    alloc: Global,
    context: &Context<'_>,
    funcs: &[Text],
) -> Result<Option<Flaw>, Memory>
    ensures { IfOk result (λ flaw. flaw
        ≡ each (spec.listed_flaw context.now.output context.now.units) funcs.now) }
{
    let mut flaw = None;
    for at in (0..funcs.len()).rev() {
        flaw = counts(listed_flaw(alloc, context, funcs[at].bytes())?, flaw);
    }
    Ok(flaw)
}

fn form_flaw(alloc: Global, context: &Context<'_>) -> Result<Option<Flaw>, Memory>
    ensures { IfOk result (λ flaw. flaw ≡ spec.form_flaw context.now.output) }
{
    let source = !context.is_output();
    worded_when(alloc, source, Code::E07, b"jumptable")
}

/// The flaws of a table of functions, the unit at a place. A source has none.
pub fn table_flaw(
    alloc: Global,
    context: &Context<'_>,
    at: usize,
    name: &[u8],
    funcs: &[Text],
) -> Result<Option<Flaw>, Memory>
    ensures { IfOk result (λ flaw. flaw
        ≡ spec.table_flaw context.now.output context.now.units at name.now funcs.now) }
{
    let form = form_flaw(alloc, context)?;
    let named = definition_flaw(alloc, context, at, Space::Globals, name)?;
    let listed = all_listed_flaw(alloc, context, funcs)?;
    Ok(counts(form, counts(named, listed)))
}
