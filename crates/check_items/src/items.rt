// Units that stand outside all bodies.
ghost use Rattle.std.specs.Prelude.{◌≡◌, ◌<◌, length, slice_get, Some, IfOk};
ghost use Rattle.std.specs.Option.{option_copied};
ghost use Rattle.check_items.specs.Counts as counting;
ghost use Rattle.check_items.specs.Identifiers.{IsTooManyFrom};
ghost use Rattle.check_items.specs.Items as spec;

use crate::counts::{Counts, carriers_flaw, functions_flaw, variables_flaw};
use crate::functions::{declare_flaw, define_flaw};
use crate::identifiers::identifiers_flaw;
use crate::layouts::layout_flaw;
use crate::tables::table_flaw;
use crate::variables::variable_flaw;
use check_names::{Flaw, Space, counts, definition_flaw, worded_when};
use check_types::{Allowed, Types, type_flaw};
use ir_names::is_decimal;
use ir_values::{Form, HeaderKind, Ty};
use ltt_base::{Code, Memory};
use std::alloc::Global;

fn header_flaw(alloc: Global, kind: HeaderKind, value: &[u8]) -> Result<Option<Flaw>, Memory>
    ensures { IfOk result (λ flaw. flaw ≡ spec.header_flaw kind value.now) }
{
    match kind {
        HeaderKind::Layout => layout_flaw(alloc, value),
        _ => Ok(None),
    }
}

fn own_type_flaw<'a>(
    alloc: Global,
    types: &Types<'a>,
    ty: Option<&'a Ty>,
) -> Result<Option<Flaw>, Memory>
    ensures { IfOk result (λ flaw. flaw
        ≡ spec.own_type_flaw types.now.output types.now.units (option_copied ty.entry)) }
{
    match ty {
        Some(ty) => type_flaw(alloc, types, false, Allowed::Every, ty),
        None => Ok(None),
    }
}

fn type_unit_flaw<'a>(
    alloc: Global,
    types: &Types<'a>,
    at: usize,
    name: &[u8],
    ty: Option<&'a Ty>,
) -> Result<Option<Flaw>, Memory>
    ensures { IfOk result (λ flaw. flaw
        ≡ spec.type_unit_flaw types.now.output types.now.units at name.now (option_copied ty.entry)) }
{
    let named = definition_flaw(alloc, types.context(), at, Space::Types, name)?;
    let own = own_type_flaw(alloc, types, ty)?;
    Ok(counts(named, own))
}

fn node_flaw(
    alloc: Global,
    types: &Types<'_>,
    at: usize,
    name: &[u8],
) -> Result<Option<Flaw>, Memory>
    ensures { IfOk result (λ flaw. flaw ≡ spec.node_flaw types.now.output types.now.units at name.now) }
{
    if is_decimal(name) {
        definition_flaw(alloc, types.context(), at, Space::Nodes, name)
    } else {
        Ok(None)
    }
}

fn limits_flaw(
    alloc: Global,
    types: &Types<'_>,
    so_far: Counts,
    too_many: Option<usize>,
    at: usize,
    form: &Form,
) -> Result<Option<Flaw>, Memory>
    requires inside { at < length types.now.units }
    requires too_many { IsTooManyFrom types.now.units too_many }
    ensures { IfOk result (λ flaw. flaw ≡ spec.limits_flaw types.now.units at so_far form.now) }
{
    let identifiers = identifiers_flaw(alloc, types, too_many, at)?;
    Ok(counts(identifiers, carriers_flaw(alloc, so_far, form)?))
}

fn form_flaw<'a>(
    alloc: Global,
    types: &Types<'a>,
    so_far: Counts,
    too_many: Option<usize>,
    at: usize,
    form: &'a Form,
) -> Result<Option<Flaw>, Memory>
    requires inside { at < length types.now.units }
    requires too_many { IsTooManyFrom types.now.units too_many }
    ensures { IfOk result (λ flaw. flaw ≡ spec.form_flaw types.now.output types.now.units at so_far form.now) }
{
    match form {
        Form::HeaderForm { kind, value } => header_flaw(alloc, *kind, value.bytes()),
        Form::TypeForm { name, ty } => {
            type_unit_flaw(alloc, types, at, name.bytes(), ty.as_ref())
        }
        Form::VariableForm {
            name,
            linkage,
            ty,
            init,
            align,
            attached,
            ..
        } => {
            let past = variables_flaw(alloc, so_far)?;
            let own = variable_flaw(
                alloc,
                types,
                at,
                name.bytes(),
                linkage.as_ref(),
                ty,
                init.as_ref(),
                *align,
                attached.items(),
            )?;
            let limits = limits_flaw(alloc, types, so_far, too_many, at, form)?;
            Ok(counts(past, counts(own, limits)))
        }
        Form::DeclareForm { head } => {
            let past = functions_flaw(alloc, so_far, form)?;
            Ok(counts(past, declare_flaw(alloc, types, at, head, form)?))
        }
        Form::DefineForm { head } => {
            let past = functions_flaw(alloc, so_far, form)?;
            let own = define_flaw(alloc, types, at, head, form)?;
            let limits = limits_flaw(alloc, types, so_far, too_many, at, form)?;
            Ok(counts(past, counts(own, limits)))
        }
        Form::MetadataForm { name, .. } => node_flaw(alloc, types, at, name.bytes()),
        Form::TableForm { name, funcs } => {
            table_flaw(alloc, types.context(), at, name.bytes(), funcs.items())
        }
        Form::LeftForm { word } => worded_when(alloc, true, Code::E07, word.bytes()),
        _ => Ok(None),
    }
}

/// The flaws of a unit that stands outside all bodies, apart from that of its place. `so_far` counts what the units before it
/// have; `too_many` is what `too_many_from` gives.
///
/// Source: LLVM Language Reference, "High Level Structure".
#[tactic(auto, unfolding(crate::specs::Items::item_flaw))]
pub fn item_flaw<'a>(
    alloc: Global,
    types: &Types<'a>,
    so_far: Counts,
    too_many: Option<usize>,
    at: usize,
    form: &'a Form,
) -> Result<Option<Flaw>, Memory>
    requires inside { at < length types.now.units }
    requires too_many { IsTooManyFrom types.now.units too_many }
    requires so_far { so_far ≡ counting.counts_before types.now.units at }
    ensures { IfOk result (λ flaw. flaw ≡ spec.item_flaw types.now.output types.now.units at form.now) }
{
    form_flaw(alloc, types, so_far, too_many, at, form)
}
