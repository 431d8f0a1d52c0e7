// The variables that units become.
ghost use Rattle.std.specs.Prelude.{◌≡◌, ◌++◌, flat_map, IfOk, OnOk};
ghost use Rattle.std.specs.Option.{option_copied};
ghost use Rattle.built_modules.specs.Variables as spec;

use crate::linkages::linkage_of;
use check_constants::kept;
use check_items::{entries_of, visibility_of};
use check_types::{Types, align, replaced};
use ir_values::{Attach, Const, Form, Ty, Unit, Var};
use ltt_base::{Copied, List, Memory, Place, Placed, Text};
use std::alloc::Global;

fn written_align(written: Option<Option<u64>>) -> u64
    ensures { result ≡ spec.written_align written }
{
    match written {
        Some(bytes) => bytes.unwrap_or(1),
        None => 1,
    }
}

fn align_of(types: &Types<'_>, ty: &Ty, written: Option<Option<u64>>) -> u64
    ensures { result ≡ spec.align_of types.now.output types.now.units ty.now written }
{
    let bytes = written_align(written);
    if types.context().is_output() {
        bytes.max(align(types, ty))
    } else {
        bytes
    }
}

fn init_of<'a>(
    alloc: Global,
    types: &Types<'a>,
    ty: &'a Ty,
    init: Option<&'a Const>,
) -> Result<Option<Const>, Memory>
    ensures { IfOk result (λ it. it ≡ spec.init_of types.now.units ty.now (option_copied init.entry)) }
{
    match init {
        Some(constant) => Ok(Some(kept(alloc, types, Some(ty), constant)?)),
        None => Ok(None),
    }
}

fn kept_attached<'a>(init: Option<&Const>, attached: &'a [Attach]) -> &'a [Attach]
    ensures { result.now ≡ spec.kept_attached (option_copied init.entry) attached.now }
{
    if init.is_none() { &[] } else { attached }
}

fn var_of<'a>(
    alloc: Global,
    types: &Types<'a>,
    file: u32,
    place: Place,
    name: &Text,
    linkage: Option<&Text>,
    constant: bool,
    ty: &'a Ty,
    init: Option<&'a Const>,
    align: Option<Option<u64>>,
    attached: &[Attach],
) -> Result<Var, Memory>
    ensures { IfOk result (λ it. it
        ≡ spec.var_of types.now.output types.now.units file place name.now (option_copied linkage.entry) constant ty.now
        (option_copied init.entry) align attached.now) }
{
    let attached = kept_attached(init, attached);
    Ok(Var {
        place,
        name: name.copied(alloc)?,
        linkage: linkage_of(init.is_none(), linkage),
        constant,
        ty: replaced(alloc, types, ty)?,
        init: init_of(alloc, types, ty, init)?,
        align: align_of(types, ty, align),
        entries: entries_of(alloc, types.context(), file, attached)?,
        visibility: visibility_of(types.context(), attached),
    })
}

fn add_var<'a>(
    alloc: Global,
    types: &Types<'a>,
    file: u32,
    vars: &mut List<Var>,
    place: Place,
    form: &'a Form,
) -> Result<(), Memory>
    ensures { OnOk result (vars.new ≡ vars.old ++ spec.vars_in types.now.output types.now.units file place form.now) }
{
    match form {
        Form::VariableForm {
            name,
            linkage,
            constant,
            ty,
            init,
            align,
            attached,
        } => {
            let var = var_of(
                alloc,
                types,
                file,
                place,
                name,
                linkage.as_ref(),
                *constant,
                ty,
                init.as_ref(),
                *align,
                attached.items(),
            )?;
            vars.add(var)
        }
        _ => Ok(()),
    }
}

/// The variables of units, in the order of the text.
///
/// Source: LLVM Language Reference, "Global Variables".
pub(crate) fn vars_of<'a>(
    alloc: Global,
    types: &Types<'a>,
    file: u32,
    units: &'a [Placed<Unit>],
) -> Result<List<Var>, Memory>
    ensures { IfOk result (λ vars. vars ≡ flat_map (spec.vars_at types.now.output types.now.units file) units.now) }
{
    let mut vars = List::new(alloc);
    for unit in units {
        add_var(alloc, types, file, &mut vars, unit.place, &unit.value.form)?;
    }
    Ok(vars)
}
