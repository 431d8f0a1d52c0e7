// What is wrong with variables.
ghost use Rattle.std.specs.Prelude.{◌≡◌, IfOk};
ghost use Rattle.std.specs.Option.{option_copied};
ghost use Rattle.check_items.specs.Variables as spec;

use crate::attached::{attached_flaw, declared_flaw};
use crate::linkages::{is_external, linkage_flaw};
use check_constants::constant_flaw;
use check_names::{Flaw, Space, counts, definition_flaw, intrinsic_flaw, when, worded_when};
use check_types::{Allowed, Types, type_flaw};
use ir_values::{Attach, Const, Ty};
use ltt_base::{Code, Memory, Text};
use std::alloc::Global;

fn bare_flaw(linkage: Option<&Text>, init: Option<&Const>) -> Option<Flaw>
    ensures { result ≡ spec.bare_flaw (option_copied linkage.entry) (option_copied init.entry) }
{
    when(init.is_none() && !is_external(linkage), Code::E03)
}

fn init_flaw<'a>(
    alloc: Global,
    types: &Types<'a>,
    ty: &'a Ty,
    init: Option<&'a Const>,
) -> Result<Option<Flaw>, Memory>
    ensures { IfOk result (λ flaw. flaw
        ≡ spec.init_flaw types.now.output types.now.units ty.now (option_copied init.entry)) }
{
    match init {
        Some(constant) => constant_flaw(alloc, types, false, Some(ty), constant),
        None => Ok(None),
    }
}

fn number_flaw(alloc: Global, align: Option<u64>) -> Result<Option<Flaw>, Memory>
    ensures { IfOk result (λ flaw. flaw ≡ spec.number_flaw align) }
{
    match align {
        Some(align) => {
            let past = worded_when(alloc, align > 4096, Code::E12, b"align")?;
            Ok(counts(when(!align.is_power_of_two(), Code::E06), past))
        }
        None => Ok(when(true, Code::E06)),
    }
}

fn align_flaw(alloc: Global, align: Option<Option<u64>>) -> Result<Option<Flaw>, Memory>
    ensures { IfOk result (λ flaw. flaw ≡ spec.align_flaw align) }
{
    match align {
        Some(align) => number_flaw(alloc, align),
        None => Ok(None),
    }
}

fn own_attached_flaw<'a>(
    alloc: Global,
    types: &Types<'a>,
    ty: &'a Ty,
    init: Option<&Const>,
    attached: &[Attach],
) -> Result<Option<Flaw>, Memory>
    ensures { IfOk result (λ flaw. flaw
        ≡ spec.own_attached_flaw types.now.output types.now.units ty.now (option_copied init.entry) attached.now) }
{
    if init.is_none() {
        declared_flaw(alloc, types.context(), attached)
    } else {
        attached_flaw(alloc, types, Some(ty), attached)
    }
}

fn named_flaw(
    alloc: Global,
    types: &Types<'_>,
    at: usize,
    name: &[u8],
    linkage: Option<&Text>,
) -> Result<Option<Flaw>, Memory>
    ensures { IfOk result (λ flaw. flaw
        ≡ spec.named_flaw types.now.output types.now.units at name.now (option_copied linkage.entry)) }
{
    let named = definition_flaw(alloc, types.context(), at, Space::Globals, name)?;
    let intrinsic = intrinsic_flaw(alloc, name)?;
    let linked = linkage_flaw(alloc, linkage)?;
    Ok(counts(named, counts(intrinsic, linked)))
}

fn held_flaw<'a>(
    alloc: Global,
    types: &Types<'a>,
    linkage: Option<&Text>,
    ty: &'a Ty,
    init: Option<&'a Const>,
) -> Result<Option<Flaw>, Memory>
    ensures { IfOk result (λ flaw. flaw
        ≡ spec.held_flaw types.now.output types.now.units (option_copied linkage.entry) ty.now (option_copied init.entry)) }
{
    let typed = type_flaw(alloc, types, false, Allowed::NonVoid, ty)?;
    let bare = bare_flaw(linkage, init);
    let init = init_flaw(alloc, types, ty, init)?;
    Ok(counts(typed, counts(bare, init)))
}

/// The flaws of a variable, the unit at a place, apart from the limits of its file.
///
/// Source: LLVM Language Reference, "Global Variables".
pub fn variable_flaw<'a>(
    alloc: Global,
    types: &Types<'a>,
    at: usize,
    name: &[u8],
    linkage: Option<&Text>,
    ty: &'a Ty,
    init: Option<&'a Const>,
    align: Option<Option<u64>>,
    attached: &[Attach],
) -> Result<Option<Flaw>, Memory>
    ensures { IfOk result (λ flaw. flaw
        ≡ spec.variable_flaw types.now.output types.now.units at name.now (option_copied linkage.entry) ty.now
        (option_copied init.entry) align attached.now) }
{
    let named = named_flaw(alloc, types, at, name, linkage)?;
    let held = held_flaw(alloc, types, linkage, ty, init)?;
    let aligned = align_flaw(alloc, align)?;
    let attached = own_attached_flaw(alloc, types, ty, init, attached)?;
    Ok(counts(named, counts(held, counts(aligned, attached))))
}
