// Types with their names replaced.
ghost use Rattle.std.specs.Prelude.{◌≡◌, map, IfOk};
ghost use Rattle.std.specs.Option.{option_copied};
ghost use Rattle.ir_values.specs.declared.types.Ty.{out-Ty};
ghost use Rattle.check_types.specs.Replaced as spec;

use crate::differences::LEVELS;
use crate::ends::Types;
use crate::heads::head;
use crate::sizes::is_past;
use ir_values::Ty;
use ltt_base::{Boxed, List, Memory};
use std::alloc::Global;

#[cycle(replacing)]
#[tactic(auto, using(crate::proofs::PartLemmas::replaced_none))]
fn replaced_within<'a>(
    alloc: Global,
    types: &Types<'a>,
    levels: u32,
    ty: &'a Ty,
) -> Result<Ty, Memory>
    ensures { IfOk result (λ replaced. replaced ≡ spec.replaced_within types.now.units levels ty.now) }
{
    if levels == 0 {
        return ty.copy(alloc);
    }
    head_replaced(alloc, types, levels - 1, ty, head(types, ty))
}

#[cycle(replacing)]
fn head_replaced<'a>(
    alloc: Global,
    types: &Types<'a>,
    levels: u32,
    ty: &'a Ty,
    known: Option<&'a Ty>,
) -> Result<Ty, Memory>
    ensures { IfOk result (λ replaced. replaced
        ≡ spec.head_replaced (spec.replaced_within types.now.units levels) ty.now (option_copied known.entry)) }
{
    match known {
        Some(known) => layer_replaced(alloc, types, levels, known),
        None => ty.copy(alloc),
    }
}

#[cycle(replacing)]
fn layer_replaced<'a>(
    alloc: Global,
    types: &Types<'a>,
    levels: u32,
    ty: &'a Ty,
) -> Result<Ty, Memory>
    ensures { IfOk result (λ replaced. replaced
        ≡ spec.layer_replaced (spec.replaced_within types.now.units levels) ty.now (out-Ty ty.now)) }
{
    match ty {
        Ty::Array(many, part) => {
            let part = replaced_within(alloc, types, levels, part.get())?;
            Ok(Ty::Array(*many, Boxed::new(alloc, part)?))
        }
        Ty::Struct(parts) => {
            let parts = parts_replaced(alloc, types, levels, parts.items())?;
            Ok(Ty::Struct(parts))
        }
        _ => ty.copy(alloc),
    }
}

#[cycle(replacing)]
fn parts_replaced<'a>(
    alloc: Global,
    types: &Types<'a>,
    levels: u32,
    parts: &'a [Ty],
) -> Result<List<Ty>, Memory>
    ensures { IfOk result (λ replaced. replaced ≡ map (spec.replaced_within types.now.units levels) parts.now) }
{
    let mut replaced = List::new(alloc);
    for part in parts {
        replaced.add(replaced_within(alloc, types, levels, part)?)?;
    }
    Ok(replaced)
}

/// A type with its names replaced. What isn't known stays, and so does a type past the limits.
#[tactic(auto, unfolding(crate::specs::Replaced::replaced))]
pub fn replaced<'a>(alloc: Global, types: &Types<'a>, ty: &'a Ty) -> Result<Ty, Memory>
    ensures { IfOk result (λ replaced. replaced ≡ spec.replaced types.now.units ty.now) }
{
    if is_past(types, ty) {
        return ty.copy(alloc);
    }
    replaced_within(alloc, types, LEVELS, ty)
}
