// Instructions that compute a value or an address, or load or store one.
ghost use Rattle.std.specs.Prelude.{◌≡◌, map, IfOk};
ghost use Rattle.std.specs.Option.{option_copied};
ghost use Rattle.built_instructions.specs.Plain as spec;

use crate::values::{byte_of, number_or, width_at};
use check_bodies::name_or;
use check_operands::{Made, operand_kept};
use check_types::{Types, replaced};
use ir_values::{BinOp, CastOp, Inst, Operand, Pred, Ty, Width};
use kept_parts::kept_arms;
use ltt_base::{List, Memory, Text};
use std::alloc::Global;

pub(crate) fn binary_kept<'a>(
    alloc: Global,
    types: &Types<'a>,
    next: u64,
    dst: Option<&Text>,
    op: BinOp,
    ty: &'a Ty,
    a: &'a Operand,
    b: &'a Operand,
) -> Result<Inst, Memory>
    ensures { IfOk result (λ inst. inst
        ≡ spec.binary_kept types.now.units next (option_copied dst.entry) op ty.now a.now b.now) }
{
    let dst = name_or(alloc, next, dst)?;
    let a = operand_kept(alloc, types, ty, a)?;
    let b = operand_kept(alloc, types, ty, b)?;
    Ok(Inst::Binary {
        dst,
        op,
        width: width_at(types, ty),
        a,
        b,
    })
}

pub(crate) fn compare_kept<'a>(
    alloc: Global,
    types: &Types<'a>,
    next: u64,
    dst: Option<&Text>,
    pred: Pred,
    ty: &'a Ty,
    a: &'a Operand,
    b: &'a Operand,
) -> Result<Inst, Memory>
    ensures { IfOk result (λ inst. inst
        ≡ spec.compare_kept types.now.units next (option_copied dst.entry) pred ty.now a.now b.now) }
{
    let dst = name_or(alloc, next, dst)?;
    let a = operand_kept(alloc, types, ty, a)?;
    let b = operand_kept(alloc, types, ty, b)?;
    let ty = replaced(alloc, types, ty)?;
    Ok(Inst::Compare {
        dst,
        pred,
        ty,
        a,
        b,
    })
}

pub(crate) fn select_kept<'a>(
    alloc: Global,
    types: &Types<'a>,
    next: u64,
    dst: Option<&Text>,
    cond_ty: &'a Ty,
    test: &'a Operand,
    ty: &'a Ty,
    a: &'a Operand,
    other_ty: &'a Ty,
    b: &'a Operand,
) -> Result<Inst, Memory>
    ensures { IfOk result (λ inst. inst
        ≡ spec.select_kept types.now.units next (option_copied dst.entry) cond_ty.now test.now ty.now a.now other_ty.now b.now) }
{
    let dst = name_or(alloc, next, dst)?;
    let cond = operand_kept(alloc, types, cond_ty, test)?;
    let a = operand_kept(alloc, types, ty, a)?;
    let b = operand_kept(alloc, types, other_ty, b)?;
    let ty = replaced(alloc, types, ty)?;
    Ok(Inst::Select {
        dst,
        cond,
        ty,
        a,
        b,
    })
}

pub(crate) fn cast_kept<'a>(
    alloc: Global,
    types: &Types<'a>,
    next: u64,
    dst: Option<&Text>,
    op: CastOp,
    from: &'a Ty,
    a: &'a Operand,
    to: &'a Ty,
) -> Result<Inst, Memory>
    ensures { IfOk result (λ inst. inst
        ≡ spec.cast_kept types.now.units next (option_copied dst.entry) op from.now a.now to.now) }
{
    let dst = name_or(alloc, next, dst)?;
    let a = operand_kept(alloc, types, from, a)?;
    Ok(Inst::Cast {
        dst,
        op,
        from: width_at(types, from),
        a,
        to: width_at(types, to),
    })
}

fn indices_kept<'a>(
    alloc: Global,
    types: &Types<'a>,
    index: &'a [(Ty, Operand)],
) -> Result<List<(Width, Operand)>, Memory>
    ensures { IfOk result (λ kept. kept ≡ map (spec.index_kept types.now.units) index.now) }
{
    let mut kept = List::new(alloc);
    for one in index {
        let value = operand_kept(alloc, types, &one.0, &one.1)?;
        kept.add((width_at(types, &one.0), value))?;
    }
    Ok(kept)
}

pub(crate) fn address_kept<'a>(
    alloc: Global,
    types: &Types<'a>,
    made: &'a Made,
    next: u64,
    dst: Option<&Text>,
    ty: &'a Ty,
    base: &'a Operand,
    index: &'a [(Ty, Operand)],
) -> Result<Inst, Memory>
    ensures { IfOk result (λ inst. inst
        ≡ spec.address_kept types.now.units next (option_copied dst.entry) ty.now base.now index.now) }
{
    let dst = name_or(alloc, next, dst)?;
    let base = operand_kept(alloc, types, made.pointer(), base)?;
    let index = indices_kept(alloc, types, index)?;
    let ty = replaced(alloc, types, ty)?;
    Ok(Inst::Gep {
        dst,
        ty,
        base,
        index,
    })
}

pub(crate) fn load_kept<'a>(
    alloc: Global,
    types: &Types<'a>,
    made: &'a Made,
    next: u64,
    dst: Option<&Text>,
    ty: &'a Ty,
    addr: &'a Operand,
) -> Result<Inst, Memory>
    ensures { IfOk result (λ inst. inst
        ≡ spec.load_kept types.now.units next (option_copied dst.entry) ty.now addr.now) }
{
    let dst = name_or(alloc, next, dst)?;
    let addr = operand_kept(alloc, types, made.pointer(), addr)?;
    let ty = replaced(alloc, types, ty)?;
    Ok(Inst::Load { dst, ty, addr })
}

pub(crate) fn store_kept<'a>(
    alloc: Global,
    types: &Types<'a>,
    made: &'a Made,
    ty: &'a Ty,
    value: &'a Operand,
    addr: &'a Operand,
) -> Result<Inst, Memory>
    ensures { IfOk result (λ inst. inst ≡ spec.store_kept types.now.units ty.now value.now addr.now) }
{
    let value = operand_kept(alloc, types, ty, value)?;
    let addr = operand_kept(alloc, types, made.pointer(), addr)?;
    let ty = replaced(alloc, types, ty)?;
    Ok(Inst::Store { ty, value, addr })
}

fn register_in(alloc: Global, value: &Operand) -> Result<Text, Memory>
    ensures { IfOk result (λ name. name ≡ spec.register_in value.now) }
{
    match value {
        Operand::Reg(name) => Text::copy(alloc, name.bytes()),
        Operand::Const(_) => Ok(Text::new(alloc)),
    }
}

pub(crate) fn extract_kept(
    alloc: Global,
    next: u64,
    dst: Option<&Text>,
    value: &Operand,
    part: Option<u64>,
) -> Result<Inst, Memory>
    ensures { IfOk result (λ inst. inst ≡ spec.extract_kept next (option_copied dst.entry) value.now part) }
{
    let dst = name_or(alloc, next, dst)?;
    let pair = register_in(alloc, value)?;
    let part = byte_of(number_or(part));
    Ok(Inst::Extract { dst, pair, part })
}

pub(crate) fn phi_kept<'a>(
    alloc: Global,
    types: &Types<'a>,
    next: u64,
    dst: Option<&Text>,
    ty: &'a Ty,
    arms: &'a [(Operand, Text)],
) -> Result<Inst, Memory>
    ensures { IfOk result (λ inst. inst
        ≡ spec.phi_kept types.now.units next (option_copied dst.entry) ty.now arms.now) }
{
    let dst = name_or(alloc, next, dst)?;
    let arms = kept_arms(alloc, types, ty, arms)?;
    let ty = replaced(alloc, types, ty)?;
    Ok(Inst::Phi { dst, ty, arms })
}

/// The number of an address.
pub(crate) fn number_kept<'a>(
    alloc: Global,
    types: &Types<'a>,
    made: &'a Made,
    next: u64,
    dst: Option<&Text>,
    value: &'a Operand,
) -> Result<Inst, Memory>
    ensures { IfOk result (λ inst. inst
        ≡ spec.number_kept types.now.units next (option_copied dst.entry) value.now) }
{
    let dst = name_or(alloc, next, dst)?;
    let ptr = operand_kept(alloc, types, made.pointer(), value)?;
    Ok(Inst::Number { dst, ptr })
}
