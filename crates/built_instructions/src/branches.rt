// Instructions that end a block.
ghost use Rattle.std.specs.Prelude.{◌≡◌, IfOk};
ghost use Rattle.built_instructions.specs.Branches as spec;

use crate::values::{number_or, width_at};
use check_operands::{Made, operand_kept};
use check_types::{Types, replaced};
use ir_values::{BranchText, Const, EndText, Inst, Operand, Ty, Width};
use kept_parts::case_number;
use ltt_base::{List, Memory, Text};
use std::alloc::Global;

fn goals_of<'a>(
    alloc: Global,
    types: &Types<'a>,
    width: Width,
    cases: &'a [(Ty, Const, Text)],
) -> Result<List<(u64, Text)>, Memory>
    ensures { IfOk result (λ goals. goals ≡ spec.goals_of types.now.units width cases.now) }
{
    let mut goals = List::new(alloc);
    for case in cases {
        let n = number_or(case_number(alloc, types, width, case)?);
        let label = Text::copy(alloc, case.2.bytes())?;
        goals.add((n, label))?;
    }
    Ok(goals)
}

fn switch_kept<'a>(
    alloc: Global,
    types: &Types<'a>,
    ty: &'a Ty,
    value: &'a Operand,
    other: &Text,
    cases: &'a [(Ty, Const, Text)],
) -> Result<Inst, Memory>
    ensures { IfOk result (λ inst. inst
        ≡ spec.switch_kept types.now.units ty.now value.now other.now cases.now) }
{
    let width = width_at(types, ty);
    let value = operand_kept(alloc, types, ty, value)?;
    let other = Text::copy(alloc, other.bytes())?;
    let cases = goals_of(alloc, types, width, cases)?;
    Ok(Inst::Switch {
        width,
        value,
        other,
        cases,
    })
}

fn jump_kept(alloc: Global, to: &Text) -> Result<Inst, Memory>
    ensures { IfOk result (λ inst. inst ≡ spec.jump_kept to.now) }
{
    let to = Text::copy(alloc, to.bytes())?;
    Ok(Inst::Br { to })
}

fn fork_kept<'a>(
    alloc: Global,
    types: &Types<'a>,
    made: &'a Made,
    test: &'a Operand,
    one: &Text,
    other: &Text,
) -> Result<Inst, Memory>
    ensures { IfOk result (λ inst. inst ≡ spec.fork_kept types.now.units test.now one.now other.now) }
{
    let cond = operand_kept(alloc, types, made.bit(), test)?;
    let yes = Text::copy(alloc, one.bytes())?;
    let no = Text::copy(alloc, other.bytes())?;
    Ok(Inst::CondBr { cond, yes, no })
}

pub(crate) fn branch_kept<'a>(
    alloc: Global,
    types: &Types<'a>,
    made: &'a Made,
    text: &'a BranchText,
) -> Result<Inst, Memory>
    ensures { IfOk result (λ inst. inst ≡ spec.branch_kept types.now.units text.now) }
{
    match text {
        BranchText::Br { to } => jump_kept(alloc, to),
        BranchText::CondBr { cond, yes, no } => fork_kept(alloc, types, made, cond, yes, no),
        BranchText::Switch {
            ty,
            value,
            other,
            cases,
        } => switch_kept(alloc, types, ty, value, other, cases.items()),
    }
}

fn return_kept<'a>(
    alloc: Global,
    types: &Types<'a>,
    ty: &'a Ty,
    value: &'a Operand,
) -> Result<Inst, Memory>
    ensures { IfOk result (λ inst. inst ≡ spec.return_kept types.now.units ty.now value.now) }
{
    let value = operand_kept(alloc, types, ty, value)?;
    let ty = replaced(alloc, types, ty)?;
    Ok(Inst::Ret {
        ty,
        value: Some(value),
    })
}

pub(crate) fn end_kept<'a>(
    alloc: Global,
    types: &Types<'a>,
    text: &'a EndText,
) -> Result<Inst, Memory>
    ensures { IfOk result (λ inst. inst ≡ spec.end_kept types.now.units text.now) }
{
    match text {
        EndText::RetVoid => Ok(Inst::Ret {
            ty: Ty::Void,
            value: None,
        }),
        EndText::Ret { ty, value } => return_kept(alloc, types, ty, value),
        EndText::Unreachable => Ok(Inst::Unreachable),
    }
}
