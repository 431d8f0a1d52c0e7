// Calls of functions, through values, and of intrinsics.
ghost use Rattle.std.specs.Prelude.{◌≡◌, map, IfOk};
ghost use Rattle.std.specs.Option.{option_copied};
ghost use Rattle.check_types.specs.Replaced as types_spec;
ghost use Rattle.built_instructions.specs.Calls as spec;

use crate::arguments::{id_at, number_at, types_kept, value_at, values_kept};
use crate::values::{byte_of, offset_of};
use check_bodies::name_or;
use check_constants::Intrinsic;
use check_operands::{Made, operand_kept};
use check_types::{Types, replaced};
use ir_values::{Arg, Callee, FuncTy, Head, Inst, Operand, Ty};
use kept_parts::{called, called_intrinsic};
use ltt_base::{List, Memory, Text};
use std::alloc::Global;

fn all_replaced<'a>(alloc: Global, types: &Types<'a>, written: &'a [Ty]) -> Result<List<Ty>, Memory>
    ensures { IfOk result (λ list. list ≡ map (types_spec.replaced types.now.units) written.now) }
{
    let mut list = List::new(alloc);
    for ty in written {
        list.add(replaced(alloc, types, ty)?)?;
    }
    Ok(list)
}

fn parameters_kept<'a>(
    alloc: Global,
    types: &Types<'a>,
    whole: Option<&'a List<Ty>>,
    args: &'a [Arg],
) -> Result<List<Ty>, Memory>
    ensures { IfOk result (λ params. params
        ≡ spec.parameters_kept types.now.units (option_copied whole.entry) args.now) }
{
    match whole {
        Some(written) => all_replaced(alloc, types, written.items()),
        None => types_kept(alloc, types, args),
    }
}

fn function_type<'a>(
    alloc: Global,
    types: &Types<'a>,
    given: &'a Ty,
    whole: Option<&'a List<Ty>>,
    args: &'a [Arg],
) -> Result<FuncTy, Memory>
    ensures { IfOk result (λ fty. fty
        ≡ spec.function_type types.now.units given.now (option_copied whole.entry) args.now) }
{
    let given = replaced(alloc, types, given)?;
    let params = parameters_kept(alloc, types, whole, args)?;
    Ok(FuncTy {
        result: given,
        params,
    })
}

fn callee_kept<'a>(
    alloc: Global,
    types: &Types<'a>,
    made: &'a Made,
    function: Option<&'a Head>,
    callee: &'a Operand,
) -> Result<Callee, Memory>
    ensures { IfOk result (λ kept. kept
        ≡ spec.callee_kept types.now.units (option_copied function.entry) callee.now) }
{
    match function {
        Some(function) => Ok(Callee::Function(Text::copy(alloc, function.name.bytes())?)),
        None => Ok(Callee::Value(operand_kept(alloc, types, made.pointer(), callee)?)),
    }
}

fn result_name(
    alloc: Global,
    next: u64,
    named: bool,
    dst: Option<&Text>,
) -> Result<Option<Text>, Memory>
    ensures { IfOk result (λ name. name ≡ spec.result_name next named (option_copied dst.entry)) }
{
    if named {
        Ok(Some(name_or(alloc, next, dst)?))
    } else {
        Ok(None)
    }
}

#[tactic(auto, unfolding(crate::specs::Calls::plain_call))]
fn plain_call<'a>(
    alloc: Global,
    types: &Types<'a>,
    made: &'a Made,
    next: u64,
    named: bool,
    dst: Option<&Text>,
    function: Option<&'a Head>,
    given: &'a Ty,
    whole: Option<&'a List<Ty>>,
    callee: &'a Operand,
    args: &'a [Arg],
) -> Result<Inst, Memory>
    ensures { IfOk result (λ inst. inst
        ≡ spec.plain_call types.now.units next named (option_copied dst.entry) (option_copied function.entry) given.now
        (option_copied whole.entry) callee.now args.now) }
{
    let dst = result_name(alloc, next, named, dst)?;
    let fty = function_type(alloc, types, given, whole, args)?;
    let callee = callee_kept(alloc, types, made, function, callee)?;
    let args = values_kept(alloc, types, args)?;
    Ok(Inst::Call {
        dst,
        fty,
        callee,
        args,
    })
}

fn test_call<'a>(
    alloc: Global,
    types: &Types<'a>,
    file: u32,
    next: u64,
    dst: Option<&Text>,
    args: &'a [Arg],
) -> Result<Inst, Memory>
    ensures { IfOk result (λ inst. inst
        ≡ spec.test_call types.now.units file next (option_copied dst.entry) args.now) }
{
    let dst = name_or(alloc, next, dst)?;
    let ptr = value_at(alloc, types, args, 0)?;
    let id = id_at(alloc, file, args, 1)?;
    Ok(Inst::Test { dst, ptr, id })
}

fn checked_call<'a>(
    alloc: Global,
    types: &Types<'a>,
    file: u32,
    next: u64,
    dst: Option<&Text>,
    args: &'a [Arg],
) -> Result<Inst, Memory>
    ensures { IfOk result (λ inst. inst
        ≡ spec.checked_call types.now.units file next (option_copied dst.entry) args.now) }
{
    let dst = name_or(alloc, next, dst)?;
    let ptr = value_at(alloc, types, args, 0)?;
    let offset = offset_of(number_at(alloc, types, args, 1)?);
    let id = id_at(alloc, file, args, 2)?;
    Ok(Inst::CheckedLoad {
        dst,
        ptr,
        offset,
        id,
    })
}

fn assume_call<'a>(alloc: Global, types: &Types<'a>, args: &'a [Arg]) -> Result<Inst, Memory>
    ensures { IfOk result (λ inst. inst ≡ spec.assume_call types.now.units args.now) }
{
    let cond = value_at(alloc, types, args, 0)?;
    Ok(Inst::Assume { cond })
}

fn coded_trap_call<'a>(alloc: Global, types: &Types<'a>, args: &'a [Arg]) -> Result<Inst, Memory>
    ensures { IfOk result (λ inst. inst ≡ spec.coded_trap_call types.now.units args.now) }
{
    let code = byte_of(number_at(alloc, types, args, 0)?);
    Ok(Inst::Trap { code: Some(code) })
}

fn rotate_call<'a>(
    alloc: Global,
    types: &Types<'a>,
    next: u64,
    dst: Option<&Text>,
    args: &'a [Arg],
) -> Result<Inst, Memory>
    ensures { IfOk result (λ inst. inst
        ≡ spec.rotate_call types.now.units next (option_copied dst.entry) args.now) }
{
    let dst = name_or(alloc, next, dst)?;
    let value = value_at(alloc, types, args, 0)?;
    let by = byte_of(number_at(alloc, types, args, 2)?);
    Ok(Inst::Rotate { dst, value, by })
}

#[tactic(auto, unfolding(crate::specs::Calls::intrinsic_call))]
fn intrinsic_call<'a>(
    alloc: Global,
    types: &Types<'a>,
    file: u32,
    next: u64,
    dst: Option<&Text>,
    intrinsic: Intrinsic,
    args: &'a [Arg],
) -> Result<Inst, Memory>
    ensures { IfOk result (λ inst. inst
        ≡ spec.intrinsic_call types.now.units file next (option_copied dst.entry) intrinsic args.now) }
{
    match intrinsic {
        Intrinsic::Test => test_call(alloc, types, file, next, dst, args),
        Intrinsic::CheckedLoad => checked_call(alloc, types, file, next, dst, args),
        Intrinsic::Assume => assume_call(alloc, types, args),
        Intrinsic::Trap => Ok(Inst::Trap { code: None }),
        Intrinsic::CodedTrap => coded_trap_call(alloc, types, args),
        Intrinsic::Rotate => rotate_call(alloc, types, next, dst, args),
    }
}

fn call_of<'a>(
    alloc: Global,
    types: &Types<'a>,
    made: &'a Made,
    file: u32,
    next: u64,
    named: bool,
    dst: Option<&Text>,
    intrinsic: Option<Intrinsic>,
    function: Option<&'a Head>,
    given: &'a Ty,
    whole: Option<&'a List<Ty>>,
    callee: &'a Operand,
    args: &'a [Arg],
) -> Result<Inst, Memory>
    ensures { IfOk result (λ inst. inst
        ≡ spec.call_of types.now.units file next named (option_copied dst.entry) intrinsic (option_copied function.entry) given.now
        (option_copied whole.entry) callee.now args.now) }
{
    match intrinsic {
        Some(intrinsic) => intrinsic_call(alloc, types, file, next, dst, intrinsic, args),
        None => plain_call(
            alloc, types, made, next, named, dst, function, given, whole, callee, args,
        ),
    }
}

#[tactic(auto, unfolding(crate::specs::Calls::call_kept))]
pub(crate) fn call_kept<'a>(
    alloc: Global,
    types: &Types<'a>,
    made: &'a Made,
    file: u32,
    next: u64,
    named: bool,
    dst: Option<&Text>,
    given: &'a Ty,
    whole: Option<&'a List<Ty>>,
    callee: &'a Operand,
    args: &'a [Arg],
) -> Result<Inst, Memory>
    ensures { IfOk result (λ inst. inst
        ≡ spec.call_kept types.now.output types.now.units file next named (option_copied dst.entry) given.now
        (option_copied whole.entry) callee.now args.now) }
{
    let function = called(types, callee);
    let intrinsic = called_intrinsic(types.context(), function);
    call_of(
        alloc, types, made, file, next, named, dst, intrinsic, function, given, whole, callee, args,
    )
}
