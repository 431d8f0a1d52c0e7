// The arguments of calls.
ghost use Rattle.std.specs.Prelude.{◌≡◌, ◌++◌, [], slice_get, IfOk, OnOk};
ghost use Rattle.std.specs.List.{cons_option};
ghost use Rattle.std.specs.Option.{option_copied};
ghost use Rattle.built_instructions.specs.Arguments as spec;

use crate::values::number_in;
use check_types::{Types, replaced};
use ir_values::{Arg, Const, Operand, Ty, TypeId};
use kept_parts::{argument_kept, node_number};
use ltt_base::{List, Memory, Text};
use std::alloc::Global;

fn add_value(values: &mut List<Operand>, value: Option<Operand>) -> Result<(), Memory>
    ensures { OnOk result (values.new ≡ values.old ++ cons_option value []) }
{
    match value {
        Some(value) => values.add(value),
        None => Ok(()),
    }
}

/// The values among arguments.
pub(crate) fn values_kept<'a>(
    alloc: Global,
    types: &Types<'a>,
    args: &'a [Arg],
) -> Result<List<Operand>, Memory>
    ensures { IfOk result (λ values. values ≡ spec.values_kept types.now.units args.now) }
{
    let mut values = List::new(alloc);
    for arg in args {
        add_value(&mut values, argument_kept(alloc, types, arg)?)?;
    }
    Ok(values)
}

fn argument_type<'a>(alloc: Global, types: &Types<'a>, arg: &'a Arg) -> Result<Option<Ty>, Memory>
    ensures { IfOk result (λ ty. ty ≡ spec.argument_type types.now.units arg.now) }
{
    match arg {
        Arg::Value { ty, .. } => Ok(Some(replaced(alloc, types, ty)?)),
        Arg::Word(_) => Ok(None),
        Arg::Node(_) => Ok(None),
    }
}

fn add_type(list: &mut List<Ty>, ty: Option<Ty>) -> Result<(), Memory>
    ensures { OnOk result (list.new ≡ list.old ++ cons_option ty []) }
{
    match ty {
        Some(ty) => list.add(ty),
        None => Ok(()),
    }
}

/// The types of the values among arguments.
pub(crate) fn types_kept<'a>(
    alloc: Global,
    types: &Types<'a>,
    args: &'a [Arg],
) -> Result<List<Ty>, Memory>
    ensures { IfOk result (λ list. list ≡ spec.types_kept types.now.units args.now) }
{
    let mut list = List::new(alloc);
    for arg in args {
        add_type(&mut list, argument_type(alloc, types, arg)?)?;
    }
    Ok(list)
}

fn arg_at(args: &[Arg], at: usize) -> Option<&Arg>
    ensures { option_copied result ≡ slice_get args.now at }
{
    args.get(at)
}

fn value_or(value: Option<Operand>) -> Operand
    ensures { result ≡ spec.value_or value }
{
    match value {
        Some(value) => value,
        None => Operand::Const(Const::Null),
    }
}

fn value_in<'a>(alloc: Global, types: &Types<'a>, arg: Option<&'a Arg>) -> Result<Operand, Memory>
    ensures { IfOk result (λ value. value ≡ spec.value_in types.now.units (option_copied arg.entry)) }
{
    match arg {
        Some(arg) => Ok(value_or(argument_kept(alloc, types, arg)?)),
        None => Ok(Operand::Const(Const::Null)),
    }
}

/// The value at a place among arguments.
pub(crate) fn value_at<'a>(
    alloc: Global,
    types: &Types<'a>,
    args: &'a [Arg],
    at: usize,
) -> Result<Operand, Memory>
    ensures { IfOk result (λ value. value ≡ spec.value_at types.now.units args.now at) }
{
    value_in(alloc, types, arg_at(args, at))
}

/// The number at a place among arguments.
pub(crate) fn number_at<'a>(
    alloc: Global,
    types: &Types<'a>,
    args: &'a [Arg],
    at: usize,
) -> Result<u64, Memory>
    ensures { IfOk result (λ n. n ≡ spec.number_at types.now.units args.now at) }
{
    let value = value_at(alloc, types, args, at)?;
    Ok(number_in(&value))
}

fn id_of(alloc: Global, file: u32, arg: &Arg) -> Result<TypeId, Memory>
    ensures { IfOk result (λ id. id ≡ spec.id_of file arg.now) }
{
    match arg {
        Arg::Word(text) => Ok(TypeId::Name(Text::copy(alloc, text.bytes())?)),
        Arg::Node(digits) => Ok(TypeId::Node(file, node_number(digits.bytes()))),
        Arg::Value { .. } => Ok(TypeId::Name(Text::new(alloc))),
    }
}

fn id_in(alloc: Global, file: u32, arg: Option<&Arg>) -> Result<TypeId, Memory>
    ensures { IfOk result (λ id. id ≡ spec.id_in file (option_copied arg.entry)) }
{
    match arg {
        Some(arg) => id_of(alloc, file, arg),
        None => Ok(TypeId::Name(Text::new(alloc))),
    }
}

/// The identifier at a place among arguments.
pub(crate) fn id_at(alloc: Global, file: u32, args: &[Arg], at: usize) -> Result<TypeId, Memory>
    ensures { IfOk result (λ id. id ≡ spec.id_at file args.now at) }
{
    id_in(alloc, file, arg_at(args, at))
}
