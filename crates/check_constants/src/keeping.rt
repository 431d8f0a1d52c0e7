// Constants as a module keeps them.
ghost use Rattle.std.specs.Prelude.{◌≡◌, nat_eq, IfOk, map};
ghost use Rattle.std.specs.List.{list_all};
ghost use Rattle.std.specs.Option.{option_copied};
ghost use Rattle.ir_values.specs.declared.types.Ty.{out-Ty};
ghost use Rattle.ir_values.specs.declared.constants.Const.{out-Const};
ghost use Rattle.ir_values.specs.declared.constants.Const.TheVariants.{Zero};
ghost use Rattle.ir_values.specs.declared.types.Ty.TheVariants.{Array};
ghost use Rattle.check_constants.specs.Keeping as spec;
ghost use Rattle.check_constants.specs.Kept as whole;
ghost use Rattle.check_constants.specs.Constants.{weighed};

use crate::addresses::{global_of, number_at, offset_of};
use crate::indices::known;
use check_types::{Types, head, replaced};
use ir_values::{Const, Ty, Width};
use ltt_base::{Boxed, List, Memory, Text};
use std::alloc::Global;

fn is_zero(value: &Const) -> bool
    ensures { result ≡ spec.is_zero (out-Const value.now) }
{
    match value {
        Const::Int(_, n) => *n == 0,
        Const::Null => true,
        Const::Zero(_) => true,
        _ => false,
    }
}

fn are_zero(values: &[Const]) -> bool
    ensures { result ≡ spec.are_zero values.now }
{
    values.iter().all(|value| is_zero(value))
}

fn zero_kept<'a>(alloc: Global, types: &Types<'a>, own: &'a Ty) -> Result<Const, Memory>
    ensures { IfOk result (λ it. it ≡ spec.zero_kept types.now.units own.now) }
{
    match head(types, own) {
        Some(Ty::Int(width)) => Ok(Const::Int(*width, 0)),
        Some(Ty::Ptr) => Ok(Const::Null),
        _ => Ok(Const::Zero(replaced(alloc, types, own)?)),
    }
}

fn is_byte_head(ty: Option<&Ty>) -> bool
    ensures { result ≡ spec.is_byte_head (option_copied ty.entry) }
{
    match ty {
        Some(Ty::Int(Width::W8)) => true,
        _ => false,
    }
}

fn byte_of(value: &Const) -> u8
    ensures { result ≡ spec.byte_of (out-Const value.now) }
{
    match value {
        Const::Int(_, n) => (*n % 256) as u8,
        _ => 0,
    }
}

fn bytes_of(alloc: Global, values: &[Const]) -> Result<Text, Memory>
    ensures { IfOk result (λ text. text ≡ map (λ value. spec.byte_of (out-Const value)) values.now) }
{
    let mut text = Text::new(alloc);
    for value in values {
        text.push(byte_of(value))?;
    }
    Ok(text)
}

fn zero_array(alloc: Global, many: usize, part: Ty) -> Result<Const, Memory>
    ensures { IfOk result (λ it. it ≡ Zero (Array many part)) }
{
    Ok(Const::Zero(Ty::Array(many as u64, Boxed::new(alloc, part)?)))
}

fn array_kept<'a>(
    alloc: Global,
    types: &Types<'a>,
    part: &'a Ty,
    values: List<Const>,
) -> Result<Const, Memory>
    ensures { IfOk result (λ it. it ≡ spec.array_kept types.now.units part.now values) }
{
    if are_zero(values.items()) {
        zero_array(alloc, values.len(), replaced(alloc, types, part)?)
    } else if is_byte_head(head(types, part)) {
        Ok(Const::Bytes(bytes_of(alloc, values.items())?))
    } else {
        Ok(Const::Array(replaced(alloc, types, part)?, values))
    }
}

fn written_kept<'a>(alloc: Global, types: &Types<'a>, part: &'a Const) -> Result<Ty, Memory>
    ensures { IfOk result (λ ty. ty ≡ spec.option_replaced types.now.units (weighed part.now).written) }
{
    match part {
        Const::Typed(own, _) => replaced(alloc, types, own),
        _ => Ok(Ty::Void),
    }
}

fn types_of<'a>(alloc: Global, types: &Types<'a>, parts: &'a [Const]) -> Result<List<Ty>, Memory>
    ensures { IfOk result (λ tys. tys ≡ spec.types_of types.now.units (map weighed parts.now)) }
{
    let mut list = List::new(alloc);
    for part in parts {
        list.add(written_kept(alloc, types, part)?)?;
    }
    Ok(list)
}

fn struct_kept<'a>(
    alloc: Global,
    types: &Types<'a>,
    parts: &'a [Const],
    values: List<Const>,
) -> Result<Const, Memory>
    ensures { IfOk result (λ it. it
        ≡ spec.struct_kept (spec.types_of types.now.units (map weighed parts.now)) values) }
{
    if are_zero(values.items()) {
        Ok(Const::Zero(Ty::Struct(types_of(alloc, types, parts)?)))
    } else {
        Ok(Const::Struct(values))
    }
}

fn are_zero_bytes(text: &[u8]) -> bool
    ensures { result ≡ list_all (λ byte. nat_eq byte 0) text.now }
{
    text.iter().all(|byte| *byte == 0)
}

fn bytes_kept(alloc: Global, text: &[u8]) -> Result<Const, Memory>
    ensures { IfOk result (λ it. it ≡ spec.bytes_kept text.now) }
{
    if are_zero_bytes(text) {
        zero_array(alloc, text.len(), Ty::Int(Width::W8))
    } else {
        Ok(Const::Bytes(Text::copy(alloc, text)?))
    }
}

fn address_kept(alloc: Global, name: Option<&Text>, offset: u64) -> Result<Const, Memory>
    ensures { IfOk result (λ it. it ≡ spec.address_kept (option_copied name.entry) offset) }
{
    match name {
        Some(name) => Ok(Const::Addr(Text::copy(alloc, name.bytes())?, offset)),
        None => Ok(Const::Null),
    }
}

fn number_kept(alloc: Global, text: &[u8], ty: &Ty, n: Option<u64>) -> Result<Const, Memory>
    ensures { IfOk result (λ it. it ≡ spec.number_kept text.now (out-Ty ty.now) n) }
{
    match (ty, n) {
        (Ty::Int(width), Some(n)) => Ok(Const::Int(*width, n)),
        _ => Ok(Const::Left(Text::copy(alloc, text)?)),
    }
}

fn left_kept(alloc: Global, text: &[u8], ty: Option<&Ty>) -> Result<Const, Memory>
    ensures { IfOk result (λ it. it ≡ spec.left_kept text.now (option_copied ty.entry)) }
{
    match ty {
        Some(ty) => number_kept(alloc, text, ty, number_at(ty, text)),
        None => Ok(Const::Left(Text::copy(alloc, text)?)),
    }
}

#[cycle(kept)]
fn values_of<'a>(
    alloc: Global,
    types: &Types<'a>,
    parts: &'a [Const],
) -> Result<List<Const>, Memory>
    ensures { IfOk result (λ values. values ≡ spec.values_of types.now.units (map weighed parts.now)) }
{
    let mut values = List::new(alloc);
    for part in parts {
        values.add(kept(alloc, types, None, part)?)?;
    }
    Ok(values)
}

/// A constant as a module keeps it, at a type. `None`: that isn't known.
///
/// What has a flaw is kept in some form.
///
/// Source: LLVM Language Reference, "Constants". Differs: a constant has one form, and an aggregate of zeros alone is `zeroinitializer`.
#[cycle(kept)]
pub fn kept<'a>(
    alloc: Global,
    types: &Types<'a>,
    ty: Option<&'a Ty>,
    constant: &'a Const,
) -> Result<Const, Memory>
    ensures { IfOk result (λ it. it ≡ whole.kept types.now.units (option_copied ty.entry) constant.now) }
{
    match constant {
        Const::Int(width, n) => Ok(Const::Int(*width, *n)),
        Const::Null => Ok(Const::Null),
        Const::Addr(name, offset) => Ok(Const::Addr(Text::copy(alloc, name.bytes())?, *offset)),
        Const::Zero(own) => zero_kept(alloc, types, own),
        Const::Array(part, parts) => {
            let values = values_of(alloc, types, parts.items())?;
            array_kept(alloc, types, part, values)
        }
        Const::Struct(parts) => {
            let values = values_of(alloc, types, parts.items())?;
            struct_kept(alloc, types, parts.items(), values)
        }
        Const::Bytes(text) => bytes_kept(alloc, text.bytes()),
        Const::Gep(_, base, _) => {
            address_kept(alloc, global_of(base.get()), offset_of(types, constant))
        }
        Const::Number(name, offset) => Ok(Const::Number(Text::copy(alloc, name.bytes())?, *offset)),
        Const::Left(text) => left_kept(alloc, text.bytes(), known(types, ty)),
        Const::Typed(own, part) => kept(alloc, types, Some(own), part.get()),
    }
}
