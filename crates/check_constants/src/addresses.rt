// Constants as indices and as addresses.
ghost use Rattle.std.specs.Prelude.{◌≡◌, IfOk, map};
ghost use Rattle.std.specs.Option.{option_copied};
ghost use Rattle.ir_values.specs.declared.types.Ty.{out-Ty};
ghost use Rattle.ir_values.specs.declared.types.Ty.TheOpen.{Ty-F};
ghost use Rattle.check_constants.specs.Addresses as spec;
ghost use Rattle.check_constants.specs.Indices as indices_spec;
ghost use Rattle.check_constants.specs.Constants.{weighed, operand_weighed};
ghost use Rattle.check_constants.specs.Kept as kept_spec;
ghost use Rattle.check_constants.specs.Callees as callees;

use crate::indices::{Index, entered, known, number_in_index};
use crate::numbers::{extended, number_in};
use check_types::{Types, head, is_past, size, struct_offset};
use ir_values::{Const, Operand, Ty};
use ltt_base::{List, Memory, Text};
use std::alloc::Global;

/// The number that a text writes at a type. `None`: the type isn't one of integers, or can't hold it.
pub fn number_at(ty: &Ty, text: &[u8]) -> Option<u64>
    ensures { result ≡ spec.number_at (out-Ty ty.now) text.now }
{
    match ty {
        Ty::Int(width) => number_in(*width, text),
        _ => None,
    }
}

fn index_at(ty: &Ty, n: u64) -> Index
    ensures { result ≡ spec.index_at (out-Ty ty.now) n }
{
    match ty {
        Ty::Int(width) => Index::Number(extended(*width, n)),
        _ => Index::LeftOut,
    }
}

fn option_index(ty: &Ty, n: Option<u64>) -> Index
    ensures { result ≡ spec.option_index (out-Ty ty.now) n }
{
    match n {
        Some(n) => index_at(ty, n),
        None => Index::LeftOut,
    }
}

fn left_index(ty: Option<&Ty>, text: &[u8]) -> Index
    ensures { result ≡ spec.left_index (option_copied ty.entry) text.now }
{
    match ty {
        Some(ty) => option_index(ty, number_at(ty, text)),
        None => Index::LeftOut,
    }
}

fn zero_index(ty: Option<&Ty>) -> Index
    ensures { result ≡ spec.zero_index (option_copied ty.entry) }
{
    match ty {
        Some(Ty::Int(_)) => Index::Number(0),
        Some(_) => Index::Variable,
        None => Index::LeftOut,
    }
}

/// A constant as an index of an address, at a type. `None`: that isn't known.
pub fn index_of<'a>(types: &Types<'a>, ty: Option<&'a Ty>, constant: &'a Const) -> Index
    ensures { result ≡ kept_spec.index_of types.now.units (option_copied ty.entry) constant.now }
{
    match constant {
        Const::Int(width, n) => Index::Number(extended(*width, *n)),
        Const::Zero(own) => zero_index(head(types, own)),
        Const::Number(_, _) => Index::Address,
        Const::Left(text) => left_index(known(types, ty), text.bytes()),
        Const::Typed(own, part) => index_of(types, Some(own), part.get()),
        _ => Index::Variable,
    }
}

fn operand_index<'a>(types: &Types<'a>, operand: &'a Operand) -> Index
    ensures { result ≡ (operand_weighed operand.now).index types.now.units None }
{
    match operand {
        Operand::Reg(_) => Index::Variable,
        Operand::Const(constant) => index_of(types, None, constant),
    }
}

/// The indices of a constant address.
pub fn indices_of<'a>(
    alloc: Global,
    types: &Types<'a>,
    operands: &'a [Operand],
) -> Result<List<Index>, Memory>
    ensures { IfOk result (λ indices. indices ≡ spec.indices_of types.now.units (map operand_weighed operands.now)) }
{
    let mut indices = List::new(alloc);
    for operand in operands {
        indices.add(operand_index(types, operand))?;
    }
    Ok(indices)
}

/// The global at whose address a constant begins. `None`: it begins at none.
pub fn global_of(constant: &Const) -> Option<&Text>
    ensures { option_copied result ≡ callees.global_of constant.now }
{
    match constant {
        Const::Addr(name, _) => Some(name),
        Const::Gep(_, base, _) => global_of(base.get()),
        Const::Typed(_, part) => global_of(part.get()),
        _ => None,
    }
}

fn array_step(types: &Types<'_>, part: &Ty, index: Index) -> u64
    ensures { result ≡ indices_spec.array_step types.now.units part.now index }
{
    number_in_index(index).wrapping_mul(size(types, part))
}

fn struct_step(types: &Types<'_>, parts: &[Ty], index: Index) -> u64
    ensures { result ≡ indices_spec.struct_step types.now.units parts.now index }
{
    let bytes = struct_offset(types, parts, number_in_index(index));
    (bytes % 0x1_0000_0000_0000_0000) as u64
}

fn index_step(types: &Types<'_>, ty: Option<&Ty>, index: Index) -> u64
    ensures { result ≡ indices_spec.index_step types.now.units (option_copied ty.entry) index }
{
    match ty {
        Some(Ty::Array(_, part)) => array_step(types, part.get(), index),
        Some(Ty::Struct(parts)) => struct_step(types, parts.items(), index),
        _ => 0,
    }
}

#[tactic(auto, unfolding(crate::specs::Indices::walked))]
fn walked<'a>(types: &Types<'a>, from: u64, ty: &'a Ty, operands: &'a [Operand]) -> u64
    ensures { result
        ≡ indices_spec.walked types.now.units from (Some ty.now) (spec.indices_of types.now.units (map operand_weighed operands.now)) }
{
    let mut bytes = from;
    let mut place = Some(ty);
    for operand in operands {
        let index = operand_index(types, operand);
        let part = known(types, place);
        bytes = bytes.wrapping_add(index_step(types, part, index));
        place = entered(part, index);
    }
    bytes
}

/// The bytes that the indices of a constant address move it by, modulo 2^64. None where the type is past the limits.
#[tactic(auto, unfolding(crate::specs::Indices::moved))]
pub fn moved<'a>(types: &Types<'a>, ty: &'a Ty, operands: &'a [Operand]) -> u64
    ensures { result
        ≡ indices_spec.moved types.now.units ty.now (spec.indices_of types.now.units (map operand_weighed operands.now)) }
{
    match operands {
        [] => 0,
        [first, others @ ..] => {
            if is_past(types, ty) {
                return 0;
            }
            let from = array_step(types, ty, operand_index(types, first));
            walked(types, from, ty, others)
        }
    }
}

/// The bytes from the start of the global to where a constant begins, modulo 2^64.
pub fn offset_of<'a>(types: &Types<'a>, constant: &'a Const) -> u64
    ensures { result ≡ callees.offset_of types.now.units constant.now }
{
    match constant {
        Const::Addr(_, offset) => *offset,
        Const::Gep(own, base, operands) => {
            let from = offset_of(types, base.get());
            from.wrapping_add(moved(types, own, operands.items()))
        }
        Const::Typed(_, part) => offset_of(types, part.get()),
        _ => 0,
    }
}

fn is_pointer_head(ty: Option<&Ty>) -> bool
    ensures { result ≡ spec.is_pointer_head (option_copied ty.entry) }
{
    match ty {
        Some(Ty::Ptr) => true,
        _ => false,
    }
}

/// Whether a constant address begins at null.
pub fn is_null<'a>(types: &Types<'a>, constant: &'a Const) -> bool
    ensures { result ≡ (weighed constant.now).is_null types.now.units }
{
    match constant {
        Const::Null => true,
        Const::Zero(own) => is_pointer_head(head(types, own)),
        Const::Gep(_, base, _) => is_null(types, base.get()),
        Const::Typed(_, part) => is_null(types, part.get()),
        _ => false,
    }
}

/// The global whose address a constant comes to, so that a call of it is a direct one.
pub fn callee_of<'a>(types: &Types<'a>, constant: &'a Const) -> Option<&'a Text>
    ensures { option_copied result ≡ callees.callee_of types.now.units constant.now }
{
    if offset_of(types, constant) == 0 {
        global_of(constant)
    } else {
        None
    }
}
