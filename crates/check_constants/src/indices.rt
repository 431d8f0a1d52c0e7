// The indices of an address.
ghost use Rattle.std.specs.Prelude.{◌≡◌};
ghost use Rattle.std.specs.Option.{option_copied};
ghost use Rattle.check_constants.specs.Indices as spec;

use check_names::{Flaw, counts, when};
use check_types::{Types, head};
use ir_values::Ty;
use ltt_base::Code;

/// An index of an address: a number with its sign, as one of 64 bits; the number of an address; what is left out or stands at a type
/// that isn't known; or anything else, such as a register.
#[derive(Clone, Copy)]
pub enum Index {
    Number(u64),
    Address,
    LeftOut,
    Variable,
}

/// A type with its names followed. `None`: it isn't known.
pub fn known<'a>(types: &Types<'a>, ty: Option<&'a Ty>) -> Option<&'a Ty>
    ensures { option_copied result ≡ spec.known types.now.units (option_copied ty.entry) }
{
    match ty {
        Some(ty) => head(types, ty),
        None => None,
    }
}

/// The number of an index, 0 for an index that is none.
pub fn number_in_index(index: Index) -> u64
    ensures { result ≡ spec.number_in_index index }
{
    match index {
        Index::Number(n) => n,
        _ => 0,
    }
}

fn is_part(output: bool, parts: usize, index: Index) -> bool
    ensures { result ≡ spec.is_part output parts index }
{
    match index {
        Index::Number(n) => n < parts as u64,
        Index::Address => !output,
        Index::LeftOut => true,
        Index::Variable => false,
    }
}

fn index_flaw(output: bool, quiet: bool, ty: Option<&Ty>, index: Index) -> Option<Flaw>
    ensures { result ≡ spec.index_flaw output quiet (option_copied ty.entry) index }
{
    match ty {
        Some(Ty::Array(_, _)) => None,
        Some(Ty::Struct(parts)) => when(!is_part(output, parts.len(), index), Code::E06),
        Some(_) => when(!quiet, Code::E06),
        None => None,
    }
}

fn struct_part(parts: &[Ty], index: Index) -> Option<&Ty>
    ensures { option_copied result ≡ spec.struct_part parts.now index }
{
    match index {
        Index::Number(n) => parts.get(n as usize),
        _ => None,
    }
}

/// The part of a known type that an index leads to. `None`: that isn't known.
pub fn entered<'a>(ty: Option<&'a Ty>, index: Index) -> Option<&'a Ty>
    ensures { option_copied result ≡ spec.entered (option_copied ty.entry) index }
{
    match ty {
        Some(Ty::Array(_, part)) => Some(part.get()),
        Some(Ty::Struct(parts)) => struct_part(parts.items(), index),
        _ => None,
    }
}

#[tactic(auto, unfolding(crate::specs::Indices::walk_flaw))]
fn walk_flaw<'a>(
    types: &Types<'a>,
    quiet: bool,
    ty: Option<&'a Ty>,
    indices: &[Index],
) -> Option<Flaw>
    ensures { result ≡ spec.walk_flaw types.now.output types.now.units quiet None (option_copied ty.entry) indices.now }
{
    let output = types.context().is_output();
    let mut place = ty;
    let mut found = None;
    for index in indices {
        let part = known(types, place);
        found = counts(found, index_flaw(output, quiet, part, *index));
        place = entered(part, *index);
    }
    found
}

fn behind_first(indices: &[Index]) -> &[Index]
    ensures { result.now ≡ spec.behind_first indices.now }
{
    match indices {
        [] => indices,
        [_, others @ ..] => others,
    }
}

/// The flaws of the indices of an address that stands for a type: one into a struct is a number in range, and one into a known type
/// that is neither array nor struct may not stand, but in a quiet unit.
///
/// Source: LLVM Language Reference, "'getelementptr' Instruction".
pub fn indices_flaw<'a>(
    types: &Types<'a>,
    quiet: bool,
    ty: &'a Ty,
    indices: &[Index],
) -> Option<Flaw>
    ensures { result ≡ spec.indices_flaw types.now.output types.now.units quiet ty.now indices.now }
{
    walk_flaw(types, quiet, Some(ty), behind_first(indices))
}
