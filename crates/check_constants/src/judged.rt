// What is wrong with constants.
ghost use Rattle.std.specs.Prelude.{◌≡◌, IfOk, map};
ghost use Rattle.std.specs.Option.{option_copied};
ghost use Rattle.check_names.specs.Flaws.{each};
ghost use Rattle.check_constants.specs.Addresses.{indices_of};
ghost use Rattle.check_constants.specs.Rules as spec;
ghost use Rattle.check_constants.specs.Constants.{weighed, operand_weighed};
ghost use Rattle.check_constants.specs.Judged as judged;
ghost use Rattle.check_constants.specs.Shapes.{type_at};

use crate::addresses::indices_of;
use crate::expected::{Expected, known_place, part_of, place_of};
use crate::indices::indices_flaw;
use crate::rules::{
    address_flaw, address_number_flaw, bytes_flaw, left_constant_flaw, pointer_flaw, valueless_flaw,
};
use crate::shapes::{is_different, is_other_than_array, is_other_than_struct, is_other_than_width};
use check_names::{Flaw, counts, when};
use check_types::{Allowed, Types, type_flaw};
use ir_values::{Const, Operand, Ty};
use ltt_base::{Code, Memory};
use std::alloc::Global;

fn written_type(constant: &Const) -> Option<&Ty>
    ensures { option_copied result ≡ (weighed constant.now).written }
{
    match constant {
        Const::Typed(own, _) => Some(own),
        _ => None,
    }
}

fn moved_flaw<'a>(
    alloc: Global,
    types: &Types<'a>,
    quiet: bool,
    place: Expected<'a>,
    own: &'a Ty,
    base: &'a Const,
    operands: &'a [Operand],
    parts: Option<Flaw>,
) -> Result<Option<Flaw>, Memory>
    ensures { IfOk result (λ flaw. flaw
        ≡ spec.moved_flaw types.now.output types.now.units quiet (type_at place.entry) own.now (weighed base.now)
        (indices_of types.now.units (map operand_weighed operands.now)) parts) }
{
    let indices = indices_of(alloc, types, operands)?;
    let valueless = valueless_flaw(alloc, types, own, base, operands, indices.items())?;
    let written = type_flaw(alloc, types, quiet, Allowed::NonVoid, own)?;
    let led = indices_flaw(types, quiet, own, indices.items());
    let placed = pointer_flaw(quiet, place);
    Ok(counts(
        valueless,
        counts(written, counts(parts, counts(led, placed))),
    ))
}

fn typed_flaw<'a>(
    alloc: Global,
    types: &Types<'a>,
    quiet: bool,
    allowed: Allowed,
    own: &'a Ty,
    part: Option<Flaw>,
) -> Result<Option<Flaw>, Memory>
    ensures { IfOk result (λ flaw. flaw
        ≡ spec.typed_flaw types.now.output types.now.units quiet allowed own.now part) }
{
    let written = type_flaw(alloc, types, quiet, allowed, own)?;
    Ok(counts(written, part))
}

#[cycle(judged)]
fn part_flaw<'a>(
    alloc: Global,
    types: &Types<'a>,
    quiet: bool,
    ty: Option<&'a Ty>,
    part: &'a Const,
) -> Result<Option<Flaw>, Memory>
    ensures { IfOk result (λ flaw. flaw
        ≡ spec.part_flaw types.now.output types.now.units quiet (option_copied ty.entry) (weighed part.now)) }
{
    let flaw = placed_flaw(alloc, types, quiet, Allowed::NonVoid, place_of(ty), part)?;
    let different = is_different(types, written_type(part), ty);
    Ok(counts(flaw, when(!quiet && different, Code::E06)))
}

#[cycle(judged)]
#[tactic(auto, unfolding(crate::specs::Rules::parts_flaw))]
fn parts_flaw<'a>(
    alloc: Global,
    types: &Types<'a>,
    quiet: bool,
    place: Expected<'a>,
    parts: &'a [Const],
) -> Result<Option<Flaw>, Memory>
    ensures { IfOk result (λ flaw. flaw
        ≡ spec.parts_flaw types.now.output types.now.units quiet (type_at place.entry) 0 (map weighed parts.now)) }
{
    let mut flaw = None;
    for at in (0..parts.len()).rev() {
        flaw = counts(
            part_flaw(alloc, types, quiet, part_of(place, at), &parts[at])?,
            flaw,
        );
    }
    Ok(flaw)
}

#[cycle(judged)]
fn array_flaw<'a>(
    alloc: Global,
    types: &Types<'a>,
    quiet: bool,
    place: Expected<'a>,
    parts: &'a [Const],
) -> Result<Option<Flaw>, Memory>
    ensures { IfOk result (λ flaw. flaw
        ≡ spec.array_flaw types.now.output types.now.units quiet (type_at place.entry) (map weighed parts.now)) }
{
    let other = is_other_than_array(parts.len(), place);
    let flaw = parts_flaw(alloc, types, quiet, place, parts)?;
    Ok(counts(when(!quiet && other, Code::E06), flaw))
}

#[cycle(judged)]
fn struct_flaw<'a>(
    alloc: Global,
    types: &Types<'a>,
    quiet: bool,
    place: Expected<'a>,
    parts: &'a [Const],
) -> Result<Option<Flaw>, Memory>
    ensures { IfOk result (λ flaw. flaw
        ≡ spec.struct_flaw types.now.output types.now.units quiet (type_at place.entry) (map weighed parts.now)) }
{
    let other = is_other_than_struct(parts.len(), place);
    let flaw = parts_flaw(alloc, types, quiet, place, parts)?;
    Ok(counts(when(!quiet && other, Code::E06), flaw))
}

#[cycle(judged)]
fn index_flaw<'a>(
    alloc: Global,
    types: &Types<'a>,
    quiet: bool,
    operand: &'a Operand,
) -> Result<Option<Flaw>, Memory>
    ensures { IfOk result (λ flaw. flaw
        ≡ spec.one_index_flaw types.now.output types.now.units quiet (operand_weighed operand.now)) }
{
    match operand {
        Operand::Reg(_) => Ok(None),
        Operand::Const(constant) => {
            placed_flaw(
                alloc,
                types,
                quiet,
                Allowed::Integer,
                Expected::Unknown,
                constant,
            )
        }
    }
}

#[cycle(judged)]
fn each_index_flaw<'a>(
    alloc: Global,
    types: &Types<'a>,
    quiet: bool,
    operands: &'a [Operand],
) -> Result<Option<Flaw>, Memory>
    ensures { IfOk result (λ flaw. flaw
        ≡ each (spec.one_index_flaw types.now.output types.now.units quiet) (map operand_weighed operands.now)) }
{
    let mut flaw = None;
    for at in (0..operands.len()).rev() {
        flaw = counts(index_flaw(alloc, types, quiet, &operands[at])?, flaw);
    }
    Ok(flaw)
}

#[cycle(judged)]
fn placed_flaw<'a>(
    alloc: Global,
    types: &Types<'a>,
    quiet: bool,
    allowed: Allowed,
    place: Expected<'a>,
    constant: &'a Const,
) -> Result<Option<Flaw>, Memory>
    ensures { IfOk result (λ flaw. flaw
        ≡ (weighed constant.now).flaw types.now.output types.now.units quiet allowed (type_at place.entry)) }
{
    let place = known_place(types, place);
    match constant {
        Const::Int(width, _) => Ok(when(is_other_than_width(*width, place), Code::E06)),
        Const::Null => Ok(pointer_flaw(quiet, place)),
        Const::Addr(name, _) => address_flaw(alloc, types, quiet, place, name.bytes()),
        Const::Zero(_) => Ok(None),
        Const::Array(_, parts) => array_flaw(alloc, types, quiet, place, parts.items()),
        Const::Struct(parts) => struct_flaw(alloc, types, quiet, place, parts.items()),
        Const::Bytes(text) => Ok(bytes_flaw(types, quiet, place, text.bytes())),
        Const::Gep(own, base, operands) => {
            let pointer = Expected::Pointer;
            let from = placed_flaw(alloc, types, quiet, Allowed::NonVoid, pointer, base.get())?;
            let by = each_index_flaw(alloc, types, quiet, operands.items())?;
            let parts = counts(from, by);
            moved_flaw(
                alloc,
                types,
                quiet,
                place,
                own,
                base.get(),
                operands.items(),
                parts,
            )
        }
        Const::Number(name, _) => address_number_flaw(alloc, types, quiet, place, name.bytes()),
        Const::Left(text) => left_constant_flaw(alloc, place, text.bytes()),
        Const::Typed(own, part) => {
            let behind = Expected::Written(own);
            let flaw = placed_flaw(alloc, types, quiet, Allowed::NonVoid, behind, part.get())?;
            typed_flaw(alloc, types, quiet, allowed, own, flaw)
        }
    }
}

/// The flaws of a constant at a type.
///
/// A quiet unit, one that declares or calls a left-out intrinsic, has no flaw for a type that differs. A number that its type can't
/// hold, one at a type that isn't of integers, and an index into a struct have theirs all the same.
///
/// Source: LLVM Language Reference, "Constants". Differs: the codes are this project's own.
pub fn expected_flaw<'a>(
    alloc: Global,
    types: &Types<'a>,
    quiet: bool,
    place: Expected<'a>,
    constant: &'a Const,
) -> Result<Option<Flaw>, Memory>
    ensures { IfOk result (λ flaw. flaw
        ≡ judged.constant_flaw types.now.output types.now.units quiet (type_at place.entry) constant.now) }
{
    placed_flaw(alloc, types, quiet, Allowed::NonVoid, place, constant)
}

/// The flaws of a constant behind a written type. `None` for the type: it isn't known, and the constant differs from nothing.
pub fn constant_flaw<'a>(
    alloc: Global,
    types: &Types<'a>,
    quiet: bool,
    ty: Option<&'a Ty>,
    constant: &'a Const,
) -> Result<Option<Flaw>, Memory>
    ensures { IfOk result (λ flaw. flaw
        ≡ judged.constant_flaw types.now.output types.now.units quiet (option_copied ty.entry) constant.now) }
{
    expected_flaw(alloc, types, quiet, place_of(ty), constant)
}
