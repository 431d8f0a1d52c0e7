// The flaws of constants without parts, and of addresses by their indices.
ghost use Rattle.std.specs.Prelude.{◌≡◌, IfOk, map};
ghost use Rattle.std.specs.List.{list_any};
ghost use Rattle.check_constants.specs.Rules as spec;
ghost use Rattle.check_constants.specs.Addresses.{indices_of};
ghost use Rattle.check_constants.specs.Constants.{weighed, operand_weighed};
ghost use Rattle.check_constants.specs.Shapes.{type_at};

use crate::addresses::{is_null, moved, number_at};
use crate::expected::Expected;
use crate::indices::Index;
use crate::intrinsics::uncalled_flaw;
use crate::numbers::{is_number, number_in};
use crate::shapes::{is_other_than_bytes, is_other_than_pointer, is_other_than_width};
use check_names::{Flaw, Space, counts, use_flaw, when, worded_when};
use check_types::{Types, left_word};
use ir_values::{Const, Operand, Ty, Width};
use ltt_base::{Code, Memory};
use std::alloc::Global;

/// A pointer at a known type that isn't `ptr`.
pub fn pointer_flaw(quiet: bool, place: Expected<'_>) -> Option<Flaw>
    ensures { result ≡ spec.pointer_flaw quiet (type_at place.entry) }
{
    when(!quiet && is_other_than_pointer(place), Code::E06)
}

fn used_flaw(alloc: Global, types: &Types<'_>, name: &[u8]) -> Result<Option<Flaw>, Memory>
    ensures { IfOk result (λ flaw. flaw ≡ spec.used_flaw types.now.output types.now.units name.now) }
{
    let used = use_flaw(alloc, types.context(), Space::Globals, name)?;
    Ok(counts(used, uncalled_flaw(alloc, types.context(), name)?))
}

/// The address of a global.
pub fn address_flaw<'a>(
    alloc: Global,
    types: &Types<'a>,
    quiet: bool,
    place: Expected<'a>,
    name: &[u8],
) -> Result<Option<Flaw>, Memory>
    ensures { IfOk result (λ flaw. flaw
        ≡ spec.address_flaw types.now.output types.now.units quiet (type_at place.entry) name.now) }
{
    let used = used_flaw(alloc, types, name)?;
    Ok(counts(used, pointer_flaw(quiet, place)))
}

/// The number of an address, which a source leaves out.
pub fn address_number_flaw<'a>(
    alloc: Global,
    types: &Types<'a>,
    quiet: bool,
    place: Expected<'a>,
    name: &[u8],
) -> Result<Option<Flaw>, Memory>
    ensures { IfOk result (λ flaw. flaw
        ≡ spec.address_number_flaw types.now.output types.now.units quiet (type_at place.entry) name.now) }
{
    if types.context().is_output() {
        let used = used_flaw(alloc, types, name)?;
        let other = is_other_than_width(Width::W64, place);
        Ok(counts(used, when(!quiet && other, Code::E06)))
    } else {
        let left = worded_when(alloc, true, Code::E07, b"ptrtoint")?;
        Ok(counts(
            left,
            use_flaw(alloc, types.context(), Space::Globals, name)?,
        ))
    }
}

fn number_flaw(place: Expected<'_>, text: &[u8]) -> Option<Flaw>
    ensures { result ≡ spec.number_flaw (type_at place.entry) text.now }
{
    match place {
        Expected::Unknown => None,
        Expected::Pointer => when(true, Code::E06),
        Expected::Bit => when(number_in(Width::W1, text).is_none(), Code::E06),
        Expected::Written(ty) => when(number_at(ty, text).is_none(), Code::E06),
    }
}

#[tactic(auto, unfolding(crate::specs::Rules::is_word_start))]
fn is_word_start(byte: u8) -> bool
    ensures { result ≡ spec.is_word_start byte }
{
    b'a' <= byte && byte <= b'z' || b'A' <= byte && byte <= b'Z' || byte == b'_'
}

fn begins_word(text: &[u8]) -> bool
    ensures { result ≡ spec.begins_word text.now }
{
    match text {
        [] => false,
        [first, ..] => is_word_start(*first),
    }
}

/// The word that a refusal shows of a left-out constant.
pub fn left_constant_word(text: &[u8]) -> &[u8]
    ensures { result.now ≡ spec.left_constant_word text.now }
{
    if begins_word(text) {
        left_word(text)
    } else {
        text
    }
}

/// A number that no type before it takes as it stands, or what is left out.
pub fn left_constant_flaw(
    alloc: Global,
    place: Expected<'_>,
    text: &[u8],
) -> Result<Option<Flaw>, Memory>
    ensures { IfOk result (λ flaw. flaw ≡ spec.left_constant_flaw (type_at place.entry) text.now) }
{
    if is_number(text) {
        Ok(number_flaw(place, text))
    } else {
        worded_when(alloc, true, Code::E07, left_constant_word(text))
    }
}

/// A text of bytes at a known type that isn't an array of as many.
pub fn bytes_flaw<'a>(
    types: &Types<'a>,
    quiet: bool,
    place: Expected<'a>,
    text: &[u8],
) -> Option<Flaw>
    ensures { result ≡ spec.bytes_flaw types.now.units quiet (type_at place.entry) text.now }
{
    let other = is_other_than_bytes(types, text.len(), place);
    when(!quiet && other, Code::E06)
}

fn is_address(index: Index) -> bool
    ensures { result ≡ spec.is_address index }
{
    match index {
        Index::Address => true,
        _ => false,
    }
}

fn has_address(indices: &[Index]) -> bool
    ensures { result ≡ list_any spec.is_address indices.now }
{
    indices.iter().any(|index| is_address(*index))
}

/// An address without a value: null moved away, or moved by the number of an address.
pub fn valueless_flaw<'a>(
    alloc: Global,
    types: &Types<'a>,
    own: &'a Ty,
    base: &'a Const,
    operands: &'a [Operand],
    indices: &[Index],
) -> Result<Option<Flaw>, Memory>
    requires { indices.now ≡ indices_of types.now.units (map operand_weighed operands.now) }
    ensures { IfOk result (λ flaw. flaw
        ≡ spec.valueless_flaw types.now.output types.now.units own.now (weighed base.now) indices.now) }
{
    let from_null = is_null(types, base) && moved(types, own, operands) != 0;
    let by_address = types.context().is_output() && has_address(indices);
    worded_when(alloc, from_null || by_address, Code::E07, b"getelementptr")
}
