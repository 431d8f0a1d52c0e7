// What is wrong with written types.
ghost use Rattle.std.specs.Prelude.{◌≡◌, map, IfOk};
ghost use Rattle.ir_values.specs.declared.types.Ty.{out-Ty};
ghost use Rattle.check_names.specs.Flaws.{each};
ghost use Rattle.check_types.specs.Written as spec;
ghost use Rattle.check_types.specs.Heads.{named_head};

use crate::ends::Types;
use crate::heads::named_head;
use crate::left::left_flaw;
use crate::named::is_opaque;
use crate::places::{Allowed, is_void, place_flaw};
use crate::sizes::past_flaw;
use check_names::{Flaw, Space, counts, use_flaw, when};
use ir_values::Ty;
use ltt_base::{Code, Memory};
use std::alloc::Global;

fn name_flaw(
    alloc: Global,
    types: &Types<'_>,
    quiet: bool,
    name: &[u8],
) -> Result<Option<Flaw>, Memory>
    ensures { IfOk result (λ flaw. flaw ≡ spec.name_flaw types.now.output types.now.units quiet name.now) }
{
    let used = use_flaw(alloc, types.context(), Space::Types, name)?;
    let unusable = is_opaque(types.context(), name) || types.is_endless(name);
    Ok(counts(used, when(!quiet && unusable, Code::E06)))
}

fn is_void_name<'a>(types: &Types<'a>, name: &'a [u8]) -> bool
    ensures { result ≡ spec.is_void_head (named_head types.now.units name.now) }
{
    match named_head(types, name) {
        Some(ty) => is_void(ty),
        None => false,
    }
}

/// Whether a type stands for `void`. It doesn't matter whether the unit is quiet.
fn is_void_type<'a>(types: &Types<'a>, quiet: bool, ty: &'a Ty) -> bool
    ensures { result ≡ (spec.written types.now.output types.now.units quiet ty.now).void }
{
    let _ = quiet;
    match ty {
        Ty::Void => true,
        Ty::Named(name) => is_void_name(types, name.bytes()),
        _ => false,
    }
}

#[cycle(written)]
fn written_flaw<'a>(
    alloc: Global,
    types: &Types<'a>,
    quiet: bool,
    ty: &'a Ty,
) -> Result<Option<Flaw>, Memory>
    ensures { IfOk result (λ flaw. flaw ≡ (spec.written types.now.output types.now.units quiet ty.now).flaw) }
{
    match ty {
        Ty::Array(_, part) => part_flaw(alloc, types, quiet, part.get()),
        Ty::Struct(parts) => parts_flaw(alloc, types, quiet, parts.items()),
        Ty::Named(name) => name_flaw(alloc, types, quiet, name.bytes()),
        Ty::Left(text) => left_flaw(alloc, quiet, text.bytes()),
        _ => Ok(None),
    }
}

#[cycle(written)]
fn part_flaw<'a>(
    alloc: Global,
    types: &Types<'a>,
    quiet: bool,
    part: &'a Ty,
) -> Result<Option<Flaw>, Memory>
    ensures { IfOk result (λ flaw. flaw
        ≡ spec.part_flaw quiet (spec.written types.now.output types.now.units quiet part.now)) }
{
    let flaw = written_flaw(alloc, types, quiet, part)?;
    let void = is_void_type(types, quiet, part);
    Ok(counts(flaw, when(!quiet && void, Code::E06)))
}

#[cycle(written)]
fn parts_flaw<'a>(
    alloc: Global,
    types: &Types<'a>,
    quiet: bool,
    parts: &'a [Ty],
) -> Result<Option<Flaw>, Memory>
    ensures { IfOk result (λ flaw. flaw
        ≡ each (spec.part_flaw quiet) (map (spec.written types.now.output types.now.units quiet) parts.now)) }
{
    let mut flaw = None;
    for at in (0..parts.len()).rev() {
        flaw = counts(part_flaw(alloc, types, quiet, &parts[at])?, flaw);
    }
    Ok(flaw)
}

fn is_metadata_type(ty: &Ty) -> bool
    ensures { result ≡ spec.is_metadata_type (out-Ty ty.now) }
{
    match ty {
        Ty::Left(text) => text.bytes() == b"metadata".as_slice(),
        _ => false,
    }
}

fn is_metadata_place(allowed: Allowed) -> bool
    ensures { result ≡ spec.is_metadata_place allowed }
{
    match allowed {
        Allowed::Metadata => true,
        _ => false,
    }
}

/// The flaws of a type that is written at a place.
///
/// A quiet unit, one that declares or calls a left-out intrinsic, has no flaw for a known type that stands where it may not, and
/// none for an opaque or endless name.
pub fn type_flaw<'a>(
    alloc: Global,
    types: &Types<'a>,
    quiet: bool,
    allowed: Allowed,
    ty: &'a Ty,
) -> Result<Option<Flaw>, Memory>
    ensures { IfOk result (λ flaw. flaw ≡ spec.type_flaw types.now.output types.now.units quiet allowed ty.now) }
{
    if is_metadata_place(allowed) && is_metadata_type(ty) {
        return Ok(None);
    }
    let flaw = written_flaw(alloc, types, quiet, ty)?;
    let placed = place_flaw(types, quiet, allowed, ty);
    let past = past_flaw(alloc, types, ty)?;
    Ok(counts(counts(flaw, placed), past))
}
