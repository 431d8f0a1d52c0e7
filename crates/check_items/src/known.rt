// Types that are known in all their parts.
ghost use Rattle.std.specs.Prelude.{◌≡◌};
ghost use Rattle.std.specs.List.{list_all};
ghost use Rattle.std.specs.Option.{option_copied};
ghost use Rattle.ir_values.specs.declared.types.Ty.{out-Ty};
ghost use Rattle.check_items.specs.Known as spec;

use check_types::{Types, head, is_past};
use ir_values::Ty;

#[cycle(known)]
#[tactic(auto, using(crate::proofs::KnownLemmas::known_next), unfolding(crate::specs::Known::is_known_within))]
fn is_known_within<'a>(types: &Types<'a>, levels: u32, ty: &'a Ty) -> bool
    ensures { result ≡ spec.is_known_within types.now.units levels ty.now }
{
    if levels == 0 {
        return false;
    }
    is_known_head(types, levels - 1, head(types, ty))
}

#[cycle(known)]
fn is_known_head<'a>(types: &Types<'a>, levels: u32, ty: Option<&'a Ty>) -> bool
    ensures { result ≡ spec.known_head (spec.is_known_within types.now.units levels) (option_copied ty.entry) }
{
    match ty {
        Some(ty) => are_known_parts(types, levels, ty),
        None => false,
    }
}

#[cycle(known)]
fn are_known_parts<'a>(types: &Types<'a>, levels: u32, ty: &'a Ty) -> bool
    ensures { result ≡ spec.known_parts (spec.is_known_within types.now.units levels) (out-Ty ty.now) }
{
    match ty {
        Ty::Array(_, part) => is_known_within(types, levels, part.get()),
        Ty::Struct(parts) => are_known(types, levels, parts.items()),
        _ => true,
    }
}

#[cycle(known)]
fn are_known<'a>(types: &Types<'a>, levels: u32, parts: &'a [Ty]) -> bool
    ensures { result ≡ list_all (spec.is_known_within types.now.units levels) parts.now }
{
    let mut all = true;
    for at in (0..parts.len()).rev() {
        all = is_known_within(types, levels, &parts[at]) && all;
    }
    all
}

/// Whether a type is within the limits, and no part of it is left out, undefined, opaque or endless.
///
/// It takes a step for each type that is written in it, its names replaced, of which there are at most 4,096.
#[tactic(auto, unfolding(crate::specs::Known::is_known))]
pub fn is_known<'a>(types: &Types<'a>, ty: &'a Ty) -> bool
    ensures { result ≡ spec.is_known types.now.units ty.now }
{
    !is_past(types, ty) && is_known_within(types, 4096, ty)
}
