// Whether types differ.
ghost use Rattle.std.specs.Prelude.{◌≡◌, IsTrue};
ghost use Rattle.std.specs.Option.{option_copied};
ghost use Rattle.ir_values.specs.declared.types.Ty.{out-Ty};
ghost use Rattle.check_types.specs.Differences as spec;

use crate::ends::Types;
use crate::heads::head;
use crate::sizes::is_past;
use ir_numbers::bits;
use ir_values::Ty;
use ltt_base::Same;

/// The most levels of a type within the limits.
pub const LEVELS: u32 = 4096;

fn is_same_name(one: &Ty, other: &Ty) -> bool
    ensures { IsTrue result → one.now ≡ other.now }
{
    match (one, other) {
        (Ty::Named(_), Ty::Named(_)) => one.is(other),
        _ => false,
    }
}

/// Whether two types differ in a part that is so many levels deep at most. Of the same name none does.
#[cycle(differences)]
#[tactic(auto, using(crate::proofs::PartLemmas::differ_none, crate::proofs::PartLemmas::differ_same))]
fn differ_within<'a>(types: &Types<'a>, levels: u32, one: &'a Ty, other: &'a Ty) -> bool
    ensures { result ≡ spec.differ_within types.now.units levels one.now other.now }
{
    if levels == 0 {
        return false;
    }
    if is_same_name(one, other) {
        return false;
    }
    heads_differ(types, levels - 1, head(types, one), head(types, other))
}

#[cycle(differences)]
fn heads_differ<'a>(
    types: &Types<'a>,
    levels: u32,
    one: Option<&'a Ty>,
    other: Option<&'a Ty>,
) -> bool
    ensures { result ≡ spec.heads_differ (spec.differ_within types.now.units levels)
        (option_copied one.entry) (option_copied other.entry) }
{
    match (one, other) {
        (Some(one), Some(other)) => layers_differ(types, levels, one, other),
        _ => false,
    }
}

#[cycle(differences)]
fn layers_differ<'a>(types: &Types<'a>, levels: u32, one: &'a Ty, other: &'a Ty) -> bool
    ensures { result ≡ spec.layers_differ (spec.differ_within types.now.units levels)
        (out-Ty one.now) (out-Ty other.now) }
{
    match (one, other) {
        (Ty::Int(one), Ty::Int(other)) => bits(*one) != bits(*other),
        (Ty::Array(many, one), Ty::Array(few, other)) => {
            *many != *few || differ_within(types, levels, one.get(), other.get())
        }
        (Ty::Struct(ones), Ty::Struct(others)) => {
            lists_differ(types, levels, ones.items(), others.items())
        }
        (Ty::Void, Ty::Void) => false,
        (Ty::Ptr, Ty::Ptr) => false,
        (Ty::Pair, Ty::Pair) => false,
        _ => true,
    }
}

#[cycle(differences)]
#[tactic(auto, using(crate::proofs::PartLemmas::lists_apart))]
fn lists_differ<'a>(types: &Types<'a>, levels: u32, ones: &'a [Ty], others: &'a [Ty]) -> bool
    ensures { result ≡ spec.lists_differ (spec.differ_within types.now.units levels)
        ones.now others.now }
{
    if ones.len() != others.len() {
        return true;
    }
    let mut differ = false;
    for at in (0..ones.len()).rev() {
        differ = differ_within(types, levels, &ones[at], &others[at]) || differ;
    }
    differ
}

/// Whether two types differ, with their names replaced.
///
/// A part that isn't known differs from nothing, and nor does a type past the limits.
///
/// Source: LLVM Language Reference, "Type System".
#[tactic(auto, unfolding(crate::specs::Differences::differ))]
pub fn differ<'a>(types: &Types<'a>, one: &'a Ty, other: &'a Ty) -> bool
    ensures { result ≡ spec.differ types.now.units one.now other.now }
{
    !is_past(types, one) && !is_past(types, other) && differ_within(types, LEVELS, one, other)
}
