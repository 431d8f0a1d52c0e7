// Phis.
ghost use Rattle.std.specs.Prelude.{◌≡◌, ℕ, List, cond, find, slice_get, Some, IfOk, OnOk};
ghost use Rattle.std.specs.List.{list_any};
ghost use Rattle.std.specs.Option.{option_copied};
ghost use Rattle.std.specs.Str.{bytes_eq};
ghost use Rattle.check_names.specs.Flaws.{each};
ghost use Rattle.check_instructions.specs.Phis as spec;
ghost use Rattle.check_instructions.specs.Places.{arm_place, FindsArms};

use check_bodies::Body;
use check_names::{Flaw, counts, when};
use check_operands::{Made, label_flaw, operand_flaw};
use check_types::{Allowed, Types, type_flaw};
use ir_values::{Operand, Ty};
use kept_parts::kept_arms;
use ltt_base::{Code, Memory, Same, Text};
use std::alloc::Global;
use std::collections::BTreeMap;

fn arm_flaw<'a>(
    alloc: Global,
    types: &Types<'a>,
    made: &'a Made,
    body: &Body<'a>,
    ty: &'a Ty,
    arm: &'a (Operand, Text),
) -> Result<Option<Flaw>, Memory>
    requires { body.now.units ≡ types.now.units }
    ensures { IfOk result (λ flaw. flaw
        ≡ spec.arm_flaw types.now.output types.now.units body.now.head ty.now arm.now) }
{
    let value = operand_flaw(alloc, types, made, body, false, ty, &arm.0)?;
    let label = label_flaw(alloc, types, body, &arm.1)?;
    Ok(counts(value, label))
}

fn each_arm_flaw<'a>(
    alloc: Global,
    types: &Types<'a>,
    made: &'a Made,
    body: &Body<'a>,
    ty: &'a Ty,
    arms: &'a [(Operand, Text)],
) -> Result<Option<Flaw>, Memory>
    requires { body.now.units ≡ types.now.units }
    ensures { IfOk result (λ flaw. flaw
        ≡ each (spec.arm_flaw types.now.output types.now.units body.now.head ty.now) arms.now) }
{
    let mut flaw = None;
    for at in (0..arms.len()).rev() {
        flaw = counts(arm_flaw(alloc, types, made, body, ty, &arms[at])?, flaw);
    }
    Ok(flaw)
}

fn put<'a>(map: &mut BTreeMap<&'a [u8], usize>, label: &'a [u8], at: usize) -> Result<(), Memory>
    ensures { OnOk result ((q : List ℕ) → arm_place q map.new
        ≡ cond (bytes_eq label.now q) (Some at) (arm_place q map.old)) }
{
    match map.insert(label, at) {
        Ok(_) => Ok(()),
        Err(_) => Err(Memory),
    }
}

fn places<'a>(
    alloc: Global,
    arms: &'a [(Operand, Text)],
) -> Result<BTreeMap<&'a [u8], usize>, Memory>
    ensures { IfOk result (FindsArms arms.now) }
{
    let mut map = BTreeMap::new(alloc);
    for at in (0..arms.len()).rev() {
        put(&mut map, arms[at].1.bytes(), at)?;
    }
    Ok(map)
}

fn arm_at(arms: &[(Operand, Text)], at: usize) -> Option<&(Operand, Text)>
    ensures { option_copied result ≡ slice_get arms.now at }
{
    arms.get(at)
}

fn place_in(map: &BTreeMap<&[u8], usize>, label: &[u8]) -> Option<usize>
    ensures { result ≡ arm_place label.now map.now }
{
    map.get(label).copied()
}

fn first_arm<'a>(
    arms: &'a [(Operand, Text)],
    map: &BTreeMap<&[u8], usize>,
    label: &[u8],
) -> Option<&'a (Operand, Text)>
    requires { FindsArms arms.now map.now }
    ensures { option_copied result ≡ find (spec.has_label label.now) arms.now }
{
    match place_in(map, label) {
        Some(at) => arm_at(arms, at),
        None => None,
    }
}

fn is_value(value: &Operand, arm: Option<&(Operand, Text)>) -> bool
    ensures { result ≡ spec.is_value value.now (option_copied arm.entry) }
{
    match arm {
        Some(arm) => arm.0 == *value,
        None => true,
    }
}

/// Whether one label has two values among arms.
fn are_torn(alloc: Global, arms: &[(Operand, Text)]) -> Result<bool, Memory>
    ensures { IfOk result (λ answer. answer ≡ spec.are_torn arms.now) }
{
    let map = places(alloc, arms)?;
    for arm in arms {
        if !is_value(&arm.0, first_arm(arms, &map, arm.1.bytes())) {
            return Ok(true);
        }
    }
    Ok(false)
}

fn torn_flaw<'a>(
    alloc: Global,
    types: &Types<'a>,
    ty: &'a Ty,
    arms: &'a [(Operand, Text)],
) -> Result<Option<Flaw>, Memory>
    ensures { IfOk result (λ flaw. flaw ≡ spec.torn_flaw types.now.units ty.now arms.now) }
{
    let kept = kept_arms(alloc, types, ty, arms)?;
    Ok(when(are_torn(alloc, kept.items())?, Code::E03))
}

pub(crate) fn phi_flaw<'a>(
    alloc: Global,
    types: &Types<'a>,
    made: &'a Made,
    body: &Body<'a>,
    ty: &'a Ty,
    arms: &'a [(Operand, Text)],
) -> Result<Option<Flaw>, Memory>
    requires { body.now.units ≡ types.now.units }
    ensures { IfOk result (λ flaw. flaw
        ≡ spec.phi_flaw types.now.output types.now.units body.now.head ty.now arms.now) }
{
    let torn = torn_flaw(alloc, types, ty, arms)?;
    let written = type_flaw(alloc, types, false, Allowed::Scalar, ty)?;
    let each = each_arm_flaw(alloc, types, made, body, ty, arms)?;
    Ok(counts(torn, counts(written, each)))
}
