ghost use Rattle.std.specs.Prelude.{◌≡◌, ℕ, List, cond, is_some, map, Some, IfOk, OnOk};
ghost use Rattle.std.specs.List.{list_any};
ghost use Rattle.std.specs.Str.{bytes_eq};
ghost use Rattle.check_bodies.specs.Blocks as spec;
ghost use Rattle.check_bodies.specs.Labels.{place_in, Holds};

use crate::blocks::{BlockMark, block_label};
use ir_values::{BranchText, Const, Form, Operand, Ty, Unit};
use ltt_base::{List, Memory, Placed, Text};
use std::alloc::Global;
use std::collections::BTreeMap;

fn put<'a>(map: &mut BTreeMap<&'a [u8], usize>, label: &'a [u8], at: usize) -> Result<(), Memory>
    ensures { OnOk result ((q : List ℕ) → place_in q map.new ≡ cond (bytes_eq label.now q) (Some at) (place_in q map.old)) }
{
    match map.insert(label, at) {
        Ok(_) => Ok(()),
        Err(_) => Err(Memory),
    }
}

fn places<'a>(alloc: Global, labels: &'a [Text]) -> Result<BTreeMap<&'a [u8], usize>, Memory>
    ensures { IfOk result (Holds labels.now) }
{
    let mut map = BTreeMap::new(alloc);
    for at in (0..labels.len()).rev() {
        put(&mut map, labels[at].bytes(), at)?;
    }
    Ok(map)
}

fn is_among(map: &BTreeMap<&[u8], usize>, label: &[u8]) -> bool
    ensures { result ≡ is_some (place_in label.now map.now) }
{
    map.contains_key(label)
}

fn are_among(alloc: Global, labels: &[Text], others: &[Text]) -> Result<bool, Memory>
    ensures { IfOk result (λ answer. answer ≡ spec.are_among labels.now others.now) }
{
    let map = places(alloc, others)?;
    for label in labels {
        if !is_among(&map, label.bytes()) {
            return Ok(false);
        }
    }
    Ok(true)
}

/// Whether two lists have the same labels, in any order and number.
pub(crate) fn are_same_labels(
    alloc: Global,
    labels: &[Text],
    others: &[Text],
) -> Result<bool, Memory>
    ensures { IfOk result (λ answer. answer ≡ spec.are_same_labels labels.now others.now) }
{
    let there = are_among(alloc, labels, others)?;
    let back = are_among(alloc, others, labels)?;
    Ok(there && back)
}

fn labels_in_arms(alloc: Global, arms: &[(Operand, Text)]) -> Result<List<Text>, Memory>
    ensures { IfOk result (λ labels. labels ≡ map (λ arm. arm.1) arms.now) }
{
    let mut labels = List::new(alloc);
    for arm in arms {
        labels.add(Text::copy(alloc, arm.1.bytes())?)?;
    }
    Ok(labels)
}

/// The labels of a phi's arms, in the order of the text.
pub(crate) fn arm_labels(alloc: Global, form: &Form) -> Result<List<Text>, Memory>
    ensures { IfOk result (λ labels. labels ≡ spec.arm_labels form.now) }
{
    match form {
        Form::PhiForm { arms, .. } => labels_in_arms(alloc, arms.items()),
        _ => Ok(List::new(alloc)),
    }
}

/// The labels of blocks.
pub(crate) fn labels_of(
    alloc: Global,
    units: &[Placed<Unit>],
    marks: &[BlockMark],
) -> Result<List<Text>, Memory>
    ensures { IfOk result (λ labels. labels ≡ map (spec.block_label units.now) marks.now) }
{
    let mut labels = List::new(alloc);
    for mark in marks {
        labels.add(block_label(alloc, units, *mark)?)?;
    }
    Ok(labels)
}

fn is_in_cases(label: &Text, cases: &[(Ty, Const, Text)]) -> bool
    ensures { result ≡ list_any (bytes_eq label.now) (map (λ c. c.2) cases.now) }
{
    for case in cases {
        if label.bytes() == case.2.bytes() {
            return true;
        }
    }
    false
}

fn is_in_branch(label: &Text, text: &BranchText) -> bool
    ensures { result ≡ list_any (bytes_eq label.now) (spec.branch_targets text.now) }
{
    match text {
        BranchText::Br { to } => label.bytes() == to.bytes(),
        BranchText::CondBr { yes, no, .. } => {
            label.bytes() == yes.bytes() || label.bytes() == no.bytes()
        }
        BranchText::Switch { other, cases, .. } => {
            label.bytes() == other.bytes() || is_in_cases(label, cases.items())
        }
    }
}

/// Whether a branch names a label.
pub(crate) fn is_target(label: &Text, form: &Form) -> bool
    ensures { result ≡ list_any (bytes_eq label.now) (spec.targets form.now) }
{
    match form {
        Form::BranchForm { text } => is_in_branch(label, text),
        _ => false,
    }
}
