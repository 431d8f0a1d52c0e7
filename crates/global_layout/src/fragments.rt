ghost use Rattle.std.specs.Prelude.{◌≡◌, ℕ, ◌+◌, ◌<◌, ◌++◌, [], length, IfOk, OnOk, All, ◌⊎◌, Option, slice_index_or};
ghost use Rattle.std.specs.Map.{values_of, lookup, remove_entry};
ghost use Rattle.std.specs.Option.{unwrap_or};
ghost use Rattle.std.specs.BTreeMap.{is_at};
ghost use Rattle.std.specs.BTreeMap as map;
ghost use Rattle.std.specs.BTreeSet as set;
ghost use Rattle.std.specs.Ordering.{nat_cmp};
ghost use Rattle.global_layout.specs.Fragments as spec;
ghost use Rattle.global_layout.specs.Owners as owner;

use crate::ids::IdMembers;
use crate::owners::{Owners, at_or_zero, label_of, own, own_row};
use crate::row::Row;
use ltt_base::{List, Memory};
use std::alloc::Global;
use std::collections::{BTreeMap, BTreeSet};

// A fragment outside the others: its objects in their order, and the label that each of them has.
#[derive(Drop)]
struct Joint {
    objects: Row,
    label: usize,
}

// The fragments of all identifiers.
pub fn fragments_of(alloc: Global, ids: &[IdMembers]) -> Result<List<List<u32>>, Memory>
    ensures { IfOk result (λ fragments. fragments ≡ spec.fragments_of ids.now) }
{
    let order = id_order(alloc, ids)?;
    fragments_in(alloc, ids, order.as_slice())
}

// The fragments of identifiers in this order.
fn fragments_in(
    alloc: Global,
    ids: &[IdMembers],
    order: &[(usize, usize)],
) -> Result<List<List<u32>>, Memory>
    requires { All (λ pair. pair.1 < length ids.now) order.now }
    ensures { IfOk result (λ fragments. fragments ≡ spec.fragments_in ids.now order.now) }
{
    let mut live = BTreeMap::new(alloc);
    let mut owners = Owners::new(alloc);
    for at in 0..order.len() {
        let (_, number) = order[at];
        with_id(
            alloc,
            ids[number].members.items(),
            at,
            &mut live,
            &mut owners,
        )?;
    }
    listed(alloc, live)
}

// The identifiers, those of fewer objects first.
fn id_order(alloc: Global, ids: &[IdMembers]) -> Result<Vec<(usize, usize)>, Memory>
    ensures { IfOk result (λ pairs. pairs.items ≡ spec.id_order ids.now) }
{
    let mut pairs = sizes(alloc, ids)?;
    match pairs.sort() {
        Ok(()) => Ok(pairs),
        Err(_) => Err(Memory),
    }
}

// The identifiers in given order, each behind the number of its objects.
fn sizes(alloc: Global, ids: &[IdMembers]) -> Result<Vec<(usize, usize)>, Memory>
    ensures { IfOk result (λ pairs. pairs.items ≡ spec.sizes_from 0 ids.now) }
{
    let mut pairs = Vec::new(alloc);
    for number in 0..ids.len() {
        match pairs.push((ids[number].members.len(), number)) {
            Ok(()) => {}
            Err(_) => return Err(Memory),
        }
    }
    Ok(pairs)
}

// All objects of one more identifier in one fragment, the last.
// `live` has the fragments by rising numbers.
fn with_id(
    alloc: Global,
    objects: &[u32],
    number: usize,
    live: &mut BTreeMap<usize, Row>,
    owners: &mut Owners,
) -> Result<(), Memory>
    requires owns { owner.Owns live.old.entries (owner.number_by owners.old.labels.items owners.old.numbers.items) number }
    requires labelled { owner.IsLabelled owners.old.labels.items owners.old.numbers.items owners.old.names.items number }
    ensures step { OnOk result (values_of live.new.entries ≡ spec.with_id objects.now (values_of live.old.entries)) }
    ensures owns { OnOk result (owner.Owns live.new.entries (owner.number_by owners.new.labels.items owners.new.numbers.items) (number + 1)) }
    ensures labelled { OnOk result (owner.IsLabelled owners.new.labels.items owners.new.numbers.items owners.new.names.items (number + 1)) }
{
    let others = unowned(alloc, objects, owners.labels.as_slice())?;
    let numbers = roots(alloc, objects, owners)?;
    let names = owners.names.as_slice();
    let joint = joined(alloc, numbers, number, names, live, &mut owners.labels)?;
    own(others.items(), joint.label, &mut owners.labels)?;
    owners.number_next(joint.label)?;
    let fragment = joint.objects.before_list(others)?;
    match live.insert(number, fragment) {
        Ok(_) => Ok(()),
        Err(_) => Err(Memory),
    }
}

// The numbers of the fragments that hold one of the objects.
fn roots(alloc: Global, objects: &[u32], owners: &Owners) -> Result<BTreeSet<usize>, Memory>
    ensures { IfOk result (λ numbers. (n : ℕ) → set.contains nat_cmp numbers n
        ≡ owner.is_root (owner.number_by owners.now.labels.items owners.now.numbers.items) objects.now n) }
{
    let mut numbers = BTreeSet::new(alloc);
    for at in 0..objects.len() {
        if let Some(number) = owners.number_of(objects[at]) {
            match numbers.insert(number) {
                Ok(_) => {}
                Err(_) => return Err(Memory),
            }
        }
    }
    Ok(numbers)
}

// The fragments of these numbers, taken out and joined, under the label of one of them, or a new one.
fn joined(
    alloc: Global,
    numbers: BTreeSet<usize>,
    label: usize,
    names: &[usize],
    live: &mut BTreeMap<usize, Row>,
    labels: &mut Vec<Option<usize>>,
) -> Result<Joint, Memory>
    requires ordered { map.IsOrdered nat_cmp live.old }
    requires named { owner.AreNamed live.old.entries (owner.owner_in labels.old.items) names.now }
    ensures joined { IfOk result (λ joint. joint.objects ≡ owner.joined (set.contains nat_cmp numbers) live.old.entries) }
    ensures rest { OnOk result (live.new.entries ≡ owner.rest (set.contains nat_cmp numbers) live.old.entries) }
    ensures labels { IfOk result (λ joint. owner.AreLabelled (owner.owner_in labels.old.items) joint.objects joint.label (owner.owner_in labels.new.items)) }
    ensures label { IfOk result (λ joint. owner.IsLabel (set.contains nat_cmp numbers) names.now label joint.label) }
{
    let mut numbers = numbers;
    let mut joint = Joint {
        objects: Row::new(alloc),
        label,
    };
    while let Some(number) = numbers.pop_first() {
        joint = join_one(number, joint, names, live, labels)?;
    }
    Ok(joint)
}

// The fragment of one number more, taken out and joined behind the others.
fn join_one(
    number: usize,
    joint: Joint,
    names: &[usize],
    live: &mut BTreeMap<usize, Row>,
    labels: &mut Vec<Option<usize>>,
) -> Result<Joint, Memory>
    requires { map.IsOrdered nat_cmp live.old }
    ensures objects { IfOk result (λ both. both.objects ≡ joint.objects ++ unwrap_or (lookup (is_at (nat_cmp number)) live.old.entries) []) }
    ensures taken { live.new.entries ≡ remove_entry (is_at (nat_cmp number)) live.old.entries }
    ensures ordered { map.IsOrdered nat_cmp live.new }
    ensures labels { IfOk result (λ both. (before : ℕ → Option ℕ) → owner.AreNamed live.old.entries before names.now
        → owner.AreLabelled before joint.objects joint.label (owner.owner_in labels.old.items)
        → owner.AreLabelled before both.objects both.label (owner.owner_in labels.new.items)) }
    ensures label { IfOk result (λ both. (both.label ≡ joint.label) ⊎ (both.label ≡ slice_index_or names.now number 0)) }
{
    match live.remove(&number) {
        Some(objects) => {
            let label = at_or_zero(names, number);
            merged(joint, Joint { objects, label }, labels)
        }
        None => Ok(joint),
    }
}

// Two fragments joined, under the label of the longer.
fn merged(first: Joint, more: Joint, labels: &mut Vec<Option<usize>>) -> Result<Joint, Memory>
    ensures objects { IfOk result (λ both. both.objects ≡ first.objects ++ more.objects) }
    ensures labels { IfOk result (λ both. owner.AreMerged first.objects first.label more.objects more.label both.label
        (owner.owner_in labels.old.items) (owner.owner_in labels.new.items)) }
{
    let label = merged_label(&first, &more, labels)?;
    let Joint { objects, .. } = first;
    let Joint {
        objects: behind,
        ..
    } = more;
    let objects = objects.followed(behind)?;
    Ok(Joint { objects, label })
}

// The label of the longer of two fragments, which the objects of the other take.
fn merged_label(
    first: &Joint,
    more: &Joint,
    labels: &mut Vec<Option<usize>>,
) -> Result<usize, Memory>
    ensures { IfOk result (λ label. owner.AreMerged first.now.objects first.now.label more.now.objects more.now.label label
        (owner.owner_in labels.old.items) (owner.owner_in labels.new.items)) }
{
    if first.objects.len() < more.objects.len() {
        own_row(&first.objects, more.label, labels)?;
        Ok(more.label)
    } else {
        own_row(&more.objects, first.label, labels)?;
        Ok(first.label)
    }
}

// The objects that no fragment holds.
fn unowned(alloc: Global, objects: &[u32], labels: &[Option<usize>]) -> Result<List<u32>, Memory>
    ensures { IfOk result (λ others. others ≡ owner.unowned (owner.owner_in labels.now) objects.now) }
{
    let mut others = List::new(alloc);
    for at in 0..objects.len() {
        if label_of(labels, objects[at]).is_none() {
            others.add(objects[at])?;
        }
    }
    Ok(others)
}

// The fragments in the order of their numbers, which no later identifier touched.
fn listed(alloc: Global, live: BTreeMap<usize, Row>) -> Result<List<List<u32>>, Memory>
    ensures { IfOk result (λ fragments. fragments ≡ values_of live.entries) }
{
    let mut live = live;
    let mut untouched = List::new(alloc);
    while let Some((_, touched)) = live.pop_first() {
        untouched.add(touched.into_list())?;
    }
    Ok(untouched)
}
