ghost use Rattle.std.specs.Prelude.{◌≡◌, ◌<◌, All, IfOk, OnOk, IsTrue, replicate};
ghost use Rattle.std.specs.List.Sorted.{IsStrictlyIncreasing};
ghost use Rattle.bench_layout.specs.Ids.{AreIds, word};

use anyhow::bail;
use global_layout::{IdMembers, Shape, arrange};
use ltt_base::List;
use std::alloc::Global;

/// The number of groups of these identifiers' layout, of so many words.
pub fn groups(alloc: Global, ids: &List<IdMembers>, count: u32) -> anyhow::Result<usize>
    requires { AreIds count ids.now }
{
    let shapes = words(alloc, count)?;
    match arrange(alloc, ids.items(), shapes.items()) {
        Ok(layout) => Ok(layout.groups().len()),
        Err(fault) => bail!("{fault}"),
    }
}

fn words(alloc: Global, count: u32) -> anyhow::Result<List<Shape>>
    ensures { IfOk result (λ shapes. shapes ≡ replicate count word) }
{
    let mut shapes = List::new(alloc);
    for _object in 0..count {
        shapes.add(Shape {
            function: false,
            extent: 8,
            align: 8,
            before: 0,
            after: 0,
        })?;
    }
    Ok(shapes)
}

fn are_below(objects: &[u32], count: u32) -> bool
    ensures { IsTrue result → All (λ object. object < count) objects.now }
{
    for at in 0..objects.len() {
        if objects[at] >= count {
            return false;
        }
    }
    true
}

fn are_rising(objects: &[u32]) -> bool
    ensures { IsTrue result → IsStrictlyIncreasing objects.now }
{
    for at in 1..objects.len() {
        if objects[at - 1] >= objects[at] {
            return false;
        }
    }
    true
}

/// Adds an identifier that lists these objects.
#[tactic(auto, using(crate::proofs::IdLemmas::rising_is_id))]
fn add_id(ids: &mut List<IdMembers>, members: List<u32>, count: u32) -> anyhow::Result<()>
    requires { AreIds count ids.old }
    ensures { OnOk result (AreIds count ids.new) }
{
    if members.is_empty() || !are_below(members.items(), count) || !are_rising(members.items()) {
        bail!("the objects of an identifier are some, and rise");
    }
    ids.add(IdMembers { members })?;
    Ok(())
}

/// The next number of a sequence, below another.
fn draw(state: &mut u64, below: u32) -> u32
    requires { 0 < below }
    ensures { result < below }
{
    *state = state
        .wrapping_mul(6_364_136_223_846_793_005)
        .wrapping_add(1_442_695_040_888_963_407);
    ((*state >> 33) % u64::from(below)) as u32
}

/// One to four objects at random.
fn random_members(alloc: Global, state: &mut u64, count: u32) -> anyhow::Result<List<u32>>
    requires { 0 < count }
{
    let mut drawn = List::new(alloc);
    for _member in 0..draw(state, 4) + 1 {
        drawn.add(draw(state, count))?;
    }
    let mut members = drawn.into_vec();
    members.sort()?;
    members.dedup();
    Ok(List::from_vec(members))
}

/// As many identifiers as objects, each of one to four at random.
pub fn random_ids(alloc: Global, count: u32) -> anyhow::Result<List<IdMembers>>
    requires { 0 < count }
    ensures { IfOk result (λ ids. AreIds count ids) }
{
    let mut ids = List::new(alloc);
    let mut state = 1;
    for _id in 0..count {
        let members = random_members(alloc, &mut state, count)?;
        add_id(&mut ids, members, count)?;
    }
    Ok(ids)
}

fn two(alloc: Global, first: u32, more: u32) -> anyhow::Result<List<u32>> {
    let mut members = List::new(alloc);
    members.add(first)?;
    members.add(more)?;
    Ok(members)
}

/// Identifiers of objects 0 and 1, 1 and 2, 2 and 3, and so on.
pub fn chain(alloc: Global, count: u32) -> anyhow::Result<List<IdMembers>>
    ensures { IfOk result (λ ids. AreIds count ids) }
{
    let mut ids = List::new(alloc);
    for object in 1..count {
        let members = two(alloc, object - 1, object)?;
        add_id(&mut ids, members, count)?;
    }
    Ok(ids)
}

/// Identifiers that join pairs of objects, then pairs of these pairs, and so on.
pub fn pairs_of_pairs(alloc: Global, count: u32) -> anyhow::Result<List<IdMembers>>
    ensures { IfOk result (λ ids. AreIds count ids) }
{
    let mut ids = List::new(alloc);
    for level in 0..31u32 {
        add_pairs(alloc, &mut ids, 1 << level, count)?;
    }
    Ok(ids)
}

/// Identifiers of two objects each, `half` apart, at each multiple of twice `half`.
fn add_pairs(alloc: Global, ids: &mut List<IdMembers>, half: u32, count: u32) -> anyhow::Result<()>
    requires ids { AreIds count ids.old }
    requires some { 0 < half }
    ensures { OnOk result (AreIds count ids.new) }
{
    for more in half..count {
        if more % half == 0 && more / half % 2 == 1 {
            let members = two(alloc, more - half, more)?;
            add_id(ids, members, count)?;
        }
    }
    Ok(())
}

/// One identifier of all objects.
pub fn one_id(alloc: Global, count: u32) -> anyhow::Result<List<IdMembers>>
    ensures { IfOk result (λ ids. AreIds count ids) }
{
    let mut members = List::new(alloc);
    for object in 0..count {
        members.add(object)?;
    }
    let mut ids = List::new(alloc);
    add_id(&mut ids, members, count)?;
    Ok(ids)
}
