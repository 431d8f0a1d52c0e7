ghost use Rattle.std.specs.Prelude.{◌≡◌, ℕ, ◌+◌, ◌<◌, ◌≤◌, length, replicate, None, Some, All, MatchOption, IfOk, fold};
ghost use Rattle.global_layout.specs.Layout as spec;

use crate::groups::{Group, Home};
use crate::ids::Shape;
use crate::slots::{MOST_BYTES, Slots};
use ltt_base::{Copied, List, Memory};
use std::alloc::Global;

// The groups of some fragments, the homes of their objects, and the bytes of all combined variables.
#[derive(Drop)]
pub struct Placing {
    pub groups: List<Group>,
    pub homes: List<Option<Home>>,
    pub variables: u32,
    pub tables: u32,
    pub bytes: u64,
}

// The objects of a combined variable behind one another; `None` where it gets too long.
fn variable_slots(
    shapes: &[Shape],
    number: u32,
    homes: List<Option<Home>>,
    objects: &[u32],
) -> Option<Slots>
    requires shapes { All spec.IsShape shapes.now }
    requires within { All (λ object. object < length shapes.now) objects.now }
    requires homes { length homes ≡ length shapes.now }
    ensures { let whole = spec.variable_slots shapes.now number homes objects.now in
        MatchOption result (spec.most_bytes < whole.length)
        (λ slots. (slots ≡ whole) × (whole.length ≤ spec.most_bytes) × (length slots.homes ≡ length shapes.now)) }
{
    let mut slots = Slots {
        length: 0,
        align: 1,
        homes,
    };
    for at in 0..objects.len() {
        let object = objects[at];
        if !slots.add_object(number, object, shapes[object as usize]) {
            return None;
        }
    }
    Some(slots)
}

// The objects of a table behind one another.
fn table_slots(
    count: usize,
    number: u32,
    homes: List<Option<Home>>,
    objects: &[u32],
) -> Result<Slots, Memory>
    requires within { All (λ object. object < count) objects.now }
    requires homes { length homes ≡ count }
    ensures { IfOk result (λ slots. (slots ≡ spec.table_slots number homes objects.now) × (length slots.homes ≡ count)) }
{
    let mut slots = Slots {
        length: 0,
        align: 8,
        homes,
    };
    for at in 0..objects.len() {
        slots.add_entry(number, objects[at])?;
    }
    Ok(slots)
}

// One fragment more as a combined variable; `None` where all of them get too long.
fn add_variable(
    placing: Placing,
    shapes: &[Shape],
    objects: List<u32>,
) -> Result<Option<Placing>, Memory>
    requires shapes { All spec.IsShape shapes.now }
    requires within { All (λ object. object < length shapes.now) objects }
    requires homes { length placing.homes ≡ length shapes.now }
    requires short { placing.bytes ≤ spec.most_bytes }
    ensures { let more = spec.variable_more shapes.now placing objects in
        IfOk result (λ answer. MatchOption answer (spec.most_bytes < more.bytes)
        (λ p. (p ≡ more) × (more.bytes ≤ spec.most_bytes) × (length p.homes ≡ length shapes.now))) }
{
    let Placing {
        mut groups,
        homes,
        variables,
        tables,
        bytes,
    } = placing;
    let Some(slots) = variable_slots(shapes, variables, homes, objects.items()) else {
        return Ok(None);
    };
    let Slots {
        length,
        align,
        homes,
    } = slots;
    if bytes + length > MOST_BYTES {
        return Ok(None);
    }
    let Some(next) = variables.checked_add(1) else {
        return Err(Memory);
    };
    groups.add(Group {
        table: false,
        members: objects,
        length,
        align,
    })?;
    Ok(Some(Placing {
        groups,
        homes,
        variables: next,
        tables,
        bytes: bytes + length,
    }))
}

// One fragment more as a table.
fn add_table(placing: Placing, count: usize, objects: List<u32>) -> Result<Placing, Memory>
    requires within { All (λ object. object < count) objects }
    requires homes { length placing.homes ≡ count }
    ensures { IfOk result (λ p. (p ≡ spec.table_more placing objects) × (length p.homes ≡ count)) }
{
    let Placing {
        mut groups,
        homes,
        variables,
        tables,
        bytes,
    } = placing;
    let slots = table_slots(count, tables, homes, objects.items())?;
    let Slots {
        length,
        align,
        homes,
    } = slots;
    let Some(next) = tables.checked_add(1) else {
        return Err(Memory);
    };
    groups.add(Group {
        table: true,
        members: objects,
        length,
        align,
    })?;
    Ok(Placing {
        groups,
        homes,
        variables,
        tables: next,
        bytes,
    })
}

// Whether a fragment is a table.
fn is_table(shapes: &[Shape], objects: &[u32]) -> bool
    requires { All (λ object. object < length shapes.now) objects.now }
    ensures { result ≡ spec.is_table shapes.now objects.now }
{
    if objects.is_empty() {
        return false;
    }
    shapes[objects[0] as usize].function
}

// One fragment more; `None` where the combined variables get too long.
fn add_fragment(
    placing: Placing,
    shapes: &[Shape],
    objects: List<u32>,
) -> Result<Option<Placing>, Memory>
    requires shapes { All spec.IsShape shapes.now }
    requires within { All (λ object. object < length shapes.now) objects }
    requires homes { length placing.homes ≡ length shapes.now }
    requires short { placing.bytes ≤ spec.most_bytes }
    ensures { let more = spec.fragment_more shapes.now placing objects in
        IfOk result (λ answer. MatchOption answer (spec.most_bytes < more.bytes)
        (λ p. (p ≡ more) × (more.bytes ≤ spec.most_bytes) × (length p.homes ≡ length shapes.now))) }
{
    if is_table(shapes, objects.items()) {
        Ok(Some(add_table(placing, shapes.len(), objects)?))
    } else {
        add_variable(placing, shapes, objects)
    }
}

// Nothing placed, of so many objects.
fn none_placed(alloc: Global, count: usize) -> Result<Placing, Memory>
    ensures { IfOk result (λ p. p ≡ spec.none_placed count) }
{
    let mut homes = List::new(alloc);
    for _object in 0..count {
        homes.add(None)?;
    }
    Ok(Placing {
        groups: List::new(alloc),
        homes,
        variables: 0,
        tables: 0,
        bytes: 0,
    })
}

// The layout of these fragments; `None` where the combined variables get too long.
pub fn placed_in(
    alloc: Global,
    shapes: &[Shape],
    fragments: &[List<u32>],
) -> Result<Option<Placing>, Memory>
    requires shapes { All spec.IsShape shapes.now }
    requires within { All (λ objects. All (λ object. object < length shapes.now) objects) fragments.now }
    ensures { let whole = spec.placed_in shapes.now fragments.now in
        IfOk result (λ answer. MatchOption answer (spec.most_bytes < whole.bytes)
        (λ p. (p ≡ whole) × (whole.bytes ≤ spec.most_bytes))) }
{
    let mut placing = none_placed(alloc, shapes.len())?;
    for at in 0..fragments.len() {
        let objects = fragments[at].copied(alloc)?;
        match add_fragment(placing, shapes, objects)? {
            Some(more) => placing = more,
            None => return Ok(None),
        }
    }
    Ok(Some(placing))
}
