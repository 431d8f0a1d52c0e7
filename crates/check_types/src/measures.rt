// How much types take.
ghost use Rattle.std.specs.Prelude.{◌≡◌, ◌+◌, ◌*◌, ◌^◌, ◌<◌, ◌≤◌, Some, map};
ghost use Rattle.std.specs.Option.{option_copied};
ghost use Rattle.ir_values.specs.declared.types.Ty.{fold-Ty};
ghost use Rattle.ir_numbers.specs.Layout.{width_bytes};
ghost use Rattle.check_types.specs.Measures as spec;
ghost use Rattle.check_types.specs.Marks.{measure_at, table_measure, table_measure_of, type_at};

use crate::named::type_of;
use check_names::{Context, Space};
use ir_values::{Ty, Width};
use std::marker::Model;

const MOST_TYPES: u64 = 4096;

const MOST_BYTES: u64 = 1 << 24;

/// How many types are written in a type, itself included; the bytes that it takes; and the alignment of its place.
///
/// It is within the limits of 4,096 types and 2^24 bytes.
#[derive(Clone, Copy)]
pub struct Measure {
    count: u64,
    size: u64,
    align: u64,
}

impl Model for Measure {
    ghost Value = { spec.Measure };

    ghost view = { λ measure. spec.measure_of measure.count measure.size measure.align };

    ghost inverse = { λ measure. record { count = measure.count; size = measure.size; align = measure.align } };

    ghost invariant = { λ measure. spec.IsBounded measure.count measure.size measure.align };
}

impl Measure {
    /// The bytes of the type.
    pub fn size(&self) -> u64
        ensures value { result ≡ self.now.size }
        ensures most { result ≤ 2 ^ 24 }
    {
        self.size
    }

    /// The alignment of the type's place.
    pub fn align(&self) -> u64
        ensures value { result ≡ self.now.align }
        ensures least { 1 ≤ result }
        ensures most { result ≤ 8 }
    {
        self.align
    }
}

fn within(count: u64, size: u64, align: u64) -> Option<Measure>
    requires align_least { 1 ≤ align }
    requires align_most { align ≤ 8 }
    ensures { result ≡ spec.within count size align }
{
    if count <= MOST_TYPES && size <= MOST_BYTES {
        Some(Measure { count, size, align })
    } else {
        None
    }
}

/// A type with no other in it, and of no bytes if it isn't known.
fn single(size: u64, align: u64) -> Option<Measure>
    requires size { size ≤ 8 }
    requires align_least { 1 ≤ align }
    requires align_most { align ≤ 8 }
    ensures { result ≡ spec.single size align }
{
    Some(Measure {
        count: 1,
        size,
        align,
    })
}

fn repeated(parts: u64, part: Measure) -> Option<Measure>
    ensures { result ≡ spec.within (part.count + 1) (parts * part.size) part.align }
{
    match parts.checked_mul(part.size) {
        Some(size) => within(part.count + 1, size, part.align),
        None => None,
    }
}

fn array_measure(parts: u64, part: Option<Measure>) -> Option<Measure>
    ensures { result ≡ spec.array_measure parts part }
{
    match part {
        Some(part) => repeated(parts, part),
        None => None,
    }
}

fn with_part(before: Measure, part: Measure) -> Option<Measure>
    ensures { result ≡ spec.with_part before part }
{
    let start = before.size.next_multiple_of(part.align);
    within(
        before.count + part.count,
        start + part.size,
        before.align.max(part.align),
    )
}

fn option_with_part(before: Option<Measure>, part: Option<Measure>) -> Option<Measure>
    ensures { result ≡ spec.option_with_part before part }
{
    match (before, part) {
        (Some(before), Some(part)) => with_part(before, part),
        _ => None,
    }
}

fn rounded(parts: Measure) -> Option<Measure>
    ensures { result ≡ spec.struct_measure (Some parts) }
{
    let size = parts.size.next_multiple_of(parts.align);
    within(parts.count, size, parts.align)
}

fn struct_measure(parts: Option<Measure>) -> Option<Measure>
    ensures { result ≡ spec.struct_measure parts }
{
    match parts {
        Some(parts) => rounded(parts),
        None => None,
    }
}

fn width_bytes(width: Width) -> u64
    ensures value { result ≡ width_bytes width }
    ensures least { 1 ≤ result }
    ensures most { result ≤ 8 }
{
    match width {
        Width::W1 => 1,
        Width::W8 => 1,
        Width::W16 => 2,
        Width::W32 => 4,
        Width::W64 => 8,
    }
}

fn integer_measure(width: Width) -> Option<Measure>
    ensures { result ≡ spec.single (width_bytes width) (width_bytes width) }
{
    let bytes = width_bytes(width);
    single(bytes, bytes)
}

/// The measure of a type that isn't known: one type of no bytes.
pub fn unknown_measure() -> Option<Measure>
    ensures { result ≡ spec.single 0 1 }
{
    single(0, 1)
}

fn measure_at(measures: &[Option<Measure>], place: Option<usize>) -> Option<Measure>
    ensures { result ≡ measure_at measures.now place }
{
    match place {
        Some(at) if at < measures.len() => measures[at],
        _ => unknown_measure(),
    }
}

/// The measure of what a name stands for, by the measures of the units' types.
#[tactic(auto, unfolding(crate::specs::Marks::table_measure))]
fn table_measure(
    context: &Context<'_>,
    measures: &[Option<Measure>],
    name: &[u8],
) -> Option<Measure>
    ensures { result ≡ table_measure context.now.units measures.now name.now }
{
    measure_at(measures, context.first_definition(Space::Types, name))
}

/// The measure of a type, by those of the units' types.
#[cycle(measures)]
pub fn measure_of(context: &Context<'_>, measures: &[Option<Measure>], ty: &Ty) -> Option<Measure>
    ensures { result ≡ table_measure_of context.now.units measures.now ty.now }
{
    match ty {
        Ty::Int(width) => integer_measure(*width),
        Ty::Ptr => single(8, 8),
        Ty::Array(count, part) => array_measure(*count, measure_of(context, measures, part.get())),
        Ty::Struct(parts) => struct_measure(parts_measure(context, measures, parts.items())),
        Ty::Named(name) => table_measure(context, measures, name.bytes()),
        _ => unknown_measure(),
    }
}

#[cycle(measures)]
#[tactic(auto, unfolding(crate::specs::Measures::parts_measure))]
fn parts_measure(
    context: &Context<'_>,
    measures: &[Option<Measure>],
    parts: &[Ty],
) -> Option<Measure>
    ensures { result ≡ spec.parts_measure (spec.single 0 1)
        (map (table_measure_of context.now.units measures.now) parts.now) }
{
    let mut before = unknown_measure();
    for part in parts {
        before = option_with_part(before, measure_of(context, measures, part));
    }
    before
}

/// The measure of a unit's type, by those of the units' types.
pub fn unit_measure(
    context: &Context<'_>,
    measures: &[Option<Measure>],
    at: usize,
) -> Option<Measure>
    ensures { result ≡ spec.option_measure (table_measure context.now.units measures.now) (type_at context.now.units at) }
{
    match type_of(context.units().get(at)) {
        Some(ty) => measure_of(context, measures, ty),
        None => unknown_measure(),
    }
}
