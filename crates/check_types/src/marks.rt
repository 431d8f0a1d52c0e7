// Marks on the units whose types can be written out, the leaves first.
ghost use Rattle.std.specs.Prelude.{◌≡◌, ◌<◌, length, false, replicate, map, flat_map, IfOk};
ghost use Rattle.std.specs.List.{list_all};
ghost use Rattle.std.specs.Option.{option_copied};
ghost use Rattle.check_types.specs.Named.{names_in, each_name};
ghost use Rattle.check_types.specs.Measures.{single};
ghost use Rattle.check_types.specs.Marks as spec;

use crate::measures::{Measure, unit_measure, unknown_measure};
use crate::named::type_of;
use crate::order::leaves_first;
use check_names::{Context, Space};
use ir_values::Ty;
use ltt_base::{List, Memory};
use std::alloc::Global;

fn mark_at(marks: &[bool], place: Option<usize>) -> bool
    ensures { result ≡ spec.mark_at marks.now place }
{
    match place {
        Some(at) => at < marks.len() && marks[at],
        None => true,
    }
}

/// Whether a name has no unit, or one that is marked.
#[tactic(auto, unfolding(crate::specs::Marks::is_marked))]
pub fn is_marked(context: &Context<'_>, marks: &[bool], name: &[u8]) -> bool
    ensures { result ≡ spec.is_marked context.now.units marks.now name.now }
{
    mark_at(marks, context.first_definition(Space::Types, name))
}

#[cycle(types)]
fn are_marked(context: &Context<'_>, marks: &[bool], ty: &Ty) -> bool
    ensures { result ≡ list_all (spec.is_marked context.now.units marks.now) (names_in ty.now) }
{
    match ty {
        Ty::Array(_, part) => are_marked(context, marks, part.get()),
        Ty::Struct(parts) => parts_are_marked(context, marks, parts.items()),
        Ty::Named(name) => is_marked(context, marks, name.bytes()),
        _ => true,
    }
}

#[cycle(types)]
fn parts_are_marked(context: &Context<'_>, marks: &[bool], parts: &[Ty]) -> bool
    ensures { result ≡ list_all (spec.is_marked context.now.units marks.now)
        (flat_map (λ names. names) (map names_in parts.now)) }
{
    let mut all = true;
    for at in (0..parts.len()).rev() {
        all = are_marked(context, marks, &parts[at]) && all;
    }
    all
}

fn each_is_marked(context: &Context<'_>, marks: &[bool], ty: Option<&Ty>) -> bool
    ensures { result ≡ each_name (spec.is_marked context.now.units marks.now) (option_copied ty.entry) }
{
    match ty {
        Some(ty) => are_marked(context, marks, ty),
        None => true,
    }
}

#[tactic(auto, unfolding(crate::specs::Marks::is_due))]
fn is_due(context: &Context<'_>, marks: &[bool], at: usize) -> bool
    ensures { result ≡ spec.is_due context.now.units marks.now at }
{
    !mark_at(marks, Some(at)) && each_is_marked(context, marks, type_of(context.units().get(at)))
}

#[tactic(auto, unfolding(crate::specs::Marks::visited, crate::specs::Marks::measures_visited))]
fn visit(
    context: &Context<'_>,
    marks: &mut List<bool>,
    measures: &mut List<Option<Measure>>,
    at: usize,
) -> bool
    requires mark { at < length marks.old }
    requires measure { at < length measures.old }
    ensures due { result ≡ spec.is_due context.now.units marks.old at }
    ensures marks { marks.new ≡ spec.visited context.now.units marks.old at }
    ensures measures { measures.new ≡ spec.measures_visited context.now.units marks.old measures.old at }
{
    let due = is_due(context, marks.items(), at);
    if due {
        let measure = unit_measure(context, measures.items(), at);
        measures.set(at, measure);
        marks.set(at, true);
    }
    due
}

fn visit_any(
    context: &Context<'_>,
    marks: &mut List<bool>,
    measures: &mut List<Option<Measure>>,
    at: usize,
)
    requires size { length marks.old ≡ length context.now.units }
    requires sound { spec.AreSound context.now.units marks.old }
    requires measured { spec.AreMeasured context.now.units marks.old measures.old }
    ensures size { length marks.new ≡ length context.now.units }
    ensures sound { spec.AreSound context.now.units marks.new }
    ensures measured { spec.AreMeasured context.now.units marks.new measures.new }
{
    if at >= marks.len() {
        return;
    }
    visit(context, marks, measures, at);
}

/// Visits units in an order.
fn visit_all(
    context: &Context<'_>,
    order: &[usize],
    marks: &mut List<bool>,
    measures: &mut List<Option<Measure>>,
)
    requires size { length marks.old ≡ length context.now.units }
    requires sound { spec.AreSound context.now.units marks.old }
    requires measured { spec.AreMeasured context.now.units marks.old measures.old }
    ensures size { length marks.new ≡ length context.now.units }
    ensures sound { spec.AreSound context.now.units marks.new }
    ensures measured { spec.AreMeasured context.now.units marks.new measures.new }
{
    for at in order {
        visit_any(context, marks, measures, *at);
    }
}

/// Visits each unit once, and tells whether one was marked.
fn pass(context: &Context<'_>, marks: &mut List<bool>, measures: &mut List<Option<Measure>>) -> bool
    requires size { length marks.old ≡ length context.now.units }
    requires sound { spec.AreSound context.now.units marks.old }
    requires measured { spec.AreMeasured context.now.units marks.old measures.old }
    ensures passing { spec.Passing context.now.units marks.old marks.new result (length context.now.units) }
    ensures measured { spec.AreMeasured context.now.units marks.new measures.new }
{
    let mut changed = false;
    for at in 0..context.units().len() {
        changed |= visit(context, marks, measures, at);
    }
    changed
}

/// Visits the units until none is due.
fn settle(context: &Context<'_>, marks: &mut List<bool>, measures: &mut List<Option<Measure>>)
    requires size { length marks.old ≡ length context.now.units }
    requires sound { spec.AreSound context.now.units marks.old }
    requires measured { spec.AreMeasured context.now.units marks.old measures.old }
    ensures ends { spec.TellEnds context.now.units marks.new }
    ensures measures { spec.TellMeasures context.now.units measures.new }
{
    let mut changed = true;
    while changed {
        changed = pass(context, marks, measures);
    }
}

fn blank(alloc: Global, len: usize) -> Result<List<bool>, Memory>
    ensures { IfOk result (λ marks. marks ≡ replicate len false) }
{
    match vec![in alloc; false; len] {
        Ok(marks) => Ok(List::from_vec(marks)),
        Err(_) => Err(Memory),
    }
}

fn unmeasured(alloc: Global, len: usize) -> Result<List<Option<Measure>>, Memory>
    ensures { IfOk result (λ measures. measures ≡ replicate len (single 0 1)) }
{
    match vec![in alloc; unknown_measure(); len] {
        Ok(measures) => Ok(List::from_vec(measures)),
        Err(_) => Err(Memory),
    }
}

/// The marks that tell which names end, and the measures of the units' types.
pub fn marks_and_measures(
    alloc: Global,
    context: &Context<'_>,
) -> Result<(List<bool>, List<Option<Measure>>), Memory>
    ensures { IfOk result (λ tables. spec.TellEnds context.now.units tables.0 × spec.TellMeasures context.now.units tables.1) }
{
    let mut marks = blank(alloc, context.units().len())?;
    let mut measures = unmeasured(alloc, context.units().len())?;
    let order = leaves_first(alloc, context, blank(alloc, context.units().len())?)?;
    visit_all(context, order.items(), &mut marks, &mut measures);
    settle(context, &mut marks, &mut measures);
    Ok((marks, measures))
}
