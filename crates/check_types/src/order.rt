// An order of the units in which types stand behind those that they name, so that one pass over it marks them all.
//
// Any order gives the same marks, so no clause says which one it is.

use crate::named::type_of;
use check_names::{Context, Space};
use ir_values::Ty;
use ltt_base::{List, Memory};
use std::alloc::Global;

/// What is still to be done: to enter a unit, or to leave it with all done that its type names.
#[derive(Clone, Copy)]
enum Step {
    Enter(usize),
    Leave(usize),
}

fn add_name(context: &Context<'_>, steps: &mut List<Step>, name: &[u8]) -> Result<(), Memory> {
    match context.first_definition(Space::Types, name) {
        Some(at) => steps.add(Step::Enter(at)),
        None => Ok(()),
    }
}

#[cycle(naming)]
fn add_names(context: &Context<'_>, steps: &mut List<Step>, ty: &Ty) -> Result<(), Memory> {
    match ty {
        Ty::Array(_, part) => add_names(context, steps, part.get()),
        Ty::Struct(parts) => add_part_names(context, steps, parts.items()),
        Ty::Named(name) => add_name(context, steps, name.bytes()),
        _ => Ok(()),
    }
}

#[cycle(naming)]
fn add_part_names(
    context: &Context<'_>,
    steps: &mut List<Step>,
    parts: &[Ty],
) -> Result<(), Memory> {
    for part in parts {
        add_names(context, steps, part)?;
    }
    Ok(())
}

fn enter(
    context: &Context<'_>,
    entered: &mut List<bool>,
    steps: &mut List<Step>,
    at: usize,
) -> Result<(), Memory> {
    if at >= entered.len() || entered.items()[at] {
        return Ok(());
    }
    entered.set(at, true);
    steps.add(Step::Leave(at))?;
    match type_of(context.units().get(at)) {
        Some(ty) => add_names(context, steps, ty),
        None => Ok(()),
    }
}

fn roots(alloc: Global, len: usize) -> Result<List<Step>, Memory> {
    let mut steps = List::new(alloc);
    for at in 0..len {
        steps.add(Step::Enter(at))?;
    }
    Ok(steps)
}

/// Each unit once, behind those whose types its own type names, as far as these can stand before it.
///
/// `entered` has a place for each unit, none of which is marked. There are two steps for a unit and one for each name in its
/// type, so the steps end long before their bound.
pub fn leaves_first(
    alloc: Global,
    context: &Context<'_>,
    mut entered: List<bool>,
) -> Result<List<usize>, Memory> {
    let mut order = List::new(alloc);
    let mut steps = roots(alloc, entered.len())?;
    for _ in 0..u64::MAX {
        match steps.pop() {
            Some(Step::Enter(at)) => enter(context, &mut entered, &mut steps, at)?,
            Some(Step::Leave(at)) => order.add(at)?,
            None => return Ok(order),
        }
    }
    Ok(order)
}
