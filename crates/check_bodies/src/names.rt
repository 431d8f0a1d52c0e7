ghost use Rattle.std.specs.Prelude.{◌≡◌, ◌<◌, ◌++◌, length, drop, IfOk, OnOk};
ghost use Rattle.check_bodies.specs.Names as spec;
ghost use Rattle.check_bodies.specs.Sorts as sorts;
ghost use Rattle.check_bodies.specs.Standing as standing;

use crate::numbers::{behind_name, name_or};
use crate::sorts::{Sort, sort_of, written_name};
use crate::standing::{Spot, Standing, after, is_begun, is_named, opened};
use ir_values::{Form, Param, Unit};
use ltt_base::{List, Memory, Placed, Text};
use std::alloc::Global;

/// What a name in a body stands for: a parameter by its place in the head's list, a block by the place of the unit
/// that begins it, or the result of the instruction at a place.
#[derive(Clone, Copy)]
pub enum Local {
    Parameter(usize),
    Block(usize),
    Result(usize),
}

/// A name of a body, and what it stands for.
#[derive(Drop)]
pub struct Defined {
    pub name: Text,
    pub local: Local,
}

/// Which names are looked up: all, labels alone, or values, which are parameters and results.
#[derive(Clone, Copy)]
pub enum Asked {
    Either,
    Labels,
    Values,
}

/// The parameters of a head. One that isn't named has the next number as its name.
pub fn parameters(alloc: Global, params: &[Param]) -> Result<List<Defined>, Memory>
    ensures { IfOk result (λ names. names ≡ spec.parameters 0 0 params.now) }
{
    let mut names = List::new(alloc);
    let mut next = 0;
    for at in 0..params.len() {
        let name = name_or(alloc, next, params[at].name.as_ref())?;
        names.add(Defined {
            name,
            local: Local::Parameter(at),
        })?;
        next = behind_name(next, params[at].name.as_ref());
    }
    Ok(names)
}

fn add_label(
    alloc: Global,
    names: &mut List<Defined>,
    at: usize,
    spot: Spot,
    form: &Form,
) -> Result<(), Memory>
    ensures { OnOk result (names.new ≡ names.old ++ spec.label_at at spot form.now) }
{
    let name = name_or(alloc, spot.next, written_name(form))?;
    names.add(Defined {
        name,
        local: Local::Block(at),
    })
}

fn add_implied_label(
    alloc: Global,
    names: &mut List<Defined>,
    at: usize,
    spot: Spot,
) -> Result<(), Memory>
    ensures { OnOk result (names.new ≡ names.old ++ spec.implied_label at spot) }
{
    if is_begun(spot.stage) {
        return Ok(());
    }
    let name = name_or(alloc, spot.next, None)?;
    names.add(Defined {
        name,
        local: Local::Block(at),
    })
}

fn add_result(
    alloc: Global,
    names: &mut List<Defined>,
    at: usize,
    spot: Spot,
    form: &Form,
) -> Result<(), Memory>
    ensures { OnOk result (names.new ≡ names.old ++ spec.result_at at spot form.now) }
{
    if !is_named(form) {
        return Ok(());
    }
    let name = name_or(alloc, spot.next, written_name(form))?;
    names.add(Defined {
        name,
        local: Local::Result(at),
    })
}

fn add_both(
    alloc: Global,
    names: &mut List<Defined>,
    at: usize,
    spot: Spot,
    form: &Form,
) -> Result<(), Memory>
    ensures { OnOk result (names.new ≡ names.old
        ++ (spec.implied_label at spot ++ spec.result_at at (standing.opened at spot) form.now)) }
{
    add_implied_label(alloc, names, at, spot)?;
    add_result(alloc, names, at, opened(at, spot), form)
}

pub(crate) fn is_label(local: Local) -> bool
    ensures { result ≡ spec.is_label local }
{
    match local {
        Local::Block(_) => true,
        _ => false,
    }
}

pub(crate) fn admits(asked: Asked, local: Local) -> bool
    ensures { result ≡ spec.admits asked local }
{
    match asked {
        Asked::Either => true,
        Asked::Labels => is_label(local),
        Asked::Values => !is_label(local),
    }
}

/// Adds the names that a unit at a spot defines.
pub fn add_own(
    alloc: Global,
    names: &mut List<Defined>,
    at: usize,
    spot: Spot,
    form: &Form,
) -> Result<(), Memory>
    ensures { OnOk result (names.new ≡ names.old ++ spec.own_names at spot (sorts.sort_of form.now) form.now) }
{
    match sort_of(form) {
        Sort::Label => add_label(alloc, names, at, spot, form),
        Sort::Phi => add_both(alloc, names, at, spot, form),
        Sort::Plain => add_both(alloc, names, at, spot, form),
        Sort::Terminator => add_both(alloc, names, at, spot, form),
        _ => Ok(()),
    }
}

/// The parameters of a function that is declared or defined; of another form none.
pub fn head_names(alloc: Global, form: &Form) -> Result<List<Defined>, Memory>
    ensures { IfOk result (λ names. names ≡ spec.head_names form.now) }
{
    match form {
        Form::DeclareForm { head } => parameters(alloc, head.params.items()),
        Form::DefineForm { head } => parameters(alloc, head.params.items()),
        _ => Ok(List::new(alloc)),
    }
}

/// The names of the function whose head stands at a place, in the order of the text: its parameters, and the labels and
/// results up to the next close.
///
/// Source: LLVM Language Reference, "Identifiers" and "Functions". Differs: units that are left out define nothing.
pub fn names_of(alloc: Global, units: &[Placed<Unit>], head: usize) -> Result<List<Defined>, Memory>
    requires { head < length units.now }
    ensures { IfOk result (λ names. names ≡ spec.names_of units.now head) }
{
    let form = &units[head].value.form;
    let mut names = head_names(alloc, form)?;
    let mut standing = after(head, Standing::Outside, form);
    for at in head + 1..units.len() {
        let spot = match standing {
            Standing::Outside => return Ok(names),
            Standing::Inside(spot) => spot,
        };
        let form = &units[at].value.form;
        add_own(alloc, &mut names, at, spot, form)?;
        standing = after(at, standing, form);
    }
    Ok(names)
}
