ghost use Rattle.std.specs.Prelude.{◌≡◌, ◌<◌, length, IfOk};
ghost use Rattle.check_names.specs.Flaws.{each};
ghost use Rattle.check_bodies.specs.Names as names;
ghost use Rattle.check_bodies.specs.Bodies as spec;

use crate::body::Body;
use crate::names::{Asked, Defined, Local, add_own, head_names};
use crate::sorts::sort_of;
use crate::standing::{Spot, Standing};
use crate::structure::{is_closed, is_misplaced, is_past_limit};
use check_names::{Flaw, counts, named_when, when, worded_when};
use ir_values::{Form, Unit};
use ltt_base::{Code, List, Memory, Placed, Text};
use std::alloc::Global;

/// A name that no label of the function has, or no value, as is asked.
pub fn missing_flaw(
    alloc: Global,
    body: &Body<'_>,
    asked: Asked,
    name: &Text,
) -> Result<Option<Flaw>, Memory>
    ensures { IfOk result (λ flaw. flaw ≡ spec.missing_flaw body.now.units body.now.head asked name.now) }
{
    let missing = body.first_local(asked, name).is_none();
    named_when(alloc, missing, Code::E05, b"%", name.bytes())
}

fn is_same_local(one: Local, other: Local) -> bool
    ensures { result ≡ spec.is_same_local one other }
{
    match (one, other) {
        (Local::Parameter(one), Local::Parameter(other)) => one == other,
        (Local::Block(one), Local::Block(other)) => one == other,
        (Local::Result(one), Local::Result(other)) => one == other,
        _ => false,
    }
}

fn is_local(local: Local, found: Option<Local>) -> bool
    ensures { result ≡ spec.is_local local found }
{
    match found {
        None => false,
        Some(found) => is_same_local(found, local),
    }
}

fn again_among(alloc: Global, body: &Body<'_>, defined: &Defined) -> Result<Option<Flaw>, Memory>
    ensures { IfOk result (λ flaw. flaw
        ≡ spec.again_among (names.names_of body.now.units body.now.head) defined.now) }
{
    let first = body.first_local(Asked::Either, &defined.name);
    let again = !is_local(defined.local, first);
    named_when(alloc, again, Code::E04, b"%", defined.name.bytes())
}

fn each_again(alloc: Global, body: &Body<'_>, own: &[Defined]) -> Result<Option<Flaw>, Memory>
    ensures { IfOk result (λ flaw. flaw
        ≡ each (spec.again_among (names.names_of body.now.units body.now.head)) own.now) }
{
    let mut flaw = None;
    for at in (0..own.len()).rev() {
        flaw = counts(again_among(alloc, body, &own[at])?, flaw);
    }
    Ok(flaw)
}

/// A name that stands twice among the parameters of a head.
pub fn head_flaw(alloc: Global, body: &Body<'_>, form: &Form) -> Result<Option<Flaw>, Memory>
    ensures { IfOk result (λ flaw. flaw ≡ spec.head_flaw body.now.units body.now.head form.now) }
{
    let own = head_names(alloc, form)?;
    each_again(alloc, body, own.items())
}

fn own_flaw(
    alloc: Global,
    body: &Body<'_>,
    at: usize,
    spot: Spot,
    form: &Form,
) -> Result<Option<Flaw>, Memory>
    ensures { IfOk result (λ flaw. flaw ≡ spec.own_flaw body.now.units body.now.head at spot form.now) }
{
    let mut own = List::new(alloc);
    add_own(alloc, &mut own, at, spot, form)?;
    each_again(alloc, body, own.items())
}

fn structure_flaw(
    alloc: Global,
    body: &Body<'_>,
    at: usize,
    spot: Spot,
    form: &Form,
) -> Result<Option<Flaw>, Memory>
    ensures { IfOk result (λ flaw. flaw ≡ spec.structure_flaw body.now.units body.now.head at spot form.now) }
{
    let misplaced = is_misplaced(Standing::Inside(spot), sort_of(form));
    let to_entry = body.is_to_entry(form);
    let torn = body.is_torn(alloc, at, spot, form)?;
    Ok(when(misplaced || (to_entry || torn), Code::E03))
}

fn limit_flaw(alloc: Global, spot: Spot, form: &Form) -> Result<Option<Flaw>, Memory>
    ensures { IfOk result (λ flaw. flaw ≡ spec.limit_flaw spot form.now) }
{
    let past = is_past_limit(Standing::Inside(spot), sort_of(form));
    worded_when(alloc, past, Code::E12, b"instructions")
}

/// The flaw of a unit at a spot of a body that counts, among those that the body alone shows: its place, where it
/// leads, the labels of a phi, a name that it defines again, and the limit of instructions.
///
/// Source: LLVM Language Reference, "Functions", "Identifiers" and "'phi' Instruction".
pub fn body_flaw(
    alloc: Global,
    body: &Body<'_>,
    at: usize,
    spot: Spot,
    form: &Form,
) -> Result<Option<Flaw>, Memory>
    ensures { IfOk result (λ flaw. flaw ≡ spec.body_flaw body.now.units body.now.head at spot form.now) }
{
    let structure = structure_flaw(alloc, body, at, spot, form)?;
    let own = own_flaw(alloc, body, at, spot, form)?;
    let limit = limit_flaw(alloc, spot, form)?;
    Ok(counts(structure, counts(own, limit)))
}

/// The flaw of a unit outside all bodies that its place shows.
pub fn outside_flaw(form: &Form) -> Option<Flaw>
    ensures { result ≡ spec.outside_flaw form.now }
{
    when(is_misplaced(Standing::Outside, sort_of(form)), Code::E03)
}

/// The flaw of a head whose body is never closed.
pub fn unclosed_flaw(units: &[Placed<Unit>], head: usize) -> Option<Flaw>
    requires { head < length units.now }
    ensures { result ≡ spec.unclosed_flaw units.now head }
{
    when(!is_closed(units, head), Code::E03)
}
