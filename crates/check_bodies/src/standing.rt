ghost use Rattle.std.specs.Prelude.{◌≡◌, ◌≤◌, length};
ghost use Rattle.check_bodies.specs.Standing as spec;

use crate::numbers::{behind_name, behind_parameters, up};
use crate::sorts::{Sort, has_result, sort_of, written_name};
use ir_values::{Form, Param, Unit};
use ltt_base::Placed;

/// How far the block is at a spot: none has begun, it has its label alone, or it has an instruction.
#[derive(Clone, Copy)]
pub enum Stage {
    Between,
    Labelled,
    Open,
}

/// A spot in a body.
///
/// `head` and `start` are the places, among the units, of the function's head and of the unit that begins the
/// block. `next` is the number that the next unnamed value or block takes, `number` the one that the block has as
/// its label where none is written. `only_phis` and `count` speak of the block's instructions so far, `any` tells
/// whether the body has one.
#[derive(Clone, Copy)]
pub struct Spot {
    pub head: usize,
    pub next: u64,
    pub stage: Stage,
    pub start: usize,
    pub number: u64,
    pub only_phis: bool,
    pub count: u64,
    pub any: bool,
}

/// Where a unit stands: outside all bodies, or in one.
#[derive(Clone, Copy)]
pub enum Standing {
    Outside,
    Inside(Spot),
}

/// Whether a block has begun and isn't ended.
pub fn is_begun(stage: Stage) -> bool
    ensures { result ≡ spec.is_begun stage }
{
    match stage {
        Stage::Between => false,
        Stage::Labelled => true,
        Stage::Open => true,
    }
}

/// The spot behind a head.
pub fn entered(at: usize, params: &[Param]) -> Spot
    ensures { result ≡ spec.entered at params.now }
{
    Spot {
        head: at,
        next: behind_parameters(0, params),
        stage: Stage::Between,
        start: at,
        number: 0,
        only_phis: true,
        count: 0,
        any: false,
    }
}

fn labelled(at: usize, spot: Spot, label: &Form) -> Spot
    ensures { result ≡ spec.labelled at spot label.now }
{
    Spot {
        next: behind_name(spot.next, written_name(label)),
        stage: Stage::Labelled,
        start: at,
        only_phis: true,
        count: 0,
        ..spot
    }
}

/// The spot at which an instruction stands: one outside a block begins a block, whose label is the next number.
pub fn opened(at: usize, spot: Spot) -> Spot
    ensures { result ≡ spec.opened at spot }
{
    if is_begun(spot.stage) {
        spot
    } else {
        Spot {
            next: up(spot.next),
            stage: Stage::Open,
            start: at,
            number: spot.next,
            only_phis: true,
            count: 0,
            ..spot
        }
    }
}

fn is_phi(sort: Sort) -> bool
    ensures { result ≡ spec.is_phi sort }
{
    match sort {
        Sort::Phi => true,
        _ => false,
    }
}

fn stage_behind(sort: Sort) -> Stage
    ensures { result ≡ spec.stage_behind sort }
{
    match sort {
        Sort::Terminator => Stage::Between,
        _ => Stage::Open,
    }
}

/// Whether an instruction has a result.
pub fn is_named(form: &Form) -> bool
    ensures { result ≡ spec.is_named form.now }
{
    written_name(form).is_some() || has_result(form)
}

fn next_behind(next: u64, form: &Form) -> u64
    ensures { result ≡ spec.next_behind next form.now }
{
    if is_named(form) {
        behind_name(next, written_name(form))
    } else {
        next
    }
}

fn passed(spot: Spot, sort: Sort, form: &Form) -> Spot
    ensures { result ≡ spec.passed spot sort form.now }
{
    Spot {
        next: next_behind(spot.next, form),
        stage: stage_behind(sort),
        only_phis: spot.only_phis && is_phi(sort),
        count: up(spot.count),
        any: true,
        ..spot
    }
}

fn after_inside(at: usize, spot: Spot, sort: Sort, form: &Form) -> Standing
    ensures { result ≡ spec.after_inside at spot sort form.now }
{
    match sort {
        Sort::Close => Standing::Outside,
        Sort::Label => Standing::Inside(labelled(at, spot, form)),
        Sort::Phi => Standing::Inside(passed(opened(at, spot), Sort::Phi, form)),
        Sort::Plain => Standing::Inside(passed(opened(at, spot), Sort::Plain, form)),
        Sort::Terminator => Standing::Inside(passed(opened(at, spot), Sort::Terminator, form)),
        _ => Standing::Inside(spot),
    }
}

fn after_outside(at: usize, form: &Form) -> Standing
    ensures { result ≡ spec.after_outside at form.now }
{
    match form {
        Form::DefineForm { head } => Standing::Inside(entered(at, head.params.items())),
        _ => Standing::Outside,
    }
}

/// Where the unit behind the one at a place stands. A head inside a body opens none.
///
/// Source: LLVM Language Reference, "Functions". Differs: units that are left out are no instructions.
pub fn after(at: usize, standing: Standing, form: &Form) -> Standing
    ensures { result ≡ spec.after at standing form.now }
{
    match standing {
        Standing::Outside => after_outside(at, form),
        Standing::Inside(spot) => after_inside(at, spot, sort_of(form), form),
    }
}

/// Where the unit at a place stands. A caller that goes through the units carries `after` along instead.
pub fn standing_at(units: &[Placed<Unit>], at: usize) -> Standing
    requires { at ≤ length units.now }
    ensures { result ≡ spec.standing units.now at }
{
    let mut standing = Standing::Outside;
    for place in 0..at {
        standing = after(place, standing, &units[place].value.form);
    }
    standing
}
