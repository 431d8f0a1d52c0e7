ghost use Rattle.std.specs.Prelude.{◌≡◌, ◌<◌, length};
ghost use Rattle.check_bodies.specs.Structure as spec;

use crate::sorts::{Sort, is_instruction, sort_of};
use crate::standing::{Spot, Standing, is_begun};
use ir_values::Unit;
use ltt_base::Placed;

fn is_misplaced_outside(sort: Sort) -> bool
    ensures { result ≡ spec.is_misplaced_outside sort }
{
    match sort {
        Sort::Head => false,
        Sort::Left => false,
        Sort::Outer => false,
        _ => true,
    }
}

fn is_misplaced_inside(spot: Spot, sort: Sort) -> bool
    ensures { result ≡ spec.is_misplaced_inside spot sort }
{
    match sort {
        Sort::Label => is_begun(spot.stage),
        Sort::Close => !spot.any || is_begun(spot.stage),
        Sort::Phi => is_begun(spot.stage) && !spot.only_phis,
        Sort::Head => true,
        Sort::Outer => true,
        _ => false,
    }
}

/// Whether a unit of this sort may not stand here, by what stands before it alone.
///
/// Source: LLVM Language Reference, "Functions", "Terminator Instructions" and "'phi' Instruction".
pub fn is_misplaced(standing: Standing, sort: Sort) -> bool
    ensures { result ≡ spec.is_misplaced standing sort }
{
    match standing {
        Standing::Outside => is_misplaced_outside(sort),
        Standing::Inside(spot) => is_misplaced_inside(spot, sort),
    }
}

fn is_full(spot: Spot) -> bool
    ensures { result ≡ spec.is_full spot }
{
    is_begun(spot.stage) && spot.count >= 4096
}

/// Whether a unit of this sort is one more instruction than its block may have, which is 4,096.
pub fn is_past_limit(standing: Standing, sort: Sort) -> bool
    ensures { result ≡ spec.is_past_limit standing sort }
{
    match standing {
        Standing::Outside => false,
        Standing::Inside(spot) => is_instruction(sort) && is_full(spot),
    }
}

fn closes(unit: &Placed<Unit>) -> bool
    ensures { result ≡ spec.closes unit.now }
{
    match sort_of(&unit.value.form) {
        Sort::Close => true,
        _ => false,
    }
}

/// Whether a close stands behind the head at a place.
pub fn is_closed(units: &[Placed<Unit>], head: usize) -> bool
    requires { head < length units.now }
    ensures { result ≡ spec.is_closed units.now head }
{
    for at in head + 1..units.len() {
        if closes(&units[at]) {
            return true;
        }
    }
    false
}
