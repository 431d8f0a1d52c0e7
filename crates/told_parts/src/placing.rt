// The numeric memory of an output of one variable and two functions.
ghost use Rattle.std.specs.Prelude.{◌≡◌, [], ◌∷◌, IsTrue};
ghost use Rattle.told_parts.specs.Standing.{IsLittle, AreApart, AreDefined, CanStand};

use ir_memories::{NoMemory, Numeric, place_from};
use ir_numbers::{is_laid_out, size_of};
use ir_values::{Func, Module, Var};
use ltt_base::Text;
use std::alloc::Global;

/// Whether a variable takes little room from here on.
fn is_little(variable: &Var, base: u64) -> bool
    ensures { IsTrue result → IsLittle variable.now base }
{
    if base == 0 {
        return false;
    }
    if base >= 1 << 32 {
        return false;
    }
    if variable.align != 8 {
        return false;
    }
    is_laid_out(&variable.ty) && size_of(&variable.ty) <= 1 << 27
}

/// Whether a variable and two functions have three names.
fn are_apart(variable: &Text, one: &Text, other: &Text) -> bool
    ensures { IsTrue result → AreApart variable.now one.now other.now }
{
    if variable.is_bytes(one.bytes()) {
        return false;
    }
    if variable.is_bytes(other.bytes()) {
        return false;
    }
    !one.is_bytes(other.bytes())
}

/// Whether neither function is external.
fn are_defined(one: &Func, other: &Func) -> bool
    ensures { IsTrue result → AreDefined one.now other.now }
{
    if one.blocks.is_empty() {
        return false;
    }
    !other.blocks.is_empty()
}

/// Whether a variable and two functions can be placed from a base.
fn are_placeable(variable: &Var, one: &Func, other: &Func, base: u64) -> bool
    ensures { IsTrue result → CanStand variable.now one.now other.now base }
{
    if !is_little(variable, base) {
        return false;
    }
    if !are_defined(one, other) {
        return false;
    }
    are_apart(&variable.name, &one.name, &other.name)
}

/// The memory of the output whose objects these are, placed from a base.
#[tactic(auto, using(crate::proofs::StandingLaws::placeable, crate::proofs::StandingLaws::addresses))]
fn placed_from(
    alloc: Global,
    output: &Module,
    variable: &Var,
    one: &Func,
    other: &Func,
    base: u64,
) -> Option<Numeric>
    requires variables { output.now.vars ≡ variable.now ∷ [] }
    requires tables { output.now.jumps ≡ [] }
    requires functions { output.now.funcs ≡ one.now ∷ other.now ∷ [] }
    requires room { CanStand variable.now one.now other.now base }
{
    let Ok(at) = place_from(alloc, output, base) else {
        return None;
    };
    match Numeric::new(alloc, output, at.items()) {
        Ok(memory) => Some(memory),
        Err(NoMemory) => None,
    }
}

/// The memory of the output, placed from a base.
pub fn placed(alloc: Global, output: &Module, base: u64) -> Option<Numeric> {
    let [variable] = output.vars.items() else {
        return None;
    };
    let [] = output.jumps.items() else {
        return None;
    };
    let [one, other] = output.funcs.items() else {
        return None;
    };
    if !are_placeable(variable, one, other, base) {
        return None;
    }
    placed_from(alloc, output, variable, one, other, base)
}
