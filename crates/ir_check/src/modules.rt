// The module of a file whose units have no flaw.
ghost use Rattle.std.specs.Prelude.{◌≡◌, true, false};
ghost use Rattle.built_modules.specs.Modules.{module_of};
ghost use Rattle.ir_check.specs.Answers.{Answers};

use crate::check::check_with;
use built_modules::module_of;
use check_names::Context;
use check_operands::Made;
use check_types::Types;
use ir_values::{Module, Unit};
use ltt_base::{Fault, Placed};
use std::alloc::Global;

fn checked<'a>(alloc: Global, types: &Types<'a>, made: &'a Made, file: u32) -> Result<Module, Fault>
    ensures { Answers (λ m. m ≡ module_of types.now.output types.now.units file) types.now.output types.now.units result }
{
    check_with(alloc, types, made)?;
    Ok(module_of(alloc, types, made, file)?)
}

fn checked_units<'a>(
    alloc: Global,
    output: bool,
    units: &'a [Placed<Unit>],
    made: &'a Made,
    file: u32,
) -> Result<Module, Fault>
    ensures { Answers (λ m. m ≡ module_of output units.now file) output units.now result }
{
    let context = Context::new(alloc, output, units)?;
    let types = Types::new(alloc, context)?;
    checked(alloc, &types, made, file)
}

/// The module of a source, or the refusal of its first unit with a flaw, as `check_units` tells it.
///
/// `file` is the file's number, to which its distinct nodes belong as type identifiers.
pub fn check_source(alloc: Global, units: &[Placed<Unit>], file: u32) -> Result<Module, Fault>
    ensures { Answers (λ m. m ≡ module_of false units.now file) false units.now result }
{
    let made = Made::new(alloc)?;
    checked_units(alloc, false, units, &made, file)
}

/// The module of an output, or the refusal of its first unit with a flaw, as `check_units` tells it.
pub fn check_output(alloc: Global, units: &[Placed<Unit>], file: u32) -> Result<Module, Fault>
    ensures { Answers (λ m. m ≡ module_of true units.now file) true units.now result }
{
    let made = Made::new(alloc)?;
    checked_units(alloc, true, units, &made, file)
}
