// The module of a file.
ghost use Rattle.std.specs.Prelude.{◌≡◌, ◌++◌, flat_map, IfOk, OnOk};
ghost use Rattle.built_modules.specs.Modules as spec;

use crate::functions::funcs_of;
use crate::variables::vars_of;
use check_operands::Made;
use check_types::Types;
use ir_values::{Form, Jump, Module, Unit};
use ltt_base::{Copied, List, Memory, Place, Placed};
use std::alloc::Global;

fn add_jump(alloc: Global, jumps: &mut List<Jump>, place: Place, form: &Form) -> Result<(), Memory>
    ensures { OnOk result (jumps.new ≡ jumps.old ++ spec.jumps_in place form.now) }
{
    match form {
        Form::TableForm { name, funcs } => {
            let name = name.copied(alloc)?;
            let funcs = funcs.copied(alloc)?;
            jumps.add(Jump { place, name, funcs })
        }
        _ => Ok(()),
    }
}

fn jumps_of(alloc: Global, units: &[Placed<Unit>]) -> Result<List<Jump>, Memory>
    ensures { IfOk result (λ jumps. jumps ≡ flat_map spec.jumps_at units.now) }
{
    let mut jumps = List::new(alloc);
    for unit in units {
        add_jump(alloc, &mut jumps, unit.place, &unit.value.form)?;
    }
    Ok(jumps)
}

/// The module that the units of a file become.
///
/// `file` is the file's number, to which its distinct nodes belong. Of a unit with a flaw it gives some value.
///
/// Source: LLVM Language Reference, "Module Structure".
#[tactic(auto, unfolding(crate::specs::Modules::module_of))]
pub fn module_of<'a>(
    alloc: Global,
    types: &Types<'a>,
    made: &'a Made,
    file: u32,
) -> Result<Module, Memory>
    ensures { IfOk result (λ it. it ≡ spec.module_of types.now.output types.now.units file) }
{
    let units = types.context().units();
    Ok(Module {
        vars: vars_of(alloc, types, file, units)?,
        funcs: funcs_of(alloc, types, made, file, units)?,
        jumps: jumps_of(alloc, units)?,
    })
}
