// The memory that source modules begin with.
ghost use Rattle.std.specs.Prelude.{◌≡◌, ◌++◌, ◌<◌, ◌^◌, length, IfOk, OnOk, map, All};
ghost use Rattle.ir_numbers.specs.Layout.{IsLaidOut};
ghost use Rattle.ir_memories.specs.Worlds as worlds;

use crate::images::{Source, cells_of};
use crate::symbolic::{Space, Symbolic};
use crate::values::NoMemory;
use ir_values::{Func, Module, Var};
use ltt_base::{List, Memory};
use std::alloc::Global;
use type_metadata::{Listing, Types, extent_of, items_of};

impl Symbolic {
    /// The memory of these modules, whose types these are. It takes all its cells here.
    pub fn new(alloc: Global, modules: &[Module], types: &Types) -> Result<Symbolic, NoMemory>
        requires { worlds.AreSource modules.now types.now }
        ensures { IfOk result (λ memory. memory ≡ worlds.world modules.now types.now) }
    {
        match made(alloc, modules, types) {
            Ok(memory) => Ok(memory),
            Err(Memory) => Err(NoMemory),
        }
    }
}

fn made(alloc: Global, modules: &[Module], types: &Types) -> Result<Symbolic, Memory>
    requires { worlds.AreSource modules.now types.now }
    ensures { IfOk result (λ memory. memory ≡ worlds.world modules.now types.now) }
{
    let items = Listing::new(alloc, items_of(alloc, modules)?)?;
    let spaces = spaces_of(alloc, &items, modules)?;
    Ok(Symbolic {
        items,
        spaces,
        types: types.copy(alloc)?,
    })
}

fn spaces_of(alloc: Global, items: &Listing, modules: &[Module]) -> Result<List<Space>, Memory>
    requires files { length modules.now < 2 ^ 32 }
    requires laid { All worlds.IsLaid modules.now }
    ensures { IfOk result (λ spaces. spaces ≡ worlds.spaces_from items.now 1 modules.now) }
{
    let mut spaces = List::new(alloc);
    for at in 0..modules.len() {
        add_module(alloc, &mut spaces, items, at as u32 + 1, &modules[at])?;
    }
    Ok(spaces)
}

fn add_module(
    alloc: Global,
    spaces: &mut List<Space>,
    items: &Listing,
    file: u32,
    module: &Module,
) -> Result<(), Memory>
    requires { worlds.IsLaid module.now }
    ensures { OnOk result (spaces.new ≡ spaces.old ++ worlds.spaces_in items.now file module.now) }
{
    add_variables(alloc, spaces, items, file, module.vars.items())?;
    add_functions(alloc, spaces, module.funcs.items())
}

fn add_variables(
    alloc: Global,
    spaces: &mut List<Space>,
    items: &Listing,
    file: u32,
    variables: &[Var],
) -> Result<(), Memory>
    requires { All (λ v. IsLaidOut v.ty) variables.now }
    ensures { OnOk result (spaces.new ≡ spaces.old ++ map (worlds.variable_space items.now file) variables.now) }
{
    for variable in variables {
        spaces.add(variable_space(alloc, items, file, variable)?)?;
    }
    Ok(())
}

fn variable_space(
    alloc: Global,
    items: &Listing,
    file: u32,
    variable: &Var,
) -> Result<Space, Memory>
    requires { IsLaidOut variable.now.ty }
    ensures { IfOk result (λ space. space ≡ worlds.variable_space items.now file variable.now) }
{
    Ok(Space {
        extent: extent_of(variable),
        constant: variable.constant,
        cells: cells_of(alloc, &Source { items, file }, &variable.init)?,
    })
}

fn add_functions(alloc: Global, spaces: &mut List<Space>, functions: &[Func]) -> Result<(), Memory>
    ensures { OnOk result (spaces.new ≡ spaces.old ++ map worlds.function_space functions.now) }
{
    for _function in functions {
        spaces.add(Space {
            extent: 1,
            constant: true,
            cells: List::new(alloc),
        })?;
    }
    Ok(())
}
