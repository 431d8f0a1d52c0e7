ghost use Rattle.std.specs.Prelude.{◌≡◌, ◌++◌, ◌+◌, ◌^◌, ◌<◌, ◌≤◌, length, IfOk, OnOk};
ghost use Rattle.type_metadata.specs.Items as listed;
ghost use Rattle.type_metadata.specs.Counted.{AreCounted, IsCounted};

use crate::objects::Object;
use ir_values::{Entry, Func, Linkage, Module, Var};
use ltt_base::{Copied, List, Memory, Text};
use std::alloc::Global;

/// A variable or a function of a list of modules, as far as linking and type metadata see it.
#[derive(Drop)]
pub struct Item {
    pub object: Object,
    pub name: Text,
    pub linkage: Linkage,
    pub entries: List<Entry>,
}

/// The items of a list of modules in object order: module by module, its variables, then its functions.
pub fn items_of(alloc: Global, modules: &[Module]) -> Result<List<Item>, Memory>
    requires { AreCounted modules.now }
    ensures { IfOk result (λ items. items ≡ listed.items modules.now) }
{
    let mut items = List::new(alloc);
    for at in 0..modules.len() {
        add_module(alloc, &mut items, at as u32 + 1, &modules[at])?;
    }
    Ok(items)
}

fn add_module(
    alloc: Global,
    items: &mut List<Item>,
    file: u32,
    module: &Module,
) -> Result<(), Memory>
    requires { IsCounted module.now }
    ensures { OnOk result (items.new ≡ items.old ++ listed.items_in file module.now) }
{
    add_variables(alloc, items, file, module.vars.items())?;
    add_functions(alloc, items, file, module.funcs.items())
}

fn add_variables(
    alloc: Global,
    items: &mut List<Item>,
    file: u32,
    variables: &[Var],
) -> Result<(), Memory>
    requires { length variables.now ≤ 2 ^ 32 }
    ensures { OnOk result (items.new ≡ items.old ++ listed.variables_from file 0 variables.now) }
{
    for index in 0..variables.len() {
        let object = Object {
            file,
            function: false,
            index: index as u32,
        };
        items.add(variable_item(alloc, object, &variables[index])?)?;
    }
    Ok(())
}

fn add_functions(
    alloc: Global,
    items: &mut List<Item>,
    file: u32,
    functions: &[Func],
) -> Result<(), Memory>
    requires { length functions.now ≤ 2 ^ 32 }
    ensures { OnOk result (items.new ≡ items.old ++ listed.functions_from file 0 functions.now) }
{
    for index in 0..functions.len() {
        let object = Object {
            file,
            function: true,
            index: index as u32,
        };
        items.add(function_item(alloc, object, &functions[index])?)?;
    }
    Ok(())
}

fn variable_item(alloc: Global, object: Object, variable: &Var) -> Result<Item, Memory>
    ensures { IfOk result (λ item. item ≡ listed.item_of_variable object variable.now) }
{
    Ok(Item {
        object,
        name: variable.name.copied(alloc)?,
        linkage: variable.linkage,
        entries: variable.entries.copied(alloc)?,
    })
}

fn function_item(alloc: Global, object: Object, function: &Func) -> Result<Item, Memory>
    ensures { IfOk result (λ item. item ≡ listed.item_of_function object function.now) }
{
    Ok(Item {
        object,
        name: function.name.copied(alloc)?,
        linkage: function.linkage,
        entries: function.entries.copied(alloc)?,
    })
}
