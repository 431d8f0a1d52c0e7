ghost use Rattle.std.specs.Prelude.{◌≡◌, ◌^◌, ◌≤◌, length};
ghost use Rattle.type_metadata.specs.Counted.{AreCounted, IsCounted};
ghost use Rattle.type_metadata.specs.Items as listed;
ghost use Rattle.type_metadata.specs.Denoted as names;

use crate::objects::{Denoted, Object};
use ir_values::{Func, Linkage, Module, Var};

/// What a name in a file denotes: the file's own private definition of it, else the first strong definition in
/// object order, else the first weak one, else an external. Takes no memory.
///
/// Source: LLVM Language Reference, "Linkage Types".
pub fn denotes(modules: &[Module], file: u32, name: &[u8]) -> Denoted
    requires { AreCounted modules.now }
    ensures { result ≡ names.denoted (listed.items modules.now) file name.now }
{
    if let Some(object) = own_in(modules, file, name) {
        return Denoted::Item(object);
    }
    if let Some(object) = first_in(modules, Linkage::Strong, name) {
        return Denoted::Item(object);
    }
    match first_in(modules, Linkage::Weak, name) {
        Some(object) => Denoted::Item(object),
        None => Denoted::External,
    }
}

pub(crate) fn is_same_linkage(one: Linkage, other: Linkage) -> bool
    ensures { result ≡ names.is_same_linkage one other }
{
    match (one, other) {
        (Linkage::Private, Linkage::Private) => true,
        (Linkage::Strong, Linkage::Strong) => true,
        (Linkage::Weak, Linkage::Weak) => true,
        (Linkage::External, Linkage::External) => true,
        _ => false,
    }
}

fn own_in(modules: &[Module], file: u32, name: &[u8]) -> Option<Object>
    requires { AreCounted modules.now }
    ensures { result ≡ names.first (names.is_own file name.now) (listed.items modules.now) }
{
    for at in 0..modules.len() {
        match own_of(at as u32 + 1, &modules[at], file, name) {
            Some(object) => return Some(object),
            None => {}
        }
    }
    None
}

fn first_in(modules: &[Module], linkage: Linkage, name: &[u8]) -> Option<Object>
    requires { AreCounted modules.now }
    ensures { result ≡ names.first (names.is_called linkage name.now) (listed.items modules.now) }
{
    for at in 0..modules.len() {
        match first_of(at as u32 + 1, &modules[at], linkage, name) {
            Some(object) => return Some(object),
            None => {}
        }
    }
    None
}

// The private definition of the name in the module of a file, where it is the one asked for.
fn own_of(file: u32, module: &Module, asked: u32, name: &[u8]) -> Option<Object>
    requires { IsCounted module.now }
    ensures { result ≡ names.first (names.is_own asked name.now) (listed.items_in file module.now) }
{
    if file == asked {
        first_of(file, module, Linkage::Private, name)
    } else {
        None
    }
}

fn first_of(file: u32, module: &Module, linkage: Linkage, name: &[u8]) -> Option<Object>
    requires { IsCounted module.now }
    ensures { result ≡ names.first (names.is_called linkage name.now) (listed.items_in file module.now) }
{
    match first_variable(file, module.vars.items(), linkage, name) {
        Some(object) => Some(object),
        None => first_function(file, module.funcs.items(), linkage, name),
    }
}

fn first_variable(file: u32, variables: &[Var], linkage: Linkage, name: &[u8]) -> Option<Object>
    requires { length variables.now ≤ 2 ^ 32 }
    ensures { result ≡ names.first (names.is_called linkage name.now) (listed.variables_from file 0 variables.now) }
{
    for index in 0..variables.len() {
        let variable = &variables[index];
        if is_same_linkage(variable.linkage, linkage) && variable.name.bytes() == name {
            return Some(Object {
                file,
                function: false,
                index: index as u32,
            });
        }
    }
    None
}

fn first_function(file: u32, functions: &[Func], linkage: Linkage, name: &[u8]) -> Option<Object>
    requires { length functions.now ≤ 2 ^ 32 }
    ensures { result ≡ names.first (names.is_called linkage name.now) (listed.functions_from file 0 functions.now) }
{
    for index in 0..functions.len() {
        let function = &functions[index];
        if is_same_linkage(function.linkage, linkage) && function.name.bytes() == name {
            return Some(Object {
                file,
                function: true,
                index: index as u32,
            });
        }
    }
    None
}
