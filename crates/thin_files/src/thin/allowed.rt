ghost use Rattle.std.specs.Prelude.{◌∷◌, map, All, Contains, IsTrue, ◌↔◌, IfOk};
ghost use Rattle.thin_files.specs.Thin.{node_of, AreDistinct, IsSecondAllowed, IsAllowed};
ghost use Rattle.thin_files.specs.Rules.{IsSound, AreRegistersSound, AreNamesSound, AreNodesSound, AreIdentifiersSound, IsSecondFine};

use crate::thin::rules::{are_node_numbers, are_sound, is_free, is_second_sound};
use crate::thin::shape::is_same;
use crate::thin::texts::{
    are_among, are_distinct, global_names, holds, identifiers, named_numbers, numbers,
    variable_names,
};
use crate::thin::{Node, Second, Thin, Variable};
use ltt_base::{Memory, Text};
use std::alloc::Global;

fn are_registers_sound(pointer: &[u8], register: &[u8]) -> bool
    ensures { IsTrue result ↔ AreRegistersSound pointer.now register.now }
{
    if is_same(pointer, register) {
        return false;
    }
    is_free(pointer) && is_free(register)
}

fn are_globals_distinct(
    alloc: Global,
    function: &Text,
    variables: &[Variable],
) -> Result<bool, Memory>
    ensures { IfOk result (λ distinct. IsTrue distinct ↔ AreDistinct (function.now ∷ map (λ v. v.name) variables.now)) }
{
    let names = global_names(alloc, function, variables)?;
    are_distinct(alloc, names.items())
}

fn are_names_sound(alloc: Global, thin: &Thin) -> Result<bool, Memory>
    ensures { IfOk result (λ sound. IsTrue sound ↔ AreNamesSound thin.now) }
{
    if !are_globals_distinct(alloc, &thin.name, thin.variables.items())? {
        return Ok(false);
    }
    if !is_free(thin.name.bytes()) {
        return Ok(false);
    }
    Ok(are_registers_sound(thin.pointer.bytes(), thin.register.bytes()))
}

fn are_numbers_distinct(alloc: Global, nodes: &[Node]) -> Result<bool, Memory>
    ensures { IfOk result (λ distinct. IsTrue distinct ↔ AreDistinct (map (λ n. n.number) nodes.now)) }
{
    let numbers = numbers(alloc, nodes)?;
    are_distinct(alloc, numbers.items())
}

fn are_all_named(alloc: Global, nodes: &[Node], variables: &[Variable]) -> Result<bool, Memory>
    ensures { IfOk result (λ named. IsTrue named ↔ All (λ n. Contains (map (λ v. v.node) variables.now) n.number) nodes.now) }
{
    let numbers = named_numbers(alloc, variables)?;
    are_among(alloc, nodes, numbers.items())
}

fn are_nodes_sound(alloc: Global, nodes: &[Node], variables: &[Variable]) -> Result<bool, Memory>
    ensures { IfOk result (λ sound. IsTrue sound ↔ AreNodesSound nodes.now variables.now) }
{
    if !are_numbers_distinct(alloc, nodes)? {
        return Ok(false);
    }
    if !are_all_named(alloc, nodes, variables)? {
        return Ok(false);
    }
    Ok(are_node_numbers(nodes))
}

fn are_identifiers_sound(alloc: Global, thin: &Thin) -> Result<bool, Memory>
    ensures { IfOk result (λ sound. IsTrue sound ↔ AreIdentifiersSound thin.now) }
{
    let ids = identifiers(alloc, thin.variables.items())?;
    let distinct = are_distinct(alloc, ids.items())?;
    Ok(distinct && holds(ids.items(), thin.tested.bytes()))
}

/// Whether no variable and no first function has this name.
fn is_new(alloc: Global, thin: &Thin, name: &[u8]) -> Result<bool, Memory>
    ensures { IfOk result (λ new. IsTrue new ↔ (Contains (thin.now.name ∷ map (λ v. v.name) thin.now.variables) name.now → ⊥)) }
{
    let globals = global_names(alloc, &thin.name, thin.variables.items())?;
    Ok(!holds(globals.items(), name))
}

/// Whether a variable has this name.
fn is_named(alloc: Global, variables: &[Variable], name: &[u8]) -> Result<bool, Memory>
    ensures { IfOk result (λ named. IsTrue named ↔ Contains (map (λ v. v.name) variables.now) name.now) }
{
    let names = variable_names(alloc, variables)?;
    Ok(holds(names.items(), name))
}

/// Whether a variable carries this identifier.
fn is_carried(alloc: Global, variables: &[Variable], id: &[u8]) -> Result<bool, Memory>
    ensures { IfOk result (λ carried. IsTrue carried ↔ Contains (map (λ v. v.id) variables.now) id.now) }
{
    let ids = identifiers(alloc, variables)?;
    Ok(holds(ids.items(), id))
}

fn is_second_allowed(alloc: Global, thin: &Thin, second: &Second) -> Result<bool, Memory>
    ensures { IfOk result (λ allowed. IsTrue allowed ↔ IsSecondAllowed thin.now second.now) }
{
    if !is_new(alloc, thin, second.name.bytes())? {
        return Ok(false);
    }
    if !is_named(alloc, thin.variables.items(), second.object.bytes())? {
        return Ok(false);
    }
    if !is_carried(alloc, thin.variables.items(), second.tested.bytes())? {
        return Ok(false);
    }
    Ok(is_second_sound(second))
}

/// Whether the second function keeps the rules, where there is one.
fn is_second_fine(alloc: Global, thin: &Thin) -> Result<bool, Memory>
    ensures { IfOk result (λ fine. IsTrue fine ↔ IsSecondFine thin.now) }
{
    match &thin.second {
        Some(second) => is_second_allowed(alloc, thin, second),
        None => Ok(true),
    }
}

/// Whether what a file says keeps the rules, where its variables have the entries of its nodes.
pub(super) fn is_allowed(alloc: Global, thin: &Thin) -> Result<bool, Memory>
    requires { All (λ v. Contains thin.now.nodes (node_of v)) thin.now.variables }
    ensures { IfOk result (λ allowed. IsTrue allowed ↔ IsAllowed thin.now) }
{
    if !are_names_sound(alloc, thin)? {
        return Ok(false);
    }
    if !are_nodes_sound(alloc, thin.nodes.items(), thin.variables.items())? {
        return Ok(false);
    }
    if !are_identifiers_sound(alloc, thin)? {
        return Ok(false);
    }
    if !is_second_fine(alloc, thin)? {
        return Ok(false);
    }
    Ok(are_sound(thin.variables.items()))
}
