ghost use Rattle.std.specs.Prelude.{◌≡◌, List, length, ◌≤◌, map, take, All, Contains, MatchOption, IfOk};
ghost use Rattle.std.specs.List.{position_or_len};
ghost use Rattle.thin_files.specs.declared.thin.Variable.{Variable};
ghost use Rattle.thin_files.specs.declared.thin.Thin.{Thin};
ghost use Rattle.thin_files.specs.Thin.{variable_form, node_of, IsThin};
ghost use Rattle.thin_files.specs.Shape.{forms, is_head, AreVariables, IsReading, IsReadingAt};

use crate::thin::allowed::is_allowed;
use crate::thin::function::{FunctionUnits, function_units};
use crate::thin::nodes::Nodes;
use crate::thin::places::places_of;
use crate::thin::tail::{Tail, read_tail};
use crate::thin::texts::numbers;
use crate::thin::units::is_head;
use crate::thin::variables::read_variables;
use crate::thin::{Node, Thin, Variable};
use ir_values::Unit;
use ltt_base::{List, Memory, Placed, Text};
use std::alloc::Global;

/// The number of units before the first head of a function.
fn head_place(units: &[Placed<Unit>]) -> usize
    ensures value { result ≡ position_or_len (λ u. is_head u.value.form) units.now }
    ensures range { result ≤ length units.now }
{
    for (place, unit) in units.iter().enumerate() {
        if is_head(&unit.value.form) {
            return place;
        }
    }
    units.len()
}

fn copy_function(
    alloc: Global,
    function: &FunctionUnits<'_>,
    variables: List<Variable>,
    tail: Tail,
) -> Result<Thin, Memory>
    ensures { IfOk result (λ t. t ≡ record {
      variables = variables;
      place = function.now.place;
      name = function.now.name.now;
      pointer = function.now.pointer.now;
      register = function.now.register.now;
      tested = function.now.tested.now;
      second = tail.second;
      nodes = tail.nodes;
    }) }
{
    let name = Text::copy(alloc, function.name.bytes())?;
    let pointer = Text::copy(alloc, function.pointer.bytes())?;
    let register = Text::copy(alloc, function.register.bytes())?;
    let tested = Text::copy(alloc, function.tested.bytes())?;
    Ok(Thin {
        variables,
        place: function.place,
        name,
        pointer,
        register,
        tested,
        second: tail.second,
        nodes: tail.nodes,
    })
}

/// The variables that units say, where each says one and its node is there.
fn read_named(
    alloc: Global,
    units: &[Placed<Unit>],
    nodes: &[Node],
) -> Result<Option<List<Variable>>, Memory>
    ensures { IfOk result (λ found. MatchOption found
        ((variables : List Variable) → forms units.now ≡ map variable_form variables
        → All (λ v. Contains nodes.now (node_of v)) variables → ⊥)
        (AreVariables units.now nodes.now)) }
{
    let numbers = numbers(alloc, nodes)?;
    let places = places_of(alloc, numbers.items())?;
    let nodes = Nodes::new(nodes, places);
    match read_variables(alloc, units, &nodes)? {
        Some(variables) => Ok(Some(variables)),
        None => Ok(None),
    }
}

/// What a file says, by the units of its variables and the others.
fn read_parts(
    alloc: Global,
    front: &[Placed<Unit>],
    rest: &[Placed<Unit>],
) -> Result<Option<Thin>, Memory>
    ensures { IfOk result (λ found. MatchOption found
        ((t : Thin) → IsReadingAt front.now rest.now t → ⊥) (IsReadingAt front.now rest.now)) }
{
    match function_units(rest) {
        Some(function) => match read_tail(alloc, function.rest)? {
            Some(tail) => {
                match read_named(alloc, front, tail.nodes.items())? {
                    Some(variables) => Ok(Some(copy_function(alloc, &function, variables, tail)?)),
                    None => Ok(None),
                }
            }
            None => Ok(None),
        },
        None => Ok(None),
    }
}

/// What a file says where its units have the thin form, whether or not it keeps the rules.
pub(super) fn read(alloc: Global, units: &[Placed<Unit>]) -> Result<Option<Thin>, Memory>
    ensures { IfOk result (λ found. MatchOption found ((t : Thin) → IsReading units.now t → ⊥) (IsReading units.now)) }
{
    let place = head_place(units);
    match read_parts(alloc, &units[..place], &units[place..])? {
        Some(thin) => Ok(Some(thin)),
        None => Ok(None),
    }
}

/// What a thin file says: a file of at least one variable, a function that tests its parameter, perhaps one
/// that tests an address, the declaration of the test, and the nodes that the variables name.
///
/// `None` exactly where these units are no thin file.
pub fn thin_of(alloc: Global, units: &[Placed<Unit>]) -> Result<Option<Thin>, Memory>
    ensures { IfOk result (λ found. MatchOption found ((t : Thin) → IsThin units.now t → ⊥) (IsThin units.now)) }
{
    match read(alloc, units)? {
        Some(thin) => if is_allowed(alloc, &thin)? {
            Ok(Some(thin))
        } else {
            Ok(None)
        },
        None => Ok(None),
    }
}
