ghost use Rattle.std.specs.Prelude.{◌≡◌, List, map, All, Contains, MatchOption, IfOk};
ghost use Rattle.thin_files.specs.declared.thin.Variable.{Variable};
ghost use Rattle.thin_files.specs.Thin.{variable_form, node_of};
ghost use Rattle.thin_files.specs.Shape.{forms, AreVariables};

use crate::thin::Variable;
use crate::thin::nodes::Nodes;
use crate::thin::units::{VariableUnit, variable_unit};
use ir_values::Unit;
use ltt_base::{List, Memory, Placed, Text};
use std::alloc::Global;

/// The variable that a unit says, with the entry that its node says.
fn read_variable(
    alloc: Global,
    unit: &Placed<Unit>,
    nodes: &Nodes<'_>,
) -> Result<Option<Variable>, Memory>
    ensures { IfOk result (λ found. MatchOption found
        ((v : Variable) → unit.now.value.form ≡ variable_form v → Contains nodes.now (node_of v) → ⊥)
        (λ v. (unit.now.value.form ≡ variable_form v) × (unit.now.place ≡ v.place) × Contains nodes.now (node_of v))) }
{
    match variable_unit(&unit.value.form) {
        Some(VariableUnit { name, count, node }) => match nodes.find(node.bytes()) {
            Some(found) => {
                let name = Text::copy(alloc, name.bytes())?;
                let node = Text::copy(alloc, node.bytes())?;
                let id = Text::copy(alloc, found.id.bytes())?;
                Ok(Some(Variable {
                    place: unit.place,
                    name,
                    count,
                    node,
                    offset: found.offset,
                    id,
                }))
            }
            None => Ok(None),
        },
        None => Ok(None),
    }
}

/// The variables that units say, where each says one and its node is there.
pub(super) fn read_variables(
    alloc: Global,
    units: &[Placed<Unit>],
    nodes: &Nodes<'_>,
) -> Result<Option<List<Variable>>, Memory>
    ensures { IfOk result (λ found. MatchOption found
        ((variables : List Variable) → forms units.now ≡ map variable_form variables
        → All (λ v. Contains nodes.now (node_of v)) variables → ⊥)
        (AreVariables units.now nodes.now)) }
{
    let mut variables = List::new(alloc);
    for unit in units {
        match read_variable(alloc, unit, nodes)? {
            Some(variable) => if variables.push(variable).is_err() {
                return Err(Memory);
            },
            None => return Ok(None),
        }
    }
    Ok(Some(variables))
}
