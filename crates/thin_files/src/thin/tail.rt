// What stands behind the first function.
ghost use Rattle.std.specs.Prelude.{◌≡◌, List, ◌∷◌, Option, map, MatchOption, IfOk};
ghost use Rattle.ir_values.specs.declared.units.Form.{Form};
ghost use Rattle.thin_files.specs.declared.thin.Node.{Node};
ghost use Rattle.thin_files.specs.declared.thin.Second.{Second};
ghost use Rattle.thin_files.specs.Thin.{declare_form, node_form};
ghost use Rattle.thin_files.specs.Shape.{forms, tail_forms, IsTail};

use crate::thin::nodes::read_nodes;
use crate::thin::second_function::{copy_second, second_units};
use crate::thin::units::is_declaration;
use crate::thin::{Node, Second};
use ir_values::Unit;
use ltt_base::{List, Memory, Placed};
use std::alloc::Global;

/// The second function, where there is one, and the units behind the declaration.
#[derive(Drop)]
struct TailUnits<'a> {
    second: Option<Second>,
    nodes: &'a [Placed<Unit>],
}

/// The second function, where there is one, and the nodes.
#[derive(Drop)]
pub(super) struct Tail {
    pub second: Option<Second>,
    pub nodes: List<Node>,
}

/// The units behind the declaration of the test, which is the first.
fn behind_declaration(units: &[Placed<Unit>]) -> Option<&[Placed<Unit>]>
    ensures { MatchOption result
        ((nodes : List Form) → forms units.now ≡ declare_form ∷ nodes → ⊥)
        (λ nodes. forms units.now ≡ declare_form ∷ forms nodes.now) }
{
    match units {
        [declare, nodes @ ..] if is_declaration(&declare.value.form) => Some(nodes),
        _ => None,
    }
}

/// The same where the second function stands before the declaration.
fn with_second(alloc: Global, units: &[Placed<Unit>]) -> Result<Option<TailUnits<'_>>, Memory>
    ensures { IfOk result (λ found. MatchOption found
        ((second : Second) (nodes : List Form) → forms units.now ≡ tail_forms (Option.Some second) nodes → ⊥)
        (λ tail. IsTail units.now tail.second (forms tail.nodes.now))) }
{
    match second_units(units) {
        Some(function) => match behind_declaration(function.rest) {
            Some(nodes) => {
                let second = copy_second(alloc, &function)?;
                Ok(Some(TailUnits {
                    second: Some(second),
                    nodes,
                }))
            }
            None => Ok(None),
        },
        None => Ok(None),
    }
}

fn tail_units(alloc: Global, units: &[Placed<Unit>]) -> Result<Option<TailUnits<'_>>, Memory>
    ensures { IfOk result (λ found. MatchOption found
        ((second : Option Second) (nodes : List Form) → forms units.now ≡ tail_forms second nodes → ⊥)
        (λ tail. IsTail units.now tail.second (forms tail.nodes.now))) }
{
    match behind_declaration(units) {
        Some(nodes) => Ok(Some(TailUnits {
            second: None,
            nodes,
        })),
        None => match with_second(alloc, units)? {
            Some(tail) => Ok(Some(tail)),
            None => Ok(None),
        },
    }
}

/// What the units behind the first function say.
pub(super) fn read_tail(alloc: Global, units: &[Placed<Unit>]) -> Result<Option<Tail>, Memory>
    ensures { IfOk result (λ found. MatchOption found
        ((second : Option Second) (nodes : List Node) → forms units.now ≡ tail_forms second (map node_form nodes) → ⊥)
        (λ tail. IsTail units.now tail.second (map node_form tail.nodes))) }
{
    match tail_units(alloc, units)? {
        Some(TailUnits { second, nodes }) => match read_nodes(alloc, nodes)? {
            Some(nodes) => Ok(Some(Tail { second, nodes })),
            None => Ok(None),
        },
        None => Ok(None),
    }
}
