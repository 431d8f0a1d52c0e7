ghost use Rattle.std.specs.Prelude.{◌≡◌, ◌≢◌, List, map, Contains, MatchOption, IfOk};
ghost use Rattle.thin_files.specs.declared.thin.Node.{Node};
ghost use Rattle.thin_files.specs.Thin.{node_form};
ghost use Rattle.thin_files.specs.Places.{ArePlaces};
ghost use Rattle.thin_files.specs.Shape.{forms};

use crate::thin::Node;
use crate::thin::places::place_of;
use crate::thin::units::{NodeUnit, node_unit};
use ir_values::Unit;
use ltt_base::{List, Memory, Placed, Text};
use std::alloc::Global;
use std::collections::BTreeMap;
use std::marker::Model;

fn read_node(alloc: Global, unit: &Placed<Unit>) -> Result<Option<Node>, Memory>
    ensures { IfOk result (λ found. MatchOption found
        ((node : Node) → unit.now.value.form ≡ node_form node → ⊥)
        (λ node. unit.now.value.form ≡ node_form node)) }
{
    match node_unit(&unit.value.form) {
        Some(NodeUnit { number, offset, id }) => {
            let number = Text::copy(alloc, number.bytes())?;
            let id = Text::copy(alloc, id.bytes())?;
            Ok(Some(Node { number, offset, id }))
        }
        None => Ok(None),
    }
}

/// The nodes that units say, where each says one.
pub(super) fn read_nodes(
    alloc: Global,
    units: &[Placed<Unit>],
) -> Result<Option<List<Node>>, Memory>
    ensures { IfOk result (λ found. MatchOption found
        ((nodes : List Node) → forms units.now ≡ map node_form nodes → ⊥)
        (λ nodes. forms units.now ≡ map node_form nodes)) }
{
    let mut nodes = List::new(alloc);
    for unit in units {
        match read_node(alloc, unit)? {
            Some(node) => if nodes.push(node).is_err() {
                return Err(Memory);
            },
            None => return Ok(None),
        }
    }
    Ok(Some(nodes))
}

/// The nodes of a file, with the places of their numbers.
#[derive(Drop)]
pub(super) struct Nodes<'a> {
    list: &'a [Node],
    places: BTreeMap<&'a [u8], usize>,
}

impl<'a> Model for Nodes<'a> {
    ghost use Rattle.std.specs.Prelude.{List, map};
    ghost use Rattle.thin_files.specs.declared.thin.Node.{Node};
    ghost use Rattle.thin_files.specs.Places.{ArePlaces};

    ghost Value = { List Node };

    ghost view = { λ nodes. nodes.list.now };

    ghost invariant = { λ nodes. ArePlaces (map (λ n. n.number) nodes.list.now) nodes.places };
}

impl<'a> Nodes<'a> {
    pub(super) fn new(list: &'a [Node], places: BTreeMap<&'a [u8], usize>) -> Nodes<'a>
        requires { ArePlaces (map (λ n. n.number) list.now) places }
        ensures { result ≡ list.now }
    {
        Nodes { list, places }
    }

    pub(super) fn find(&self, number: &[u8]) -> Option<&Node>
        ensures { MatchOption result
            ((node : Node) → Contains self.now node → node.number ≢ number.now)
            (λ node. Contains self.now node.now × (node.now.number ≡ number.now)) }
    {
        match place_of(&self.places, number) {
            Some(place) => Some(&self.list[place]),
            None => None,
        }
    }
}
