ghost use Rattle.std.specs.Prelude.{◌≡◌, ℕ, List, cond, take, slice_get, Some, IfOk, OnOk};
ghost use Rattle.std.specs.Option.{option_copied};
ghost use Rattle.std.specs.Str.{bytes_eq};
ghost use Rattle.check_names.specs.Spaces as spec;
ghost use Rattle.check_names.specs.Index.{find, FindsFirst, is_before};

use crate::spaces::{Space, name_in};
use ir_values::Unit;
use ltt_base::{Memory, Placed, Text};
use std::alloc::Global;
use std::collections::BTreeMap;
use std::marker::Model;

/// The units of a file, whether it is an output, and which unit is the first to define each name.
///
/// A look-up takes time that grows with the logarithm of the number of names.
#[derive(Drop)]
pub struct Context<'a> {
    output: bool,
    units: &'a [Placed<Unit>],
    globals: BTreeMap<&'a [u8], usize>,
    types: BTreeMap<&'a [u8], usize>,
    nodes: BTreeMap<&'a [u8], usize>,
}

impl<'a> Model for Context<'a> {
    ghost use Rattle.std.specs.Coded.{codes};
    ghost use Rattle.ir_values.specs.contracts.types.Ty as ty;
    ghost use Rattle.ir_values.specs.contracts.constants.Const as constant;
    ghost use Rattle.ir_values.specs.contracts.constants.Operand as operand;
    ghost use Rattle.ir_values.specs.contracts.units.MetaItem as item;
    ghost use Rattle.check_names.specs.File.{File};

    ghost Value = { File };

    ghost coded = { Prim.hlevel (codes, ty.the_row.coded, constant.the_row.coded, operand.the_row.coded, item.the_row.coded) };

    ghost view = { λ context. record { output = context.output; units = context.units.now } };

    ghost use Rattle.check_names.specs.Index.{FindsFirst};
    ghost use Rattle.check_names.specs.declared.spaces.Space.TheVariants.{Globals, Types, Nodes};

    // the maps find the first definitions
    ghost invariant = { λ context. FindsFirst Globals context.units.now context.globals
        × FindsFirst Types context.units.now context.types
        × FindsFirst Nodes context.units.now context.nodes };
}

fn put<'a>(map: &mut BTreeMap<&'a [u8], usize>, name: &'a [u8], at: usize) -> Result<(), Memory>
    ensures { OnOk result ((q : List ℕ) → find q map.new
        ≡ cond (bytes_eq name.now q) (Some at) (find q map.old)) }
{
    match map.insert(name, at) {
        Ok(_) => Ok(()),
        Err(_) => Err(Memory),
    }
}

fn note<'a>(
    map: &mut BTreeMap<&'a [u8], usize>,
    name: Option<&'a Text>,
    at: usize,
) -> Result<(), Memory>
    ensures { OnOk result ((q : List ℕ) → find q map.new
        ≡ cond (spec.is_named q (option_copied name.entry)) (Some at) (find q map.old)) }
{
    match name {
        Some(name) => put(map, name.bytes(), at),
        None => Ok(()),
    }
}

fn index<'a>(
    alloc: Global,
    space: Space,
    units: &'a [Placed<Unit>],
) -> Result<BTreeMap<&'a [u8], usize>, Memory>
    ensures { IfOk result (FindsFirst space units.now) }
{
    let mut map = BTreeMap::new(alloc);
    for at in (0..units.len()).rev() {
        note(&mut map, name_in(space, &units[at].value.form), at)?;
    }
    Ok(map)
}

fn unit_at(units: &[Placed<Unit>], at: usize) -> Option<&Placed<Unit>>
    ensures { option_copied result ≡ slice_get units.now at }
{
    units.get(at)
}

fn is_before(place: Option<usize>, at: usize) -> bool
    ensures { result ≡ is_before at place }
{
    match place {
        Some(place) => place < at,
        None => false,
    }
}

impl<'a> Context<'a> {
    /// The context of a file's units.
    pub fn new(
        alloc: Global,
        output: bool,
        units: &'a [Placed<Unit>],
    ) -> Result<Context<'a>, Memory>
        ensures { IfOk result (λ context. context ≡ record { output = output; units = units.now }) }
    {
        let globals = index(alloc, Space::Globals, units)?;
        let types = index(alloc, Space::Types, units)?;
        let nodes = index(alloc, Space::Nodes, units)?;
        Ok(Context {
            output,
            units,
            globals,
            types,
            nodes,
        })
    }

    /// Whether the file is an output.
    pub fn is_output(&self) -> bool
        ensures { result ≡ self.now.output }
    {
        self.output
    }

    /// The units, in the order of the text.
    pub fn units(&self) -> &'a [Placed<Unit>]
        ensures { result.now ≡ self.now.units }
    {
        self.units
    }

    /// The index of the first unit that defines a name.
    pub fn first_definition(&self, space: Space, name: &[u8]) -> Option<usize>
        ensures { result ≡ spec.first_definition space name.now self.now.units }
    {
        match space {
            Space::Globals => self.globals.get(name).copied(),
            Space::Types => self.types.get(name).copied(),
            Space::Nodes => self.nodes.get(name).copied(),
        }
    }

    /// The first unit that defines a name.
    pub fn first_unit(&self, space: Space, name: &[u8]) -> Option<&'a Placed<Unit>>
        ensures { option_copied result ≡ spec.first_unit space name.now self.now.units }
    {
        match self.first_definition(space, name) {
            Some(at) => unit_at(self.units(), at),
            None => None,
        }
    }

    /// Whether some unit defines a name.
    pub fn defines(&self, space: Space, name: &[u8]) -> bool
        ensures { result ≡ spec.defines space name.now self.now.units }
    {
        self.first_definition(space, name).is_some()
    }

    /// Whether a unit before the one at `at` defines a name.
    pub fn defines_before(&self, space: Space, name: &[u8], at: usize) -> bool
        ensures { result ≡ spec.defines space name.now (take at self.now.units) }
    {
        is_before(self.first_definition(space, name), at)
    }
}
