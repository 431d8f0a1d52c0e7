ghost use Rattle.std.specs.Prelude.{◌≡◌, ◌<◌, length, IfOk};
ghost use Rattle.check_bodies.specs.Names as names;
ghost use Rattle.check_bodies.specs.Blocks as blocks;
ghost use Rattle.check_bodies.specs.Bodies as spec;

use crate::blocks::{BlockMark, block_at, block_label, edges_of};
use crate::index::{entry_label, first_locals};
use crate::labels::{are_same_labels, arm_labels, is_target, labels_of};
use crate::names::{Asked, Local, names_of};
use crate::sources::{marks_at, sources_by_label};
use crate::standing::{Spot, opened};
use ir_values::{Form, Unit};
use ltt_base::{List, Memory, Placed, Text};
use std::alloc::Global;
use std::collections::BTreeMap;
use std::marker::Model;

/// A function's names and the edges between its blocks, each found by its name.
///
/// A look-up takes time that grows with the logarithm of the number of names. Contracts see the file's units and the
/// place of the function's head among them.
#[derive(Drop)]
pub struct Body<'a> {
    units: &'a [Placed<Unit>],
    head: usize,
    all: BTreeMap<Text, Local>,
    labels: BTreeMap<Text, Local>,
    values: BTreeMap<Text, Local>,
    entry: Option<Text>,
    sources: BTreeMap<Text, List<BlockMark>>,
}

impl<'a> Model for Body<'a> {
    ghost use Rattle.std.specs.Coded.{codes};
    ghost use Rattle.std.specs.Prelude.{◌≡◌};
    ghost use Rattle.ir_values.specs.contracts.types.Ty as ty;
    ghost use Rattle.ir_values.specs.contracts.constants.Const as constant;
    ghost use Rattle.ir_values.specs.contracts.constants.Operand as operand;
    ghost use Rattle.ir_values.specs.contracts.units.MetaItem as item;
    ghost use Rattle.check_bodies.specs.Scope.{Scope};

    ghost Value = { Scope };

    ghost coded = { Prim.hlevel (codes, ty.the_row.coded, constant.the_row.coded, operand.the_row.coded, item.the_row.coded) };

    ghost view = { λ body. record { units = body.units.now; head = body.head } };

    ghost use Rattle.check_bodies.specs.declared.names.Asked.TheVariants.{Either, Labels, Values};
    ghost use Rattle.check_bodies.specs.Names.{names_of, entry_label};
    ghost use Rattle.check_bodies.specs.Blocks.{edges_of};
    ghost use Rattle.check_bodies.specs.Index.{FindsFirst};
    ghost use Rattle.check_bodies.specs.Sources.{FindsSources};

    // the maps find the first of each name, and the sources of each label
    ghost invariant = { λ body. FindsFirst Either (names_of body.units.now body.head) body.all
        × FindsFirst Labels (names_of body.units.now body.head) body.labels
        × FindsFirst Values (names_of body.units.now body.head) body.values
        × (body.entry ≡ entry_label (names_of body.units.now body.head))
        × FindsSources (edges_of body.units.now body.head) body.sources };
}

impl<'a> Body<'a> {
    /// The function whose head stands at a place.
    pub fn new(alloc: Global, units: &'a [Placed<Unit>], head: usize) -> Result<Body<'a>, Memory>
        requires { head < length units.now }
        ensures { IfOk result (λ body. body ≡ record { units = units.now; head = head }) }
    {
        let names = names_of(alloc, units, head)?;
        let edges = edges_of(alloc, units, head)?;
        let all = first_locals(alloc, Asked::Either, names.items())?;
        let labels = first_locals(alloc, Asked::Labels, names.items())?;
        let values = first_locals(alloc, Asked::Values, names.items())?;
        let entry = entry_label(alloc, names.items())?;
        let sources = sources_by_label(alloc, edges.items())?;
        Ok(Body {
            units,
            head,
            all,
            labels,
            values,
            entry,
            sources,
        })
    }

    /// The units of the file, in the order of the text.
    pub fn units(&self) -> &'a [Placed<Unit>]
        ensures { result.now ≡ self.now.units }
    {
        self.units
    }

    /// Where the function's head stands among the units.
    pub fn head(&self) -> usize
        ensures { result ≡ self.now.head }
    {
        self.head
    }

    /// What a name stands for: of two of one name the first.
    pub fn first_local(&self, asked: Asked, name: &Text) -> Option<Local>
        ensures { result ≡ names.first_local asked name.now (names.names_of self.now.units self.now.head) }
    {
        match asked {
            Asked::Either => self.all.get(name).copied(),
            Asked::Labels => self.labels.get(name).copied(),
            Asked::Values => self.values.get(name).copied(),
        }
    }

    /// Whether a form is a branch to the entry block.
    pub fn is_to_entry(&self, form: &Form) -> bool
        ensures { result ≡ spec.is_to_entry self.now.units self.now.head form.now }
    {
        match &self.entry {
            Some(label) => is_target(label, form),
            None => false,
        }
    }

    /// The blocks that go to a label, in the order of the text. One whose end names it twice stands once.
    pub fn sources(&self, label: &Text) -> &[BlockMark]
        ensures { result.now ≡ blocks.sources self.now.units self.now.head label.now }
    {
        marks_at(&self.sources, label)
    }

    /// The labels of the blocks from which a block is entered.
    pub fn predecessors(&self, alloc: Global, mark: BlockMark) -> Result<List<Text>, Memory>
        ensures { IfOk result (λ labels. labels ≡ blocks.predecessors self.now.units self.now.head mark) }
    {
        let label = block_label(alloc, self.units, mark)?;
        let marks = self.sources(&label);
        labels_of(alloc, self.units, marks)
    }

    /// Whether a form is a phi whose arms have other labels than the predecessors of its block.
    pub fn is_torn(&self, alloc: Global, at: usize, spot: Spot, form: &Form) -> Result<bool, Memory>
        ensures { IfOk result (λ answer. answer ≡ spec.is_torn self.now.units self.now.head at spot form.now) }
    {
        if !is_phi_form(form) {
            return Ok(false);
        }
        let labels = arm_labels(alloc, form)?;
        let others = self.predecessors(alloc, block_at(opened(at, spot)))?;
        let same = are_same_labels(alloc, labels.items(), others.items())?;
        Ok(!same)
    }
}

fn is_phi_form(form: &Form) -> bool
    ensures { result ≡ spec.is_phi_form form.now }
{
    match form {
        Form::PhiForm { .. } => true,
        _ => false,
    }
}
