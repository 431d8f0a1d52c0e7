ghost use Rattle.std.specs.Prelude.{◌≡◌, IfOk};
ghost use Rattle.check_types.specs.Named as spec;
ghost use Rattle.check_types.specs.Measures.{measure};

use crate::marks::{is_marked, marks_and_measures};
use crate::measures::{Measure, measure_of};
use check_names::Context;
use ir_values::Ty;
use ltt_base::{List, Memory};
use std::alloc::Global;
use std::marker::Model;

/// The units of a file as a `Context` knows them; which names of types end: replaced by their types, again and again,
/// they are gone at last; and how much the units' types take.
///
/// A look-up takes time that grows with the logarithm of the number of names.
#[derive(Drop)]
pub struct Types<'a> {
    context: Context<'a>,
    ending: List<bool>,
    measures: List<Option<Measure>>,
}

impl<'a> Model for Types<'a> {
    ghost use Rattle.std.specs.Coded.{codes};
    ghost use Rattle.ir_values.specs.contracts.types.Ty as ty;
    ghost use Rattle.ir_values.specs.contracts.constants.Const as constant;
    ghost use Rattle.ir_values.specs.contracts.constants.Operand as operand;
    ghost use Rattle.ir_values.specs.contracts.units.MetaItem as item;
    ghost use Rattle.check_names.specs.File.{File};

    ghost Value = { File };

    ghost coded = { Prim.hlevel (codes, ty.the_row.coded, constant.the_row.coded, operand.the_row.coded, item.the_row.coded) };

    ghost view = { λ types. types.context };

    ghost use Rattle.check_types.specs.Marks.{TellEnds, TellMeasures};

    // the marks tell which names end, and the measures how much they take
    ghost invariant = { λ types. TellEnds types.context.units types.ending × TellMeasures types.context.units types.measures };
}

impl<'a> Types<'a> {
    /// The types of a file.
    pub fn new(alloc: Global, context: Context<'a>) -> Result<Types<'a>, Memory>
        ensures { IfOk result (λ types. types ≡ context.entry) }
    {
        let (ending, measures) = marks_and_measures(alloc, &context)?;
        Ok(Types {
            context,
            ending,
            measures,
        })
    }

    /// The file's units, and what defines its names.
    pub fn context(&self) -> &Context<'a>
        ensures { result.now ≡ self.now }
    {
        &self.context
    }

    /// Whether a name holds itself, or leads to one that does.
    #[tactic(auto, unfolding(crate::specs::Named::is_endless))]
    pub fn is_endless(&self, name: &[u8]) -> bool
        ensures { result ≡ spec.is_endless self.now.units name.now }
    {
        !is_marked(&self.context, self.ending.items(), name)
    }

    /// How much a type takes with its names replaced. None: it, or a type in it, is past the limits.
    pub fn measure(&self, ty: &Ty) -> Option<Measure>
        ensures { result ≡ measure self.now.units ty.now }
    {
        measure_of(&self.context, self.measures.items(), ty)
    }
}
