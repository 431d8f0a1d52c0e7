ghost use Rattle.std.specs.Prelude.{◌≡◌, drop, suc};
ghost use Rattle.type_grammar.specs.Levels.{IsAny, IsAt, OpensAt, levels};
ghost use Rattle.type_grammar.specs.Nodes.{AreItems, AreAnyItems, OpensItems};
ghost use Rattle.type_grammar.specs.Items.{own_items};
ghost use Rattle.type_grammar.specs.Names.{a_constant, a_type, a_value_type};
ghost use Rattle.type_grammar.specs.Reading.{reads};
ghost use Rattle.unit_grammar.specs.Answers.{Tells};
ghost use Rattle.unit_grammar.specs.Readers.{read};
ghost use Rattle.unit_grammar.specs.Seeing.{Gives, tokens};

use crate::bare::Bare;
use crate::constants::constant;
use crate::items::listed_items;
use crate::types::{ty, value_ty};
use ir_values::{MetaItem, Ty};
use ltt_base::List;
use std::alloc::Global;
use unit_grammar::{Input, Stop};

#[tactic(auto, unfolding(crate::specs::Levels::levels))]
fn levels() -> usize
    ensures { result ≡ levels }
{
    64
}

// those of a part of a node that stands for itself
#[tactic(auto, unfolding(crate::specs::Levels::levels))]
fn levels_of_parts() -> usize
    ensures { result ≡ suc levels }
{
    65
}

/// The type that begins at a place, and the place behind it: the longest text of one. It is of at most 64 levels.
///
/// Source: LLVM Language Reference, "Type System". Differs: what docs/language.md leaves out is kept as its text.
pub fn read_type(alloc: Global, input: &Input<'_>, at: usize) -> Result<(Ty, usize), Stop>
    ensures gives { Gives (tokens input.now) result (reads levels a_type (drop at (tokens input.now))) }
    ensures longest { Tells (IsAt levels a_type) (IsAny a_type) (OpensAt levels a_type) (tokens input.now) (drop at (tokens input.now)) result }
{
    ty(alloc, levels(), input, at)
}

/// The type that begins at a place and isn't `void`, and the place behind it: the longest text of one. It is of at most
/// 64 levels.
///
/// Source: LLVM Language Reference, "Type System". Differs: what docs/language.md leaves out is kept as its text.
pub fn read_value_type(alloc: Global, input: &Input<'_>, at: usize) -> Result<(Ty, usize), Stop>
    ensures gives { Gives (tokens input.now) result (reads levels a_value_type (drop at (tokens input.now))) }
    ensures longest { Tells (IsAt levels a_value_type) (IsAny a_value_type) (OpensAt levels a_value_type) (tokens input.now) (drop at (tokens input.now)) result }
{
    value_ty(alloc, levels(), input, at)
}

/// The constant that begins at a place, before its type is known, and the place behind it: the longest text of one.
/// It is of at most 64 levels.
///
/// Source: LLVM Language Reference, "Constants" and "Constant Expressions". Differs: what docs/language.md leaves out is
/// kept as its text.
pub fn read_constant(alloc: Global, input: &Input<'_>, at: usize) -> Result<(Bare, usize), Stop>
    ensures gives { Gives (tokens input.now) result (reads levels a_constant (drop at (tokens input.now))) }
    ensures longest { Tells (IsAt levels a_constant) (IsAny a_constant) (OpensAt levels a_constant) (tokens input.now) (drop at (tokens input.now)) result }
{
    constant(alloc, levels(), input, at)
}

/// The parts of a metadata node that stands for itself, with commas between them, as many as begin at a place; there may be
/// none. The types, the constants and the nodes in each are of at most 64 levels.
///
/// Source: LLVM Language Reference, "Metadata Nodes and Metadata Strings".
pub fn read_own_items(
    alloc: Global,
    input: &Input<'_>,
    at: usize,
) -> Result<(List<MetaItem>, usize), Stop>
    ensures gives { Gives (tokens input.now) result (read (reads levels) own_items (drop at (tokens input.now))) }
    ensures longest { Tells (AreItems levels) AreAnyItems (OpensItems levels) (tokens input.now) (drop at (tokens input.now)) result }
{
    listed_items(alloc, levels_of_parts(), input, at)
}
