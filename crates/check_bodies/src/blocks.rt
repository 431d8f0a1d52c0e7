ghost use Rattle.std.specs.Prelude.{◌≡◌, ◌<◌, ◌++◌, [], ◌∷◌, length, map, IfOk, OnOk};
ghost use Rattle.std.specs.Option.{option_copied};
ghost use Rattle.std.specs.Str.{bytes_eq};
ghost use Rattle.check_bodies.specs.Blocks as spec;
ghost use Rattle.check_bodies.specs.Index.{find};

use crate::numbers::name_or;
use crate::standing::{Spot, Standing, after, opened};
use ir_values::{BranchText, Const, Form, Operand, Ty, Unit};
use ltt_base::{List, Memory, Placed, Text};
use std::alloc::Global;
use std::collections::BTreeMap;

/// A block of a body: the place of the unit that begins it, and the number that is its label where none is written.
#[derive(Clone, Copy)]
pub struct BlockMark {
    pub start: usize,
    pub number: u64,
}

/// That a block's end names a label.
#[derive(Drop)]
pub struct Edge {
    pub from: BlockMark,
    pub to: Text,
}

fn written_label(form: &Form) -> Option<&Text>
    ensures { option_copied result ≡ spec.written_label form.now }
{
    match form {
        Form::LabelForm { name } => Some(name),
        _ => None,
    }
}

/// The label of a block, as its bytes or as the digits of its number.
///
/// Source: LLVM Language Reference, "Functions".
pub fn block_label(alloc: Global, units: &[Placed<Unit>], mark: BlockMark) -> Result<Text, Memory>
    ensures { IfOk result (λ label. label ≡ spec.block_label units.now mark) }
{
    match units.get(mark.start) {
        Some(unit) => name_or(alloc, mark.number, written_label(&unit.value.form)),
        None => name_or(alloc, mark.number, None),
    }
}

/// The block in which a spot is.
pub fn block_at(spot: Spot) -> BlockMark
    ensures { result ≡ spec.block_at spot }
{
    BlockMark {
        start: spot.start,
        number: spot.number,
    }
}

fn add_edge(alloc: Global, edges: &mut List<Edge>, from: BlockMark, to: &Text) -> Result<(), Memory>
    ensures { OnOk result (edges.new ≡ edges.old ++ record { from = from; to = to.now } ∷ []) }
{
    let to = Text::copy(alloc, to.bytes())?;
    edges.add(Edge { from, to })
}

fn add_cases(
    alloc: Global,
    edges: &mut List<Edge>,
    from: BlockMark,
    cases: &[(Ty, Const, Text)],
) -> Result<(), Memory>
    ensures { OnOk result (edges.new ≡ edges.old ++ spec.edges_to from (map (λ c. c.2) cases.now)) }
{
    for case in cases {
        add_edge(alloc, edges, from, &case.2)?;
    }
    Ok(())
}

fn add_branch(
    alloc: Global,
    edges: &mut List<Edge>,
    from: BlockMark,
    text: &BranchText,
) -> Result<(), Memory>
    ensures { OnOk result (edges.new ≡ edges.old ++ spec.edges_to from (spec.branch_targets text.now)) }
{
    match text {
        BranchText::Br { to } => add_edge(alloc, edges, from, to),
        BranchText::CondBr { yes, no, .. } => {
            add_edge(alloc, edges, from, yes)?;
            add_edge(alloc, edges, from, no)
        }
        BranchText::Switch { other, cases, .. } => {
            add_edge(alloc, edges, from, other)?;
            add_cases(alloc, edges, from, cases.items())
        }
    }
}

fn add_edges(
    alloc: Global,
    edges: &mut List<Edge>,
    from: BlockMark,
    form: &Form,
) -> Result<(), Memory>
    ensures { OnOk result (edges.new ≡ edges.old ++ spec.edges_to from (spec.targets form.now)) }
{
    match form {
        Form::BranchForm { text } => add_branch(alloc, edges, from, text),
        _ => Ok(()),
    }
}

fn add_edges_at(
    alloc: Global,
    edges: &mut List<Edge>,
    at: usize,
    spot: Spot,
    form: &Form,
) -> Result<(), Memory>
    ensures { OnOk result (edges.new ≡ edges.old ++ spec.edges_at at spot form.now) }
{
    add_edges(alloc, edges, block_at(opened(at, spot)), form)
}

/// The edges between the blocks of the function whose head stands at a place, in the order of the text.
pub fn edges_of(alloc: Global, units: &[Placed<Unit>], head: usize) -> Result<List<Edge>, Memory>
    requires { head < length units.now }
    ensures { IfOk result (λ edges. edges ≡ spec.edges_of units.now head) }
{
    let mut edges = List::new(alloc);
    let mut standing = after(head, Standing::Outside, &units[head].value.form);
    for at in head + 1..units.len() {
        let spot = match standing {
            Standing::Outside => return Ok(edges),
            Standing::Inside(spot) => spot,
        };
        let form = &units[at].value.form;
        add_edges_at(alloc, &mut edges, at, spot, form)?;
        standing = after(at, standing, form);
    }
    Ok(edges)
}
