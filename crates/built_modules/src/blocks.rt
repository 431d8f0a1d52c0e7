// The blocks that the units of a body become.
ghost use Rattle.std.specs.Prelude.{◌≡◌, ◌++◌, [], ◌∷◌, ◌<◌, List, length, IfOk};
ghost use Rattle.check_bodies.specs.Blocks as marks;
ghost use Rattle.check_bodies.specs.Gathered.{of_function};
ghost use Rattle.built_modules.specs.Blocks as spec;
ghost use Rattle.built_modules.specs.Runs.{blocks_with};

use built_instructions::instruction_of;
use check_bodies::{BlockMark, Spot, Standing, after, block_at, block_label, opened};
use check_operands::Made;
use check_types::Types;
use ir_values::{Block, Form, Inst, Unit};
use ltt_base::{List, Memory, Placed};
use std::alloc::Global;

/// Blocks that are closed, and the mark and the instructions of the open one. Before the first instruction there are none.
#[derive(Drop)]
pub struct Run {
    pub blocks: List<Block>,
    pub mark: BlockMark,
    pub insts: List<Inst>,
}

fn is_same_mark(one: BlockMark, other: BlockMark) -> bool
    ensures { result ≡ marks.is_same_mark one other }
{
    one.start == other.start && one.number == other.number
}

fn first_run(alloc: Global, head: usize) -> Run
    ensures { result ≡ record { blocks = []; mark = record { start = head; number = 0 }; insts = [] } }
{
    Run {
        blocks: List::new(alloc),
        mark: BlockMark {
            start: head,
            number: 0,
        },
        insts: List::new(alloc),
    }
}

// The open block closes.
fn closed(alloc: Global, units: &[Placed<Unit>], run: Run) -> Result<List<Block>, Memory>
    ensures { IfOk result (λ blocks. blocks ≡ blocks_with units.now run []) }
{
    let Run {
        mut blocks,
        mark,
        insts,
    } = run;
    if insts.is_empty() {
        return Ok(blocks);
    }
    let label = block_label(alloc, units, mark)?;
    blocks.add(Block { label, insts })?;
    Ok(blocks)
}

fn continued(run: Run, inst: Inst) -> Result<Run, Memory>
    ensures { IfOk result (λ new. new
        ≡ record { blocks = run.blocks; mark = run.mark; insts = run.insts ++ inst ∷ [] }) }
{
    let Run {
        blocks,
        mark,
        mut insts,
    } = run;
    insts.add(inst)?;
    Ok(Run {
        blocks,
        mark,
        insts,
    })
}

fn begun(alloc: Global, blocks: List<Block>, mark: BlockMark, inst: Inst) -> Result<Run, Memory>
    ensures { IfOk result (λ new. new ≡ record { blocks = blocks; mark = mark; insts = inst ∷ [] }) }
{
    let mut insts = List::new(alloc);
    insts.add(inst)?;
    Ok(Run {
        blocks,
        mark,
        insts,
    })
}

// One more instruction: in the open block, or else in one of its own.
fn with_inst(
    alloc: Global,
    units: &[Placed<Unit>],
    run: Run,
    mark: BlockMark,
    inst: Inst,
) -> Result<Run, Memory>
    ensures { IfOk result (λ new. (pieces : List spec.Piece) → blocks_with units.now new pieces
        ≡ blocks_with units.now run (spec.piece mark inst ∷ pieces)) }
{
    if is_same_mark(run.mark, mark) {
        return continued(run, inst);
    }
    let blocks = closed(alloc, units, run)?;
    begun(alloc, blocks, mark, inst)
}

fn with_option(
    alloc: Global,
    units: &[Placed<Unit>],
    run: Run,
    mark: BlockMark,
    inst: Option<Inst>,
) -> Result<Run, Memory>
    ensures { IfOk result (λ new. (pieces : List spec.Piece) → blocks_with units.now new pieces
        ≡ blocks_with units.now run (spec.pieces_in mark inst ++ pieces)) }
{
    match inst {
        Some(inst) => with_inst(alloc, units, run, mark, inst),
        None => Ok(run),
    }
}

fn with_unit<'a>(
    alloc: Global,
    types: &Types<'a>,
    made: &'a Made,
    file: u32,
    units: &[Placed<Unit>],
    run: Run,
    at: usize,
    spot: Spot,
    form: &'a Form,
) -> Result<Run, Memory>
    ensures { IfOk result (λ new. (pieces : List spec.Piece) → blocks_with units.now new pieces
        ≡ blocks_with units.now run (spec.pieces_at types.now.output types.now.units file at spot form.now ++ pieces)) }
{
    let inst = instruction_of(alloc, types, made, file, at, spot, form)?;
    with_option(alloc, units, run, block_at(opened(at, spot)), inst)
}

fn blocks_in<'a>(
    alloc: Global,
    types: &Types<'a>,
    made: &'a Made,
    file: u32,
    units: &'a [Placed<Unit>],
    head: usize,
) -> Result<List<Block>, Memory>
    requires { head < length units.now }
    ensures { IfOk result (λ blocks. blocks ≡ spec.blocks_of units.now
        (of_function spec.no_piece (spec.pieces_at types.now.output types.now.units file) units.now head)) }
{
    let mut run = first_run(alloc, head);
    let form = &units[head].value.form;
    let mut standing = after(head, Standing::Outside, form);
    for at in head + 1..units.len() {
        let spot = match standing {
            Standing::Outside => return closed(alloc, units, run),
            Standing::Inside(spot) => spot,
        };
        let form = &units[at].value.form;
        run = with_unit(alloc, types, made, file, units, run, at, spot, form)?;
        standing = after(at, standing, form);
    }
    closed(alloc, units, run)
}

/// The blocks of the function whose head stands at a place, in the order of the text.
///
/// Source: LLVM Language Reference, "Functions".
#[tactic(auto, unfolding(crate::specs::Blocks::body_blocks))]
pub(crate) fn body_blocks<'a>(
    alloc: Global,
    types: &Types<'a>,
    made: &'a Made,
    file: u32,
    head: usize,
) -> Result<List<Block>, Memory>
    requires { head < length types.now.units }
    ensures { IfOk result (λ blocks. blocks ≡ spec.body_blocks types.now.output types.now.units file head) }
{
    blocks_in(alloc, types, made, file, types.context().units(), head)
}
