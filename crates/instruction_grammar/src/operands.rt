ghost use Rattle.std.specs.Prelude.{◌≡◌, IfOk, drop};
ghost use Rattle.type_grammar.specs.Levels.{levels};
ghost use Rattle.type_grammar.specs.Reading.{reads};
ghost use Rattle.unit_grammar.specs.Readers.{read};
ghost use Rattle.unit_grammar.specs.Seeing.{Gives, tokens};
ghost use Rattle.instruction_grammar.specs.Operands as spec;

use crate::bare_operand::{BareOperand, operand_at};
use ir_values::{Operand, Ty};
use ltt_base::{Memory, Text};
use std::alloc::Global;
use type_grammar::{read_constant, read_type};
use unit_grammar::{Input, Stop, local, mark, word};

#[tactic(auto, unfolding(crate::specs::Operands::register))]
fn register(alloc: Global, input: &Input<'_>, at: usize) -> Result<(BareOperand, usize), Stop>
    ensures { Gives (tokens input.now) result (read (reads levels) spec.register (drop at (tokens input.now))) }
{
    let (name, at) = local(alloc, input, at)?;
    Ok((BareOperand::Reg(name), at))
}

#[tactic(auto, unfolding(crate::specs::Operands::fixed))]
fn fixed(alloc: Global, input: &Input<'_>, at: usize) -> Result<(BareOperand, usize), Stop>
    ensures { Gives (tokens input.now) result (read (reads levels) spec.fixed (drop at (tokens input.now))) }
{
    let (bare, at) = read_constant(alloc, input, at)?;
    Ok((BareOperand::Const(bare), at))
}

/// `V`: a local or a constant.
#[tactic(auto, unfolding(crate::specs::Operands::value))]
pub fn value(alloc: Global, input: &Input<'_>, at: usize) -> Result<(BareOperand, usize), Stop>
    ensures { Gives (tokens input.now) result (read (reads levels) spec.value (drop at (tokens input.now))) }
{
    match register(alloc, input, at) {
        Err(Stop::Absent) => {}
        found => return found,
    }
    fixed(alloc, input, at)
}

/// `T V`.
#[tactic(auto, unfolding(crate::specs::Operands::typed_value))]
pub fn typed_value(
    alloc: Global,
    input: &Input<'_>,
    at: usize,
) -> Result<((Ty, Operand), usize), Stop>
    ensures { Gives (tokens input.now) result (read (reads levels) spec.typed_value (drop at (tokens input.now))) }
{
    let (ty, at) = read_type(alloc, input, at)?;
    let (bare, at) = value(alloc, input, at)?;
    let operand = operand_at(alloc, &ty, bare)?;
    Ok(((ty, operand), at))
}

#[tactic(auto, unfolding(crate::specs::Operands::next_value))]
fn next_value(alloc: Global, input: &Input<'_>, at: usize) -> Result<(BareOperand, usize), Stop>
    ensures { Gives (tokens input.now) result (read (reads levels) spec.next_value (drop at (tokens input.now))) }
{
    let at = mark(input, at, b",")?;
    value(alloc, input, at)
}

fn pair_at(
    alloc: Global,
    ty: Ty,
    a: BareOperand,
    b: BareOperand,
) -> Result<(Ty, (Operand, Operand)), Memory>
    ensures { IfOk result (λ pair. pair ≡ spec.pair_of (ty, (a, b))) }
{
    let a = operand_at(alloc, &ty, a)?;
    let b = operand_at(alloc, &ty, b)?;
    Ok((ty, (a, b)))
}

/// `T V, V`.
#[tactic(auto, unfolding(crate::specs::Operands::typed_pair))]
pub fn typed_pair(
    alloc: Global,
    input: &Input<'_>,
    at: usize,
) -> Result<((Ty, (Operand, Operand)), usize), Stop>
    ensures { Gives (tokens input.now) result (read (reads levels) spec.typed_pair (drop at (tokens input.now))) }
{
    let (ty, at) = read_type(alloc, input, at)?;
    let (a, at) = value(alloc, input, at)?;
    let (b, at) = next_value(alloc, input, at)?;
    Ok((pair_at(alloc, ty, a, b)?, at))
}

/// `, T V`.
#[tactic(auto, unfolding(crate::specs::Operands::next_typed_value))]
pub fn next_typed_value(
    alloc: Global,
    input: &Input<'_>,
    at: usize,
) -> Result<((Ty, Operand), usize), Stop>
    ensures { Gives (tokens input.now) result (read (reads levels) spec.next_typed_value (drop at (tokens input.now))) }
{
    let at = mark(input, at, b",")?;
    typed_value(alloc, input, at)
}

/// `ptr V`.
#[tactic(auto, unfolding(crate::specs::Operands::pointer))]
pub fn pointer(alloc: Global, input: &Input<'_>, at: usize) -> Result<(Operand, usize), Stop>
    ensures { Gives (tokens input.now) result (read (reads levels) spec.pointer (drop at (tokens input.now))) }
{
    let at = word(input, at, b"ptr")?;
    let (bare, at) = value(alloc, input, at)?;
    Ok((operand_at(alloc, &Ty::Ptr, bare)?, at))
}

/// `label %L`: the block's name.
#[tactic(auto, unfolding(crate::specs::Operands::target))]
pub fn target(alloc: Global, input: &Input<'_>, at: usize) -> Result<(Text, usize), Stop>
    ensures { Gives (tokens input.now) result (read (reads levels) spec.target (drop at (tokens input.now))) }
{
    let at = word(input, at, b"label")?;
    local(alloc, input, at)
}

/// `, label %L`: the block's name.
#[tactic(auto, unfolding(crate::specs::Operands::next_target))]
pub fn next_target(alloc: Global, input: &Input<'_>, at: usize) -> Result<(Text, usize), Stop>
    ensures { Gives (tokens input.now) result (read (reads levels) spec.next_target (drop at (tokens input.now))) }
{
    let at = mark(input, at, b",")?;
    target(alloc, input, at)
}
