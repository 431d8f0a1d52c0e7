ghost use Rattle.std.specs.Prelude.{codes, drop, length};
ghost use Rattle.type_grammar.specs.Levels.{levels};
ghost use Rattle.type_grammar.specs.Reading.{reads};
ghost use Rattle.unit_grammar.specs.Readers.{many_read, read, sign_read};
ghost use Rattle.unit_grammar.specs.Seeing.{Gives, tokens};
ghost use Rattle.unit_grammar.specs.Signs as sign;
ghost use Rattle.instruction_grammar.specs.Memory as spec;
ghost use Rattle.instruction_grammar.specs.Reading.{arms_read, phi_read};

use crate::bare_operand::{BareOperand, operand_at};
use crate::operands::value;
use ir_values::{Form, Operand, Ty};
use ltt_base::{List, Text};
use std::alloc::Global;
use type_grammar::read_type;
use unit_grammar::{Input, Stop, local, mark, one, word};

#[tactic(auto, unfolding(crate::specs::Memory::arm_end))]
fn arm_end(alloc: Global, input: &Input<'_>, at: usize) -> Result<(Text, usize), Stop>
    ensures { Gives (tokens input.now) result (read (reads levels) spec.arm_end (drop at (tokens input.now))) }
{
    let at = mark(input, at, b",")?;
    let (from, at) = local(alloc, input, at)?;
    let at = mark(input, at, b"]")?;
    Ok((from, at))
}

#[tactic(auto, unfolding(crate::specs::Memory::arm))]
fn arm(alloc: Global, input: &Input<'_>, at: usize) -> Result<((BareOperand, Text), usize), Stop>
    ensures { Gives (tokens input.now) result (read (reads levels) spec.arm (drop at (tokens input.now))) }
{
    let at = mark(input, at, b"[")?;
    let (bare, at) = value(alloc, input, at)?;
    let (from, at) = arm_end(alloc, input, at)?;
    Ok(((bare, from), at))
}

/// One arm, its value judged at a type.
#[tactic(auto, unfolding(crate::specs::Memory::arm_of))]
fn arm_of(
    alloc: Global,
    ty: &Ty,
    input: &Input<'_>,
    at: usize,
) -> Result<((Operand, Text), usize), Stop>
    ensures { Gives (tokens input.now) result (read (reads levels) (spec.arm_of ty.now) (drop at (tokens input.now))) }
{
    let ((bare, from), at) = arm(alloc, input, at)?;
    let operand = operand_at(alloc, ty, bare)?;
    Ok(((operand, from), at))
}

fn next_arm(
    alloc: Global,
    ty: &Ty,
    input: &Input<'_>,
    at: usize,
) -> Result<((Operand, Text), usize), Stop>
    ensures { Gives (tokens input.now) result
        (sign_read (sign.mark (codes ",")) (read (reads levels) (spec.arm_of ty.now)) (drop at (tokens input.now))) }
{
    let at = mark(input, at, b",")?;
    arm_of(alloc, ty, input, at)
}

fn more_arms(
    alloc: Global,
    ty: &Ty,
    input: &Input<'_>,
    at: usize,
    given: List<(Operand, Text)>,
) -> Result<(List<(Operand, Text)>, usize), Stop>
    ensures { Gives (tokens input.now) result
        (many_read (length (drop at (tokens input.now))) (sign_read (sign.mark (codes ",")) (read (reads levels) (spec.arm_of ty.now))) given (drop at (tokens input.now))) }
{
    let mut list = given;
    let mut at = at;
    for turn in 0..input.left(at) {
        match next_arm(alloc, ty, input, at) {
            Ok((item, behind)) => {
                list.add(item)?;
                at = behind;
            }
            Err(Stop::Absent) => return Ok((list, at)),
            Err(Stop::Deep) => return Err(Stop::Deep),
            Err(Stop::Memory) => return Err(Stop::Memory),
        }
    }
    Ok((list, at))
}

#[tactic(auto, unfolding(crate::specs::Reading::arms_read))]
fn arms(
    alloc: Global,
    ty: &Ty,
    input: &Input<'_>,
    at: usize,
) -> Result<(List<(Operand, Text)>, usize), Stop>
    ensures { Gives (tokens input.now) result (arms_read ty.now (drop at (tokens input.now))) }
{
    let (first, at) = arm_of(alloc, ty, input, at)?;
    let given = one(alloc, first)?;
    more_arms(alloc, ty, input, at, given)
}

#[tactic(auto, unfolding(crate::specs::Reading::phi_read))]
fn phi_text(alloc: Global, input: &Input<'_>, at: usize) -> Result<(Form, usize), Stop>
    ensures { Gives (tokens input.now) result (phi_read (drop at (tokens input.now))) }
{
    let at = word(input, at, b"phi")?;
    let (ty, at) = read_type(alloc, input, at)?;
    let (arms, at) = arms(alloc, &ty, input, at)?;
    Ok((
        Form::PhiForm {
            dst: None,
            ty,
            arms,
        },
        at,
    ))
}

/// `phi T [ V, %L ], ..`, with at least one arm.
pub fn phi(alloc: Global, input: &Input<'_>, at: usize) -> Result<(Form, usize), Stop>
    ensures { Gives (tokens input.now) result (read (reads levels) spec.phi (drop at (tokens input.now))) }
{
    phi_text(alloc, input, at)
}
