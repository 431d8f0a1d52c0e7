ghost use Rattle.std.specs.Prelude.{◌≡◌, IfOk, drop};
ghost use Rattle.type_grammar.specs.Levels.{levels};
ghost use Rattle.type_grammar.specs.Reading.{reads};
ghost use Rattle.unit_grammar.specs.Readers.{read};
ghost use Rattle.unit_grammar.specs.Seeing.{Gives, tokens};
ghost use Rattle.instruction_grammar.specs.Branches as spec;

use crate::bare_operand::operand_at;
use crate::operands::{next_target, target, typed_value, value};
use ir_values::{BranchText, Const, EndText, Form, Operand, Ty, Width};
use ltt_base::{List, Text};
use std::alloc::Global;
use type_grammar::{at_type, read_constant, read_type, read_value_type};
use unit_grammar::{Input, Stop, mark, word};

#[tactic(auto, unfolding(crate::specs::Branches::jump))]
fn jump(alloc: Global, input: &Input<'_>, at: usize) -> Result<(BranchText, usize), Stop>
    ensures { Gives (tokens input.now) result (read (reads levels) spec.jump (drop at (tokens input.now))) }
{
    let (to, at) = target(alloc, input, at)?;
    Ok((BranchText::Br { to }, at))
}

#[tactic(auto, unfolding(crate::specs::Branches::two_targets))]
fn two_targets(alloc: Global, input: &Input<'_>, at: usize) -> Result<((Text, Text), usize), Stop>
    ensures { Gives (tokens input.now) result (read (reads levels) spec.two_targets (drop at (tokens input.now))) }
{
    let (yes, at) = next_target(alloc, input, at)?;
    let (no, at) = next_target(alloc, input, at)?;
    Ok(((yes, no), at))
}

#[tactic(auto, unfolding(crate::specs::Branches::fork))]
fn fork(alloc: Global, input: &Input<'_>, at: usize) -> Result<(BranchText, usize), Stop>
    ensures { Gives (tokens input.now) result (read (reads levels) spec.fork (drop at (tokens input.now))) }
{
    let at = word(input, at, b"i1")?;
    let (bare, at) = value(alloc, input, at)?;
    let ((yes, no), at) = two_targets(alloc, input, at)?;
    let cond = operand_at(alloc, &Ty::Int(Width::W1), bare)?;
    Ok((BranchText::CondBr { cond, yes, no }, at))
}

#[tactic(auto, unfolding(crate::specs::Branches::branch_text))]
fn branch_text(alloc: Global, input: &Input<'_>, at: usize) -> Result<(BranchText, usize), Stop>
    ensures { Gives (tokens input.now) result (read (reads levels) spec.branch_text (drop at (tokens input.now))) }
{
    match jump(alloc, input, at) {
        Err(Stop::Absent) => {}
        found => return found,
    }
    fork(alloc, input, at)
}

/// `br label %L` and `br i1 V, label %L, label %L`.
#[tactic(auto, unfolding(crate::specs::Branches::branch))]
pub fn branch(alloc: Global, input: &Input<'_>, at: usize) -> Result<(Form, usize), Stop>
    ensures { Gives (tokens input.now) result (read (reads levels) spec.branch (drop at (tokens input.now))) }
{
    let at = word(input, at, b"br")?;
    let (text, at) = branch_text(alloc, input, at)?;
    Ok((Form::BranchForm { text }, at))
}

#[tactic(auto, unfolding(crate::specs::Branches::case_part))]
fn case_part(
    alloc: Global,
    input: &Input<'_>,
    at: usize,
) -> Result<((Ty, Const, Text), usize), Stop>
    ensures { Gives (tokens input.now) result (read (reads levels) spec.case_part (drop at (tokens input.now))) }
{
    let (ty, at) = read_type(alloc, input, at)?;
    let (bare, at) = read_constant(alloc, input, at)?;
    let (to, at) = next_target(alloc, input, at)?;
    let constant = at_type(alloc, &ty, bare)?;
    Ok(((ty, constant, to), at))
}

#[tactic(auto, unfolding(crate::specs::Branches::cases))]
fn cases(
    alloc: Global,
    input: &Input<'_>,
    at: usize,
) -> Result<(List<(Ty, Const, Text)>, usize), Stop>
    ensures { Gives (tokens input.now) result (read (reads levels) spec.cases (drop at (tokens input.now))) }
{
    let mut list = List::new(alloc);
    let mut at = at;
    for turn in 0..input.left(at) {
        match case_part(alloc, input, at) {
            Ok((item, behind)) => {
                list.add(item)?;
                at = behind;
            }
            Err(Stop::Absent) => return Ok((list, at)),
            Err(Stop::Deep) => return Err(Stop::Deep),
            Err(Stop::Memory) => return Err(Stop::Memory),
        }
    }
    Ok((list, at))
}

#[tactic(auto, unfolding(crate::specs::Branches::switch_targets))]
fn switch_targets(
    alloc: Global,
    input: &Input<'_>,
    at: usize,
) -> Result<((Text, List<(Ty, Const, Text)>), usize), Stop>
    ensures { Gives (tokens input.now) result (read (reads levels) spec.switch_targets (drop at (tokens input.now))) }
{
    let (other, at) = next_target(alloc, input, at)?;
    let at = mark(input, at, b"[")?;
    let (cases, at) = cases(alloc, input, at)?;
    let at = mark(input, at, b"]")?;
    Ok(((other, cases), at))
}

fn switch_of(typed: (Ty, Operand), targets: (Text, List<(Ty, Const, Text)>)) -> Form
    ensures { result ≡ spec.switch_of (typed, targets) }
{
    let (ty, value) = typed;
    let (other, cases) = targets;
    Form::BranchForm {
        text: BranchText::Switch {
            ty,
            value,
            other,
            cases,
        },
    }
}

/// `switch T V, label %L [ T C, label %L .. ]`.
#[tactic(auto, unfolding(crate::specs::Branches::switch))]
pub fn switch(alloc: Global, input: &Input<'_>, at: usize) -> Result<(Form, usize), Stop>
    ensures { Gives (tokens input.now) result (read (reads levels) spec.switch (drop at (tokens input.now))) }
{
    let at = word(input, at, b"switch")?;
    let (typed, at) = typed_value(alloc, input, at)?;
    let (targets, at) = switch_targets(alloc, input, at)?;
    Ok((switch_of(typed, targets), at))
}

#[tactic(auto, unfolding(crate::specs::Branches::void_return))]
fn void_return(alloc: Global, input: &Input<'_>, at: usize) -> Result<(EndText, usize), Stop>
    ensures { Gives (tokens input.now) result (read (reads levels) spec.void_return (drop at (tokens input.now))) }
{
    let at = word(input, at, b"void")?;
    match value(alloc, input, at) {
        Ok((bare, behind)) => {
            let value = operand_at(alloc, &Ty::Void, bare)?;
            Ok((
                EndText::Ret {
                    ty: Ty::Void,
                    value,
                },
                behind,
            ))
        }
        Err(Stop::Absent) => Ok((EndText::RetVoid, at)),
        Err(Stop::Deep) => Err(Stop::Deep),
        Err(Stop::Memory) => Err(Stop::Memory),
    }
}

#[tactic(auto, unfolding(crate::specs::Branches::value_return))]
fn value_return(alloc: Global, input: &Input<'_>, at: usize) -> Result<(EndText, usize), Stop>
    ensures { Gives (tokens input.now) result (read (reads levels) spec.value_return (drop at (tokens input.now))) }
{
    let (ty, at) = read_value_type(alloc, input, at)?;
    let (bare, at) = value(alloc, input, at)?;
    let value = operand_at(alloc, &ty, bare)?;
    Ok((EndText::Ret { ty, value }, at))
}

#[tactic(auto, unfolding(crate::specs::Branches::return_text))]
fn return_text(alloc: Global, input: &Input<'_>, at: usize) -> Result<(EndText, usize), Stop>
    ensures { Gives (tokens input.now) result (read (reads levels) spec.return_text (drop at (tokens input.now))) }
{
    match void_return(alloc, input, at) {
        Err(Stop::Absent) => {}
        found => return found,
    }
    value_return(alloc, input, at)
}

/// `ret void` and `ret T V`.
#[tactic(auto, unfolding(crate::specs::Branches::return_part))]
pub fn return_part(alloc: Global, input: &Input<'_>, at: usize) -> Result<(Form, usize), Stop>
    ensures { Gives (tokens input.now) result (read (reads levels) spec.return_part (drop at (tokens input.now))) }
{
    let at = word(input, at, b"ret")?;
    let (text, at) = return_text(alloc, input, at)?;
    Ok((Form::EndForm { text }, at))
}

/// `unreachable`.
#[tactic(auto, unfolding(crate::specs::Branches::unreachable))]
pub fn unreachable(input: &Input<'_>, at: usize) -> Result<(Form, usize), Stop>
    ensures { Gives (tokens input.now) result (read (reads levels) spec.unreachable (drop at (tokens input.now))) }
{
    let at = word(input, at, b"unreachable")?;
    Ok((
        Form::EndForm {
            text: EndText::Unreachable,
        },
        at,
    ))
}
