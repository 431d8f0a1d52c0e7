ghost use Rattle.std.specs.Prelude.{◌≡◌, drop};
ghost use Rattle.instruction_grammar.specs.Actions as spec;
ghost use Rattle.instruction_grammar.specs.Actions.{IsAction, IsAnyAction, IsAnyPlainAction, IsPlainAction, OpensAction, OpensPlainAction};
ghost use Rattle.type_grammar.specs.Levels.{levels};
ghost use Rattle.type_grammar.specs.Reading.{reads};
ghost use Rattle.unit_grammar.specs.Answers.{Tells};
ghost use Rattle.unit_grammar.specs.Readers.{read};
ghost use Rattle.unit_grammar.specs.Seeing.{Gives, tokens};

use crate::branches::{branch, return_part, switch, unreachable};
use crate::calls::call;
use crate::memory::{extract, load, store};
use crate::operations::{address, binary, cast, compare, select};
use crate::phis::phi;
use ir_values::Form;
use ltt_base::Text;
use std::alloc::Global;
use unit_grammar::{Input, Stop};
use word_grammar::dropped_attachments;

#[tactic(auto, unfolding(crate::specs::Actions::action_body))]
fn action_body(alloc: Global, input: &Input<'_>, at: usize) -> Result<(Form, usize), Stop>
    ensures { Gives (tokens input.now) result (read (reads levels) spec.action_body (drop at (tokens input.now))) }
{
    match call(alloc, input, at) {
        Err(Stop::Absent) => {}
        found => return found,
    }
    match load(alloc, input, at) {
        Err(Stop::Absent) => {}
        found => return found,
    }
    match address(alloc, input, at) {
        Err(Stop::Absent) => {}
        found => return found,
    }
    match select(alloc, input, at) {
        Err(Stop::Absent) => {}
        found => return found,
    }
    match cast(alloc, input, at) {
        Err(Stop::Absent) => {}
        found => return found,
    }
    match compare(alloc, input, at) {
        Err(Stop::Absent) => {}
        found => return found,
    }
    match extract(alloc, input, at) {
        Err(Stop::Absent) => {}
        found => return found,
    }
    match phi(alloc, input, at) {
        Err(Stop::Absent) => {}
        found => return found,
    }
    binary(alloc, input, at)
}

#[tactic(auto, unfolding(crate::specs::Actions::action))]
fn whole_action(alloc: Global, input: &Input<'_>, at: usize) -> Result<(Form, usize), Stop>
    ensures { Gives (tokens input.now) result (read (reads levels) spec.action (drop at (tokens input.now))) }
{
    let (form, at) = action_body(alloc, input, at)?;
    let at = dropped_attachments(input, at)?;
    Ok((form, at))
}

/// The instruction that begins at a place and may set a register, without the register's name: the longest text of one.
/// The form names no register.
///
/// Source: LLVM Language Reference, "Instruction Reference". Differs: what docs/language.md leaves out is no instruction.
pub fn action(alloc: Global, input: &Input<'_>, at: usize) -> Result<(Form, usize), Stop>
    ensures gives { Gives (tokens input.now) result (read (reads levels) spec.action (drop at (tokens input.now))) }
    ensures longest { Tells (IsAction levels) IsAnyAction (OpensAction levels) (tokens input.now) (drop at (tokens input.now)) result }
{
    whole_action(alloc, input, at)
}

#[tactic(auto, unfolding(crate::specs::Actions::plain_action_body))]
fn plain_action_body(alloc: Global, input: &Input<'_>, at: usize) -> Result<(Form, usize), Stop>
    ensures { Gives (tokens input.now) result (read (reads levels) spec.plain_action_body (drop at (tokens input.now))) }
{
    match store(alloc, input, at) {
        Err(Stop::Absent) => {}
        found => return found,
    }
    match branch(alloc, input, at) {
        Err(Stop::Absent) => {}
        found => return found,
    }
    match switch(alloc, input, at) {
        Err(Stop::Absent) => {}
        found => return found,
    }
    match return_part(alloc, input, at) {
        Err(Stop::Absent) => {}
        found => return found,
    }
    unreachable(input, at)
}

#[tactic(auto, unfolding(crate::specs::Actions::plain_action))]
fn whole_plain_action(alloc: Global, input: &Input<'_>, at: usize) -> Result<(Form, usize), Stop>
    ensures { Gives (tokens input.now) result (read (reads levels) spec.plain_action (drop at (tokens input.now))) }
{
    let (form, at) = plain_action_body(alloc, input, at)?;
    let at = dropped_attachments(input, at)?;
    Ok((form, at))
}

/// The instruction that begins at a place and sets no register: the longest text of one.
///
/// Source: LLVM Language Reference, "Instruction Reference". Differs: what docs/language.md leaves out is no instruction.
pub fn plain_action(alloc: Global, input: &Input<'_>, at: usize) -> Result<(Form, usize), Stop>
    ensures gives { Gives (tokens input.now) result (read (reads levels) spec.plain_action (drop at (tokens input.now))) }
    ensures longest { Tells (IsPlainAction levels) IsAnyPlainAction (OpensPlainAction levels) (tokens input.now) (drop at (tokens input.now)) result }
{
    whole_plain_action(alloc, input, at)
}

/// The instruction that sets the register of this name. A form that sets none stays as it is.
pub fn with_result(name: Text, form: Form) -> Form
    ensures { result ≡ spec.with_result name form }
{
    let dst = Some(name);
    match form {
        Form::BinaryForm { op, ty, a, b, .. } => Form::BinaryForm { dst, op, ty, a, b },
        Form::CompareForm { pred, ty, a, b, .. } => Form::CompareForm {
            dst,
            pred,
            ty,
            a,
            b,
        },
        Form::SelectForm {
            cond_ty,
            cond,
            ty,
            a,
            other_ty,
            b,
            ..
        } => Form::SelectForm {
            dst,
            cond_ty,
            cond,
            ty,
            a,
            other_ty,
            b,
        },
        Form::CastForm {
            op,
            from,
            a,
            to,
            ..
        } => Form::CastForm {
            dst,
            op,
            from,
            a,
            to,
        },
        Form::AddressForm {
            ty,
            base,
            index,
            ..
        } => Form::AddressForm {
            dst,
            ty,
            base,
            index,
        },
        Form::LoadForm { ty, addr, .. } => Form::LoadForm { dst, ty, addr },
        Form::CallForm {
            result,
            whole,
            dots,
            callee,
            args,
            bundle,
            ..
        } => Form::CallForm {
            dst,
            result,
            whole,
            dots,
            callee,
            args,
            bundle,
        },
        Form::ExtractForm { value, part, .. } => Form::ExtractForm { dst, value, part },
        Form::PhiForm { ty, arms, .. } => Form::PhiForm { dst, ty, arms },
        Form::NumberForm { value, .. } => Form::NumberForm { dst, value },
        other => other,
    }
}
