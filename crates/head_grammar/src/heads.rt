ghost use Rattle.std.specs.Prelude.{◌≡◌, drop};
ghost use Rattle.head_grammar.specs.Heads as spec;
ghost use Rattle.head_grammar.specs.Texts.{IsAnyDeclare, IsAnyDefine, IsDeclare, IsDefine, OpensDeclare, OpensDefine};
ghost use Rattle.type_grammar.specs.Levels.{levels};
ghost use Rattle.type_grammar.specs.Reading.{reads};
ghost use Rattle.unit_grammar.specs.Answers.{Tells};
ghost use Rattle.unit_grammar.specs.Readers.{read};
ghost use Rattle.unit_grammar.specs.Seeing.{Gives, tokens};

use crate::begun::Begun;
use crate::extras::{all_attached, all_extras, put};
use crate::parameters::parameters;
use ir_values::{Attach, Form, Head};
use ltt_base::{List, Text};
use std::alloc::Global;
use type_grammar::read_type;
use unit_grammar::{Input, Stop, global, mark, word};
use word_grammar::{head_attachments, item_run, maybe_linkage};

#[tactic(auto, unfolding(crate::specs::Heads::begun))]
fn begun(
    alloc: Global,
    declared: bool,
    input: &Input<'_>,
    at: usize,
) -> Result<(Begun, usize), Stop>
    ensures { Gives (tokens input.now) result (read (reads levels) (spec.begun declared) (drop at (tokens input.now))) }
{
    let (linkage, at) = maybe_linkage(alloc, input, at)?;
    let at = item_run(input, at)?;
    let (result, at) = read_type(alloc, input, at)?;
    let (name, at) = global(alloc, input, at)?;
    let ((params, dots), at) = parameters(alloc, declared, input, at)?;
    Ok((
        Begun {
            linkage,
            result,
            name,
            params,
            dots,
        },
        at,
    ))
}

fn head_of(begun: Begun, left: List<Text>, attached: List<Attach>) -> Head
    ensures { result ≡ spec.head_of begun left attached }
{
    Head {
        name: begun.name,
        linkage: begun.linkage,
        result: begun.result,
        params: begun.params,
        dots: begun.dots,
        left,
        attached,
    }
}

#[tactic(auto, unfolding(crate::specs::Heads::declare_form))]
fn declare(alloc: Global, input: &Input<'_>, at: usize) -> Result<(Form, usize), Stop>
    ensures { Gives (tokens input.now) result (read (reads levels) spec.declare_form (drop at (tokens input.now))) }
{
    let at = word(input, at, b"declare")?;
    let (attached, at) = head_attachments(alloc, input, at)?;
    let (begun, at) = begun(alloc, true, input, at)?;
    let (left, at) = all_extras(alloc, input, at)?;
    let head = head_of(begun, left, attached);
    Ok((Form::DeclareForm { head }, at))
}

#[tactic(auto, unfolding(crate::specs::Heads::define_form))]
fn define(alloc: Global, input: &Input<'_>, at: usize) -> Result<(Form, usize), Stop>
    ensures { Gives (tokens input.now) result (read (reads levels) spec.define_form (drop at (tokens input.now))) }
{
    let at = word(input, at, b"define")?;
    let (begun, at) = begun(alloc, false, input, at)?;
    let (mut left, at) = put(alloc, input, at)?;
    let (all, at) = all_attached(alloc, input, at)?;
    let at = mark(input, at, b"{")?;
    left.append(all.left)?;
    let head = head_of(begun, left, all.attached);
    Ok((Form::DefineForm { head }, at))
}

/// The declaration that begins at a place, and the place behind it: the longest text of one.
///
/// Its attachments stand first. Words that change nothing are dropped; `personality`, `prefix`, `prologue` and `gc` are kept
/// by their words in `left`, and what they are given is read and dropped.
///
/// Source: LLVM Language Reference, "Functions". Differs: see docs/language.md.
pub fn read_declare(alloc: Global, input: &Input<'_>, at: usize) -> Result<(Form, usize), Stop>
    ensures gives { Gives (tokens input.now) result (read (reads levels) spec.declare_form (drop at (tokens input.now))) }
    ensures longest { Tells (IsDeclare levels) IsAnyDeclare (OpensDeclare levels) (tokens input.now) (drop at (tokens input.now)) result }
{
    declare(alloc, input, at)
}

/// The head of the definition that begins at a place, up to its `{`, and the place behind that: the longest text of one.
///
/// Its attachments stand last. What is kept in `left` is told at `read_declare`.
///
/// Source: LLVM Language Reference, "Functions". Differs: see docs/language.md.
pub fn read_define(alloc: Global, input: &Input<'_>, at: usize) -> Result<(Form, usize), Stop>
    ensures gives { Gives (tokens input.now) result (read (reads levels) spec.define_form (drop at (tokens input.now))) }
    ensures longest { Tells (IsDefine levels) IsAnyDefine (OpensDefine levels) (tokens input.now) (drop at (tokens input.now)) result }
{
    define(alloc, input, at)
}
