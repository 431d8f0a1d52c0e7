ghost use Rattle.std.specs.Prelude.{◌≡◌, ◌∷◌, IfOk, codes, drop, length, map};
ghost use Rattle.type_grammar.specs.Levels.{levels};
ghost use Rattle.type_grammar.specs.Names.{a_type};
ghost use Rattle.type_grammar.specs.Reading.{reads};
ghost use Rattle.unit_grammar.specs.Readers.{list_read, many_read, read, sign_read};
ghost use Rattle.unit_grammar.specs.Seeing.{Gives, Passes, tokens};
ghost use Rattle.unit_grammar.specs.Signs as sign;
ghost use Rattle.instruction_grammar.specs.Calls as spec;

use crate::bare_operand::{BareOperand, operand_at};
use crate::operands::value;
use ir_lex::Kind;
use ir_values::{Arg, Form, Ty};
use ltt_base::{List, Memory};
use std::alloc::Global;
use type_grammar::read_type;
use unit_grammar::{
    Input, Stop, enclosed, mark, node, of_kind, one, pass_kind, pass_word, unquoted, without_first,
    word,
};
use word_grammar::{call_run, function_run, parameter_run};

#[tactic(auto, unfolding(crate::specs::Calls::tail_words))]
fn tail_words() -> &'static [&'static str]
    ensures { map (λ text. text.now) result.now ≡ spec.tail_words }
{
    &["tail", "notail"]
}

#[tactic(auto, unfolding(crate::specs::Calls::tail_sign))]
fn tail_sign(input: &Input<'_>, at: usize) -> Result<usize, Stop>
    ensures { Passes (tokens input.now) result (read (reads levels) spec.tail_sign (drop at (tokens input.now))) }
{
    match pass_word(input, at, tail_words()) {
        Ok(behind) => Ok(behind),
        Err(Stop::Absent) => Ok(at),
        Err(Stop::Deep) => Err(Stop::Deep),
        Err(Stop::Memory) => Err(Stop::Memory),
    }
}

#[tactic(auto, unfolding(crate::specs::Calls::call_sign))]
fn call_sign(input: &Input<'_>, at: usize) -> Result<usize, Stop>
    ensures { Passes (tokens input.now) result (read (reads levels) spec.call_sign (drop at (tokens input.now))) }
{
    let at = tail_sign(input, at)?;
    let at = word(input, at, b"call")?;
    Ok(at)
}

#[tactic(auto, unfolding(crate::specs::Calls::dots))]
fn dots(input: &Input<'_>, at: usize) -> Result<usize, Stop>
    ensures { Passes (tokens input.now) result (read (reads levels) spec.dots (drop at (tokens input.now))) }
{
    pass_kind(input, at, Kind::Dots)
}

fn next_dots(input: &Input<'_>, at: usize) -> Result<usize, Stop>
    ensures { Passes (tokens input.now) result (sign_read (sign.mark (codes ",")) (read (reads levels) spec.dots) (drop at (tokens input.now))) }
{
    let at = mark(input, at, b",")?;
    dots(input, at)
}

fn next_type(alloc: Global, input: &Input<'_>, at: usize) -> Result<(Ty, usize), Stop>
    ensures { Gives (tokens input.now) result (sign_read (sign.mark (codes ",")) (reads levels a_type) (drop at (tokens input.now))) }
{
    let at = mark(input, at, b",")?;
    read_type(alloc, input, at)
}

#[tactic(auto, unfolding(crate::specs::Calls::more_types))]
fn more_types(alloc: Global, input: &Input<'_>, at: usize) -> Result<(List<Ty>, usize), Stop>
    ensures { Gives (tokens input.now) result (read (reads levels) spec.more_types (drop at (tokens input.now))) }
{
    let mut list = List::new(alloc);
    let mut at = at;
    for turn in 0..input.left(at) {
        match next_type(alloc, input, at) {
            Ok((item, behind)) => {
                list.add(item)?;
                at = behind;
            }
            Err(Stop::Absent) => return Ok((list, at)),
            Err(Stop::Deep) => return Err(Stop::Deep),
            Err(Stop::Memory) => return Err(Stop::Memory),
        }
    }
    Ok((list, at))
}

fn with_first(alloc: Global, first: Ty, others: List<Ty>) -> Result<List<Ty>, Memory>
    ensures { IfOk result (λ list. list ≡ first ∷ others) }
{
    let mut list = one(alloc, first)?;
    list.append(others)?;
    Ok(list)
}

#[tactic(auto, unfolding(crate::specs::Calls::last_dots))]
fn last_dots(input: &Input<'_>, at: usize) -> Result<(bool, usize), Stop>
    ensures { Gives (tokens input.now) result (read (reads levels) spec.last_dots (drop at (tokens input.now))) }
{
    match next_dots(input, at) {
        Ok(behind) => Ok((true, behind)),
        Err(Stop::Absent) => Ok((false, at)),
        Err(Stop::Deep) => Err(Stop::Deep),
        Err(Stop::Memory) => Err(Stop::Memory),
    }
}

#[tactic(auto, unfolding(crate::specs::Calls::some_types))]
fn some_types(
    alloc: Global,
    input: &Input<'_>,
    at: usize,
) -> Result<((List<Ty>, bool), usize), Stop>
    ensures { Gives (tokens input.now) result (read (reads levels) spec.some_types (drop at (tokens input.now))) }
{
    let (first, at) = read_type(alloc, input, at)?;
    let (others, at) = more_types(alloc, input, at)?;
    let (last, at) = last_dots(input, at)?;
    let types = with_first(alloc, first, others)?;
    Ok(((types, last), at))
}

#[tactic(auto, unfolding(crate::specs::Calls::dots_alone))]
fn dots_alone(
    alloc: Global,
    input: &Input<'_>,
    at: usize,
) -> Result<((List<Ty>, bool), usize), Stop>
    ensures { Gives (tokens input.now) result (read (reads levels) spec.dots_alone (drop at (tokens input.now))) }
{
    let at = dots(input, at)?;
    Ok(((List::new(alloc), true), at))
}

#[tactic(auto, unfolding(crate::specs::Calls::param_types))]
fn param_types(
    alloc: Global,
    input: &Input<'_>,
    at: usize,
) -> Result<((List<Ty>, bool), usize), Stop>
    ensures { Gives (tokens input.now) result (read (reads levels) spec.param_types (drop at (tokens input.now))) }
{
    match some_types(alloc, input, at) {
        Err(Stop::Absent) => {}
        found => return found,
    }
    dots_alone(alloc, input, at)
}

#[tactic(auto, unfolding(crate::specs::Calls::perhaps_types))]
fn perhaps_types(
    alloc: Global,
    input: &Input<'_>,
    at: usize,
) -> Result<((List<Ty>, bool), usize), Stop>
    ensures { Gives (tokens input.now) result (read (reads levels) spec.perhaps_types (drop at (tokens input.now))) }
{
    match param_types(alloc, input, at) {
        Ok(found) => Ok(found),
        Err(Stop::Absent) => Ok(((List::new(alloc), false), at)),
        Err(Stop::Deep) => Err(Stop::Deep),
        Err(Stop::Memory) => Err(Stop::Memory),
    }
}

#[tactic(auto, unfolding(crate::specs::Calls::written_params))]
fn written_params(
    alloc: Global,
    input: &Input<'_>,
    at: usize,
) -> Result<((List<Ty>, bool), usize), Stop>
    ensures { Gives (tokens input.now) result (read (reads levels) spec.written_params (drop at (tokens input.now))) }
{
    let at = mark(input, at, b"(")?;
    let (types, at) = perhaps_types(alloc, input, at)?;
    let at = mark(input, at, b")")?;
    Ok((types, at))
}

#[tactic(auto, unfolding(crate::specs::Calls::text_arg))]
fn text_arg(alloc: Global, input: &Input<'_>, at: usize) -> Result<(Arg, usize), Stop>
    ensures { Gives (tokens input.now) result (read (reads levels) spec.text_arg (drop at (tokens input.now))) }
{
    let (seen, at) = of_kind(input, at, Kind::MetaText)?;
    let text = unquoted(alloc, without_first(seen.bytes))?;
    Ok((Arg::Word(text), at))
}

#[tactic(auto, unfolding(crate::specs::Calls::node_arg))]
fn node_arg(alloc: Global, input: &Input<'_>, at: usize) -> Result<(Arg, usize), Stop>
    ensures { Gives (tokens input.now) result (read (reads levels) spec.node_arg (drop at (tokens input.now))) }
{
    let (digits, at) = node(alloc, input, at)?;
    Ok((Arg::Node(digits), at))
}

#[tactic(auto, unfolding(crate::specs::Calls::meta_arg))]
fn meta_arg(alloc: Global, input: &Input<'_>, at: usize) -> Result<(Arg, usize), Stop>
    ensures { Gives (tokens input.now) result (read (reads levels) spec.meta_arg (drop at (tokens input.now))) }
{
    match text_arg(alloc, input, at) {
        Err(Stop::Absent) => {}
        found => return found,
    }
    node_arg(alloc, input, at)
}

#[tactic(auto, unfolding(crate::specs::Calls::written_meta_arg))]
fn written_meta_arg(alloc: Global, input: &Input<'_>, at: usize) -> Result<(Arg, usize), Stop>
    ensures { Gives (tokens input.now) result (read (reads levels) spec.written_meta_arg (drop at (tokens input.now))) }
{
    let at = word(input, at, b"metadata")?;
    meta_arg(alloc, input, at)
}

#[tactic(auto, unfolding(crate::specs::Calls::value_arg))]
fn value_arg(alloc: Global, input: &Input<'_>, at: usize) -> Result<(Arg, usize), Stop>
    ensures { Gives (tokens input.now) result (read (reads levels) spec.value_arg (drop at (tokens input.now))) }
{
    let (ty, at) = read_type(alloc, input, at)?;
    let (left, at) = parameter_run(alloc, input, at)?;
    let (bare, at) = value(alloc, input, at)?;
    let value = operand_at(alloc, &ty, bare)?;
    Ok((Arg::Value { ty, left, value }, at))
}

#[tactic(auto, unfolding(crate::specs::Calls::argument))]
fn argument(alloc: Global, input: &Input<'_>, at: usize) -> Result<(Arg, usize), Stop>
    ensures { Gives (tokens input.now) result (read (reads levels) spec.argument (drop at (tokens input.now))) }
{
    match written_meta_arg(alloc, input, at) {
        Err(Stop::Absent) => {}
        found => return found,
    }
    value_arg(alloc, input, at)
}

fn next_argument(alloc: Global, input: &Input<'_>, at: usize) -> Result<(Arg, usize), Stop>
    ensures { Gives (tokens input.now) result (sign_read (sign.mark (codes ",")) (read (reads levels) spec.argument) (drop at (tokens input.now))) }
{
    let at = mark(input, at, b",")?;
    argument(alloc, input, at)
}

fn more_arguments(
    alloc: Global,
    input: &Input<'_>,
    at: usize,
    given: List<Arg>,
) -> Result<(List<Arg>, usize), Stop>
    ensures { Gives (tokens input.now) result
        (many_read (length (drop at (tokens input.now))) (sign_read (sign.mark (codes ",")) (read (reads levels) spec.argument)) given (drop at (tokens input.now))) }
{
    let mut list = given;
    let mut at = at;
    for turn in 0..input.left(at) {
        match next_argument(alloc, input, at) {
            Ok((item, behind)) => {
                list.add(item)?;
                at = behind;
            }
            Err(Stop::Absent) => return Ok((list, at)),
            Err(Stop::Deep) => return Err(Stop::Deep),
            Err(Stop::Memory) => return Err(Stop::Memory),
        }
    }
    Ok((list, at))
}

fn listed_arguments(alloc: Global, input: &Input<'_>, at: usize) -> Result<(List<Arg>, usize), Stop>
    ensures { Gives (tokens input.now) result (list_read (sign.mark (codes ",")) (read (reads levels) spec.argument) (drop at (tokens input.now))) }
{
    match argument(alloc, input, at) {
        Ok((first, behind)) => {
            let list = one(alloc, first)?;
            more_arguments(alloc, input, behind, list)
        }
        Err(Stop::Absent) => Ok((List::new(alloc), at)),
        Err(Stop::Deep) => Err(Stop::Deep),
        Err(Stop::Memory) => Err(Stop::Memory),
    }
}

fn argument_list(alloc: Global, input: &Input<'_>, at: usize) -> Result<(List<Arg>, usize), Stop>
    ensures { Gives (tokens input.now) result (read (reads levels) spec.argument_list (drop at (tokens input.now))) }
{
    listed_arguments(alloc, input, at)
}

#[tactic(auto, unfolding(crate::specs::Calls::arguments))]
fn arguments(alloc: Global, input: &Input<'_>, at: usize) -> Result<(List<Arg>, usize), Stop>
    ensures { Gives (tokens input.now) result (read (reads levels) spec.arguments (drop at (tokens input.now))) }
{
    let at = mark(input, at, b"(")?;
    let (list, at) = argument_list(alloc, input, at)?;
    let at = mark(input, at, b")")?;
    Ok((list, at))
}

#[tactic(auto, unfolding(crate::specs::Calls::bundle))]
fn bundle(input: &Input<'_>, at: usize) -> Result<usize, Stop>
    ensures { Passes (tokens input.now) result (read (reads levels) spec.bundle (drop at (tokens input.now))) }
{
    let at = enclosed(input, at, b"[", b"]")?;
    let at = function_run(input, at)?;
    Ok(at)
}

/// The words behind the arguments, and whether a bundle stands among them.
#[tactic(auto, unfolding(crate::specs::Calls::call_end))]
fn call_end(input: &Input<'_>, at: usize) -> Result<(bool, usize), Stop>
    ensures { Gives (tokens input.now) result (read (reads levels) spec.call_end (drop at (tokens input.now))) }
{
    let at = function_run(input, at)?;
    match bundle(input, at) {
        Ok(last) => Ok((true, last)),
        Err(Stop::Absent) => Ok((false, at)),
        Err(Stop::Deep) => Err(Stop::Deep),
        Err(Stop::Memory) => Err(Stop::Memory),
    }
}

#[tactic(auto, unfolding(crate::specs::Calls::perhaps_params))]
fn perhaps_params(
    alloc: Global,
    input: &Input<'_>,
    at: usize,
) -> Result<(Option<(List<Ty>, bool)>, usize), Stop>
    ensures { Gives (tokens input.now) result (read (reads levels) spec.perhaps_params (drop at (tokens input.now))) }
{
    match written_params(alloc, input, at) {
        Ok((types, behind)) => Ok((Some(types), behind)),
        Err(Stop::Absent) => Ok((None, at)),
        Err(Stop::Deep) => Err(Stop::Deep),
        Err(Stop::Memory) => Err(Stop::Memory),
    }
}

#[tactic(auto, unfolding(crate::specs::Calls::call_type))]
fn call_type(
    alloc: Global,
    input: &Input<'_>,
    at: usize,
) -> Result<((Ty, Option<(List<Ty>, bool)>), usize), Stop>
    ensures { Gives (tokens input.now) result (read (reads levels) spec.call_type (drop at (tokens input.now))) }
{
    let at = call_run(input, at)?;
    let (result, at) = read_type(alloc, input, at)?;
    let (params, at) = perhaps_params(alloc, input, at)?;
    Ok(((result, params), at))
}

fn call_with(
    alloc: Global,
    ty: Ty,
    params: Option<(List<Ty>, bool)>,
    callee: BareOperand,
    args: List<Arg>,
    bundle: bool,
) -> Result<Form, Memory>
    ensures { IfOk result (λ form. form ≡ spec.call_with ty params callee args bundle) }
{
    let callee = operand_at(alloc, &Ty::Ptr, callee)?;
    match params {
        None => Ok(Form::CallForm {
            dst: None,
            result: ty,
            whole: None,
            dots: false,
            callee,
            args,
            bundle,
        }),
        Some((types, dots)) => Ok(Form::CallForm {
            dst: None,
            result: ty,
            whole: Some(types),
            dots,
            callee,
            args,
            bundle,
        }),
    }
}

/// `[tail|notail] call W T V(T W V, ..) W`, where T may be written `T (T, ..)`.
#[tactic(auto, unfolding(crate::specs::Calls::call))]
pub fn call(alloc: Global, input: &Input<'_>, at: usize) -> Result<(Form, usize), Stop>
    ensures { Gives (tokens input.now) result (read (reads levels) spec.call (drop at (tokens input.now))) }
{
    let at = call_sign(input, at)?;
    let ((ty, params), at) = call_type(alloc, input, at)?;
    let (callee, at) = value(alloc, input, at)?;
    let (args, at) = arguments(alloc, input, at)?;
    let (bundle, at) = call_end(input, at)?;
    Ok((call_with(alloc, ty, params, callee, args, bundle)?, at))
}
