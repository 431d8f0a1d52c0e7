// The arguments of calls.
ghost use Rattle.std.specs.Prelude.{◌≡◌, map, IfOk};
ghost use Rattle.std.specs.Option.{option_copied};
ghost use Rattle.ir_values.specs.declared.constants.Const.{out-Const};
ghost use Rattle.check_names.specs.Flaws.{each};
ghost use Rattle.check_calls.specs.Arguments as spec;

use check_bodies::Body;
use check_constants::Intrinsic;
use check_names::{Context, Flaw, Space, counts, use_flaw, when, worded_when};
use check_operands::{Made, operand_flaw, operand_kept};
use check_types::{Allowed, Types, type_flaw};
use ir_values::{Arg, Const, Form, Operand, Ty, Unit};
use ltt_base::{Code, Memory, Placed, Text};
use std::alloc::Global;

/// What an argument is to the function that is called: the identifier of a type test or a checked load, the offset of a checked load, the
/// code of a trap, or none of these.
#[derive(Clone, Copy)]
pub enum Role {
    Plain,
    Identifier,
    Offset,
    TrapCode,
}

/// What the argument at a place is to an intrinsic.
///
/// Source: LLVM Language Reference, "'llvm.type.test' Intrinsic", "'llvm.type.checked.load' Intrinsic" and "'llvm.ubsantrap' Intrinsic".
pub fn role_of(intrinsic: Option<Intrinsic>, at: usize) -> Role
    ensures { result ≡ spec.role_of intrinsic at }
{
    match intrinsic {
        Some(Intrinsic::Test) => {
            if at == 1 {
                Role::Identifier
            } else {
                Role::Plain
            }
        }
        Some(Intrinsic::CheckedLoad) => {
            if at == 2 {
                Role::Identifier
            } else if at == 1 {
                Role::Offset
            } else {
                Role::Plain
            }
        }
        Some(Intrinsic::CodedTrap) => { if at == 0 { Role::TrapCode } else { Role::Plain } }
        _ => Role::Plain,
    }
}

fn is_identifier(role: Role) -> bool
    ensures { result ≡ spec.is_identifier role }
{
    match role {
        Role::Identifier => true,
        _ => false,
    }
}

fn is_number_layer(constant: &Const) -> bool
    ensures { result ≡ spec.is_number_layer (out-Const constant.now) }
{
    match constant {
        Const::Int(_, _) => true,
        _ => false,
    }
}

fn is_number(value: &Operand) -> bool
    ensures { result ≡ spec.is_number value.now }
{
    match value {
        Operand::Reg(_) => false,
        Operand::Const(constant) => is_number_layer(constant),
    }
}

fn no_number_flaw<'a>(
    alloc: Global,
    types: &Types<'a>,
    word: &[u8],
    ty: &'a Ty,
    value: &'a Operand,
) -> Result<Option<Flaw>, Memory>
    ensures { IfOk result (λ flaw. flaw ≡ spec.no_number_flaw types.now.units word.now ty.now value.now) }
{
    let kept = operand_kept(alloc, types, ty, value)?;
    worded_when(alloc, !is_number(&kept), Code::E07, word)
}

fn role_flaw<'a>(
    alloc: Global,
    types: &Types<'a>,
    role: Role,
    ty: &'a Ty,
    value: &'a Operand,
) -> Result<Option<Flaw>, Memory>
    ensures { IfOk result (λ flaw. flaw ≡ spec.role_flaw types.now.units role ty.now value.now) }
{
    match role {
        Role::Offset => no_number_flaw(alloc, types, b"@llvm.type.checked.load", ty, value),
        Role::TrapCode => no_number_flaw(alloc, types, b"@llvm.ubsantrap", ty, value),
        _ => Ok(None),
    }
}

fn word_flaw(alloc: Global, word: &Text) -> Result<Option<Flaw>, Memory>
    ensures { IfOk result (λ flaw. flaw ≡ spec.word_flaw word.now) }
{
    worded_when(alloc, true, Code::E07, word.bytes())
}

fn each_word_flaw(alloc: Global, words: &[Text]) -> Result<Option<Flaw>, Memory>
    ensures { IfOk result (λ flaw. flaw ≡ each spec.word_flaw words.now) }
{
    let mut flaw = None;
    for at in (0..words.len()).rev() {
        flaw = counts(word_flaw(alloc, &words[at])?, flaw);
    }
    Ok(flaw)
}

fn typed_flaw<'a>(
    alloc: Global,
    types: &Types<'a>,
    made: &'a Made,
    body: &Body<'a>,
    quiet: bool,
    role: Role,
    ty: &'a Ty,
    left: &[Text],
    value: &'a Operand,
) -> Result<Option<Flaw>, Memory>
    requires { body.now.units ≡ types.now.units }
    ensures { IfOk result (λ flaw. flaw
        ≡ spec.typed_flaw types.now.output types.now.units quiet body.now.head role ty.now left.now value.now) }
{
    let written = type_flaw(alloc, types, quiet, Allowed::Scalar, ty)?;
    let words = each_word_flaw(alloc, left)?;
    let operand = operand_flaw(alloc, types, made, body, quiet, ty, value)?;
    let role = role_flaw(alloc, types, role, ty, value)?;
    Ok(counts(written, counts(words, counts(operand, role))))
}

fn is_distinct_form(form: &Form) -> bool
    ensures { result ≡ spec.is_distinct_form form.now }
{
    match form {
        Form::MetadataForm { distinct, .. } => *distinct,
        _ => false,
    }
}

fn is_distinct_unit(unit: Option<&Placed<Unit>>) -> bool
    ensures { result ≡ spec.is_distinct_unit (option_copied unit.entry) }
{
    match unit {
        Some(unit) => is_distinct_form(&unit.value.form),
        None => false,
    }
}

/// The flaws of a node that stands for an identifier: none of its number is defined, or it isn't distinct.
///
/// Source: LLVM Language Reference, "'llvm.type.test' Intrinsic". Differs: an identifier that is a node is distinct.
pub fn node_flaw(alloc: Global, context: &Context<'_>, name: &[u8]) -> Result<Option<Flaw>, Memory>
    ensures { IfOk result (λ flaw. flaw ≡ spec.node_flaw context.now.output context.now.units name.now) }
{
    let used = use_flaw(alloc, context, Space::Nodes, name)?;
    let distinct = is_distinct_unit(context.first_unit(Space::Nodes, name));
    Ok(counts(used, when(!distinct, Code::E08)))
}

fn metadata_flaw(quiet: bool, role: Role) -> Option<Flaw>
    ensures { result ≡ spec.metadata_flaw quiet role }
{
    when(!quiet && !is_identifier(role), Code::E06)
}

fn argument_flaw<'a>(
    alloc: Global,
    types: &Types<'a>,
    made: &'a Made,
    body: &Body<'a>,
    quiet: bool,
    role: Role,
    arg: &'a Arg,
) -> Result<Option<Flaw>, Memory>
    requires { body.now.units ≡ types.now.units }
    ensures { IfOk result (λ flaw. flaw
        ≡ spec.argument_flaw types.now.output types.now.units quiet body.now.head role arg.now) }
{
    match arg {
        Arg::Value { ty, left, value } => {
            typed_flaw(
                alloc,
                types,
                made,
                body,
                quiet,
                role,
                ty,
                left.items(),
                value,
            )
        }
        Arg::Word(_) => Ok(metadata_flaw(quiet, role)),
        Arg::Node(name) => {
            if is_identifier(role) {
                node_flaw(alloc, types.context(), name.bytes())
            } else {
                Ok(metadata_flaw(quiet, role))
            }
        }
    }
}

#[tactic(auto, unfolding(crate::specs::Arguments::arguments_from))]
pub(crate) fn arguments_flaw<'a>(
    alloc: Global,
    types: &Types<'a>,
    made: &'a Made,
    body: &Body<'a>,
    quiet: bool,
    intrinsic: Option<Intrinsic>,
    args: &'a [Arg],
) -> Result<Option<Flaw>, Memory>
    requires { body.now.units ≡ types.now.units }
    ensures { IfOk result (λ flaw. flaw
        ≡ spec.arguments_from types.now.output types.now.units quiet body.now.head intrinsic 0 args.now) }
{
    let mut flaw = None;
    for at in (0..args.len()).rev() {
        let role = role_of(intrinsic, at);
        flaw = counts(
            argument_flaw(alloc, types, made, body, quiet, role, &args[at])?,
            flaw,
        );
    }
    Ok(flaw)
}
