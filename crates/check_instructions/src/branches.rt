// Instructions that end a block.
ghost use Rattle.std.specs.Prelude.{◌≡◌, IfOk};
ghost use Rattle.std.specs.Option.{option_copied};
ghost use Rattle.check_instructions.specs.Branches as spec;

use crate::cases::cases_flaw;
use check_bodies::Body;
use check_names::{Flaw, counts};
use check_operands::{Made, defined_head, label_flaw, operand_flaw, other_flaw, value_flaw};
use check_types::{Allowed, Types};
use ir_values::{BranchText, Const, EndText, Head, Operand, Ty};
use ltt_base::{Memory, Text};
use std::alloc::Global;

fn fork_flaw<'a>(
    alloc: Global,
    types: &Types<'a>,
    made: &'a Made,
    body: &Body<'a>,
    test: &'a Operand,
    one: &Text,
    other: &Text,
) -> Result<Option<Flaw>, Memory>
    requires { body.now.units ≡ types.now.units }
    ensures { IfOk result (λ flaw. flaw
        ≡ spec.fork_flaw types.now.output types.now.units body.now.head test.now one.now other.now) }
{
    let test = operand_flaw(alloc, types, made, body, false, made.bit(), test)?;
    let one = label_flaw(alloc, types, body, one)?;
    let other = label_flaw(alloc, types, body, other)?;
    Ok(counts(test, counts(one, other)))
}

fn switch_flaw<'a>(
    alloc: Global,
    types: &Types<'a>,
    made: &'a Made,
    body: &Body<'a>,
    ty: &'a Ty,
    value: &'a Operand,
    other: &Text,
    cases: &'a [(Ty, Const, Text)],
) -> Result<Option<Flaw>, Memory>
    requires { body.now.units ≡ types.now.units }
    ensures { IfOk result (λ flaw. flaw
        ≡ spec.switch_flaw types.now.output types.now.units body.now.head ty.now value.now other.now cases.now) }
{
    let value = value_flaw(alloc, types, made, body, false, Allowed::Integer, ty, value)?;
    let other = label_flaw(alloc, types, body, other)?;
    let cases = cases_flaw(alloc, types, body, ty, cases)?;
    Ok(counts(value, counts(other, cases)))
}

pub(crate) fn branch_flaw<'a>(
    alloc: Global,
    types: &Types<'a>,
    made: &'a Made,
    body: &Body<'a>,
    text: &'a BranchText,
) -> Result<Option<Flaw>, Memory>
    requires { body.now.units ≡ types.now.units }
    ensures { IfOk result (λ flaw. flaw
        ≡ spec.branch_flaw types.now.output types.now.units body.now.head text.now) }
{
    match text {
        BranchText::Br { to } => label_flaw(alloc, types, body, to),
        BranchText::CondBr { cond, yes, no } => {
            fork_flaw(alloc, types, made, body, cond, yes, no)
        }
        BranchText::Switch {
            ty,
            value,
            other,
            cases,
        } => switch_flaw(alloc, types, made, body, ty, value, other, cases.items()),
    }
}

fn returned_flaw<'a>(types: &Types<'a>, head: Option<&'a Head>, ty: &'a Ty) -> Option<Flaw>
    ensures { result ≡ spec.returned_flaw types.now.units (option_copied head.entry) ty.now }
{
    match head {
        Some(head) => other_flaw(types, false, ty, &head.result),
        None => None,
    }
}

fn ret_flaw<'a>(
    alloc: Global,
    types: &Types<'a>,
    made: &'a Made,
    body: &Body<'a>,
    ty: &'a Ty,
    value: &'a Operand,
) -> Result<Option<Flaw>, Memory>
    requires { body.now.units ≡ types.now.units }
    ensures { IfOk result (λ flaw. flaw
        ≡ spec.ret_flaw types.now.output types.now.units body.now.head ty.now value.now) }
{
    let value = value_flaw(alloc, types, made, body, false, Allowed::Scalar, ty, value)?;
    let returned = returned_flaw(types, defined_head(body), ty);
    Ok(counts(value, returned))
}

pub(crate) fn end_flaw<'a>(
    alloc: Global,
    types: &Types<'a>,
    made: &'a Made,
    body: &Body<'a>,
    text: &'a EndText,
) -> Result<Option<Flaw>, Memory>
    requires { body.now.units ≡ types.now.units }
    ensures { IfOk result (λ flaw. flaw
        ≡ spec.end_flaw types.now.output types.now.units body.now.head text.now) }
{
    match text {
        EndText::RetVoid => Ok(returned_flaw(types, defined_head(body), made.void())),
        EndText::Ret { ty, value } => ret_flaw(alloc, types, made, body, ty, value),
        EndText::Unreachable => Ok(None),
    }
}
