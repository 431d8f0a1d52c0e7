// Instructions that compute a value, or load or store one.
ghost use Rattle.std.specs.Prelude.{◌≡◌, IfOk};
ghost use Rattle.ir_values.specs.declared.constants.Const.{out-Const};
ghost use Rattle.check_instructions.specs.Plain as spec;

use check_bodies::Body;
use check_constants::constant_flaw;
use check_names::{Flaw, counts, when, worded_when};
use check_operands::{Made, operand_flaw, other_flaw, register_flaw, value_flaw};
use check_types::{Allowed, Types, head, type_flaw};
use ir_numbers::bits;
use ir_values::{CastOp, Const, Operand, Pred, Ty, Width};
use kept_parts::width_of;
use ltt_base::{Code, Memory};
use std::alloc::Global;

pub(crate) fn both_flaw<'a>(
    alloc: Global,
    types: &Types<'a>,
    made: &'a Made,
    body: &Body<'a>,
    allowed: Allowed,
    ty: &'a Ty,
    a: &'a Operand,
    b: &'a Operand,
) -> Result<Option<Flaw>, Memory>
    requires { body.now.units ≡ types.now.units }
    ensures { IfOk result (λ flaw. flaw
        ≡ spec.both_flaw types.now.output types.now.units body.now.head allowed ty.now a.now b.now) }
{
    let one = value_flaw(alloc, types, made, body, false, allowed, ty, a)?;
    let other = operand_flaw(alloc, types, made, body, false, ty, b)?;
    Ok(counts(one, other))
}

/// The types that a comparison takes. Pointers are compared for equality alone.
pub(crate) fn compared(pred: Pred) -> Allowed
    ensures { result ≡ spec.compared pred }
{
    match pred {
        Pred::Eq => Allowed::Scalar,
        Pred::Ne => Allowed::Scalar,
        _ => Allowed::Integer,
    }
}

pub(crate) fn select_flaw<'a>(
    alloc: Global,
    types: &Types<'a>,
    made: &'a Made,
    body: &Body<'a>,
    test: (&'a Ty, &'a Operand),
    one: (&'a Ty, &'a Operand),
    other: (&'a Ty, &'a Operand),
) -> Result<Option<Flaw>, Memory>
    requires { body.now.units ≡ types.now.units }
    ensures { IfOk result (λ flaw. flaw
        ≡ spec.select_flaw types.now.output types.now.units body.now.head test.entry.0.now test.entry.1.now one.entry.0.now one.entry.1.now
        other.entry.0.now other.entry.1.now) }
{
    let tested = value_flaw(
        alloc,
        types,
        made,
        body,
        false,
        Allowed::Bit,
        test.0,
        test.1,
    )?;
    let first = value_flaw(
        alloc,
        types,
        made,
        body,
        false,
        Allowed::Scalar,
        one.0,
        one.1,
    )?;
    let second = value_flaw(
        alloc,
        types,
        made,
        body,
        false,
        Allowed::Scalar,
        other.0,
        other.1,
    )?;
    let unlike = other_flaw(types, false, other.0, one.0);
    Ok(counts(tested, counts(first, counts(second, unlike))))
}

fn is_cast(op: CastOp, from: Width, to: Width) -> bool
    ensures { result ≡ spec.is_cast op from to }
{
    match op {
        CastOp::Trunc => bits(to) < bits(from),
        _ => bits(from) < bits(to),
    }
}

fn is_miscast(op: CastOp, from: Option<Width>, to: Option<Width>) -> bool
    ensures { result ≡ spec.is_miscast op from to }
{
    match (from, to) {
        (Some(from), Some(to)) => !is_cast(op, from, to),
        _ => false,
    }
}

pub(crate) fn cast_flaw<'a>(
    alloc: Global,
    types: &Types<'a>,
    made: &'a Made,
    body: &Body<'a>,
    op: CastOp,
    from: &'a Ty,
    a: &'a Operand,
    to: &'a Ty,
) -> Result<Option<Flaw>, Memory>
    requires { body.now.units ≡ types.now.units }
    ensures { IfOk result (λ flaw. flaw
        ≡ spec.cast_flaw types.now.output types.now.units body.now.head op from.now a.now to.now) }
{
    let value = value_flaw(alloc, types, made, body, false, Allowed::Integer, from, a)?;
    let written = type_flaw(alloc, types, false, Allowed::Integer, to)?;
    let broken = is_miscast(op, width_of(head(types, from)), width_of(head(types, to)));
    Ok(counts(value, counts(written, when(broken, Code::E06))))
}

pub(crate) fn load_flaw<'a>(
    alloc: Global,
    types: &Types<'a>,
    made: &'a Made,
    body: &Body<'a>,
    ty: &'a Ty,
    addr: &'a Operand,
) -> Result<Option<Flaw>, Memory>
    requires { body.now.units ≡ types.now.units }
    ensures { IfOk result (λ flaw. flaw
        ≡ spec.load_flaw types.now.output types.now.units body.now.head ty.now addr.now) }
{
    let written = type_flaw(alloc, types, false, Allowed::Scalar, ty)?;
    let addr = operand_flaw(alloc, types, made, body, false, made.pointer(), addr)?;
    Ok(counts(written, addr))
}

pub(crate) fn store_flaw<'a>(
    alloc: Global,
    types: &Types<'a>,
    made: &'a Made,
    body: &Body<'a>,
    ty: &'a Ty,
    value: &'a Operand,
    addr: &'a Operand,
) -> Result<Option<Flaw>, Memory>
    requires { body.now.units ≡ types.now.units }
    ensures { IfOk result (λ flaw. flaw
        ≡ spec.store_flaw types.now.output types.now.units body.now.head ty.now value.now addr.now) }
{
    let value = value_flaw(alloc, types, made, body, false, Allowed::Scalar, ty, value)?;
    let addr = operand_flaw(alloc, types, made, body, false, made.pointer(), addr)?;
    Ok(counts(value, addr))
}

fn source_flaw(alloc: Global, types: &Types<'_>) -> Result<Option<Flaw>, Memory>
    ensures { IfOk result (λ flaw. flaw ≡ spec.source_flaw types.now.output) }
{
    let source = !types.context().is_output();
    worded_when(alloc, source, Code::E07, b"ptrtoint")
}

pub(crate) fn number_flaw<'a>(
    alloc: Global,
    types: &Types<'a>,
    made: &'a Made,
    body: &Body<'a>,
    value: &'a Operand,
) -> Result<Option<Flaw>, Memory>
    requires { body.now.units ≡ types.now.units }
    ensures { IfOk result (λ flaw. flaw
        ≡ spec.number_flaw types.now.output types.now.units body.now.head value.now) }
{
    let left = source_flaw(alloc, types)?;
    let value = operand_flaw(alloc, types, made, body, false, made.pointer(), value)?;
    Ok(counts(left, value))
}

fn is_left(output: bool, constant: &Const) -> bool
    ensures { result ≡ spec.is_left output (out-Const constant.now) }
{
    match constant {
        Const::Left(_) => true,
        Const::Number(_, _) => !output,
        _ => false,
    }
}

fn unextracted_flaw<'a>(
    alloc: Global,
    types: &Types<'a>,
    made: &'a Made,
    constant: &'a Const,
) -> Result<Option<Flaw>, Memory>
    ensures { IfOk result (λ flaw. flaw
        ≡ spec.unextracted_flaw types.now.output types.now.units constant.now) }
{
    let flaw = constant_flaw(alloc, types, false, Some(made.pair()), constant)?;
    Ok(counts(
        flaw,
        when(!is_left(types.context().is_output(), constant), Code::E06),
    ))
}

fn extracted_flaw<'a>(
    alloc: Global,
    types: &Types<'a>,
    made: &'a Made,
    body: &Body<'a>,
    value: &'a Operand,
) -> Result<Option<Flaw>, Memory>
    requires { body.now.units ≡ types.now.units }
    ensures { IfOk result (λ flaw. flaw
        ≡ spec.extracted_flaw types.now.output types.now.units body.now.head value.now) }
{
    match value {
        Operand::Reg(name) => register_flaw(alloc, types, made, body, false, made.pair(), name),
        Operand::Const(constant) => unextracted_flaw(alloc, types, made, constant),
    }
}

fn is_pair_part(part: Option<u64>) -> bool
    ensures { result ≡ spec.is_pair_part part }
{
    match part {
        Some(part) => part == 0 || part == 1,
        None => false,
    }
}

pub(crate) fn extract_flaw<'a>(
    alloc: Global,
    types: &Types<'a>,
    made: &'a Made,
    body: &Body<'a>,
    value: &'a Operand,
    part: Option<u64>,
) -> Result<Option<Flaw>, Memory>
    requires { body.now.units ≡ types.now.units }
    ensures { IfOk result (λ flaw. flaw
        ≡ spec.extract_flaw types.now.output types.now.units body.now.head value.now part) }
{
    let extracted = extracted_flaw(alloc, types, made, body, value)?;
    Ok(counts(extracted, when(!is_pair_part(part), Code::E06)))
}
