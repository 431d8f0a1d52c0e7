// Calls.
ghost use Rattle.std.specs.Prelude.{◌≡◌, map, IfOk};
ghost use Rattle.std.specs.Option.{option_copied};
ghost use Rattle.ir_values.specs.declared.types.Ty.{out-Ty};
ghost use Rattle.ir_values.specs.declared.constants.Const.{out-Const};
ghost use Rattle.check_names.specs.Flaws.{each};
ghost use Rattle.check_types.specs.declared.places.Allowed.TheVariants.{Scalar};
ghost use Rattle.check_types.specs.Written as written_spec;
ghost use Rattle.check_calls.specs.Calls as spec;

use crate::arguments::arguments_flaw;
use crate::callees::{callee_flaw, is_left_call};
use crate::fitting::{is_misfit, is_mistyped};
use check_bodies::Body;
use check_constants::Intrinsic;
use check_names::{Flaw, counts, when, worded_when};
use check_operands::Made;
use check_types::{Allowed, Types, head, type_flaw};
use ir_values::{Arg, Const, Head, Operand, Ty};
use kept_parts::{argument_kept, called, called_intrinsic};
use ltt_base::{Code, List, Memory, Text};
use std::alloc::Global;

/// The types that a call's result may have. A checked load gives more than one value.
fn results(intrinsic: Option<Intrinsic>) -> Allowed
    ensures { result ≡ spec.results intrinsic }
{
    match intrinsic {
        Some(Intrinsic::CheckedLoad) => Allowed::NonVoid,
        _ => Allowed::Returned,
    }
}

fn each_type_flaw<'a>(
    alloc: Global,
    types: &Types<'a>,
    quiet: bool,
    written: &'a [Ty],
) -> Result<Option<Flaw>, Memory>
    ensures { IfOk result (λ flaw. flaw
        ≡ each (written_spec.type_flaw types.now.output types.now.units quiet Scalar) written.now) }
{
    let mut flaw = None;
    for at in (0..written.len()).rev() {
        flaw = counts(
            type_flaw(alloc, types, quiet, Allowed::Scalar, &written[at])?,
            flaw,
        );
    }
    Ok(flaw)
}

fn whole_flaw<'a>(
    alloc: Global,
    types: &Types<'a>,
    quiet: bool,
    whole: Option<&'a List<Ty>>,
) -> Result<Option<Flaw>, Memory>
    ensures { IfOk result (λ flaw. flaw
        ≡ spec.whole_flaw types.now.output types.now.units quiet (option_copied whole.entry)) }
{
    match whole {
        Some(written) => each_type_flaw(alloc, types, quiet, written.items()),
        None => Ok(None),
    }
}

#[tactic(auto, unfolding(crate::specs::Calls::written_flaw))]
fn written_flaw<'a>(
    alloc: Global,
    types: &Types<'a>,
    quiet: bool,
    intrinsic: Option<Intrinsic>,
    given: &'a Ty,
    whole: Option<&'a List<Ty>>,
    dots: bool,
) -> Result<Option<Flaw>, Memory>
    ensures { IfOk result (λ flaw. flaw
        ≡ spec.written_flaw types.now.output types.now.units quiet intrinsic given.now (option_copied whole.entry) dots) }
{
    let given = type_flaw(alloc, types, quiet, results(intrinsic), given)?;
    let whole = whole_flaw(alloc, types, quiet, whole)?;
    let dots = worded_when(alloc, dots, Code::E07, b"...")?;
    Ok(counts(given, counts(whole, dots)))
}

fn is_shift_layer(constant: &Const) -> bool
    ensures { result ≡ spec.is_shift_layer (out-Const constant.now) }
{
    match constant {
        Const::Int(_, n) => *n < 64,
        _ => false,
    }
}

fn is_shift(value: &Operand) -> bool
    ensures { result ≡ spec.is_shift value.now }
{
    match value {
        Operand::Reg(_) => false,
        Operand::Const(constant) => is_shift_layer(constant),
    }
}

fn are_rotated(one: &Option<Operand>, other: &Option<Operand>, by: &Option<Operand>) -> bool
    ensures { result ≡ spec.are_rotated one.now other.now by.now }
{
    match (one, other, by) {
        (Some(one), Some(other), Some(by)) => *one == *other && is_shift(by),
        _ => false,
    }
}

fn is_rotation<'a>(alloc: Global, types: &Types<'a>, args: &'a [Arg]) -> Result<bool, Memory>
    ensures { IfOk result (λ answer. answer ≡ spec.is_rotation types.now.units args.now) }
{
    match args {
        [one, other, by] => {
            let one = argument_kept(alloc, types, one)?;
            let other = argument_kept(alloc, types, other)?;
            let by = argument_kept(alloc, types, by)?;
            Ok(are_rotated(&one, &other, &by))
        }
        _ => Ok(false),
    }
}

#[tactic(auto, unfolding(crate::specs::Calls::rotation_flaw))]
fn rotation_flaw<'a>(
    alloc: Global,
    types: &Types<'a>,
    intrinsic: Option<Intrinsic>,
    args: &'a [Arg],
) -> Result<Option<Flaw>, Memory>
    ensures { IfOk result (λ flaw. flaw ≡ spec.rotation_flaw types.now.units intrinsic args.now) }
{
    match intrinsic {
        Some(Intrinsic::Rotate) => {
            let rotation = is_rotation(alloc, types, args)?;
            worded_when(alloc, !rotation, Code::E07, b"@llvm.fshr.i64")
        }
        _ => Ok(None),
    }
}

fn is_void(ty: Option<&Ty>) -> bool
    ensures { result ≡ written_spec.is_void_head (option_copied ty.entry) }
{
    match ty {
        Some(Ty::Void) => true,
        _ => false,
    }
}

fn is_name(ty: &Ty) -> bool
    ensures { result ≡ spec.is_name (out-Ty ty.now) }
{
    match ty {
        Ty::Named(_) => true,
        _ => false,
    }
}

fn is_named_void<'a>(types: &Types<'a>, dst: Option<&Text>, given: &'a Ty) -> bool
    ensures { result ≡ spec.is_named_void types.now.units (option_copied dst.entry) given.now }
{
    (dst.is_some() || is_name(given)) && is_void(head(types, given))
}

#[tactic(auto, unfolding(crate::specs::Calls::fit_flaw))]
fn fit_flaw<'a>(
    types: &Types<'a>,
    quiet: bool,
    function: Option<&'a Head>,
    dst: Option<&Text>,
    given: &'a Ty,
    whole: Option<&'a List<Ty>>,
    dots: bool,
    args: &'a [Arg],
) -> Option<Flaw>
    ensures { result ≡ spec.fit_flaw types.now.units quiet (option_copied function.entry) (option_copied dst.entry) given.now
        (option_copied whole.entry) dots args.now }
{
    let named = is_named_void(types, dst, given);
    let misfit = is_misfit(types, function, given, whole, dots, args);
    let mistyped = is_mistyped(types, dots, whole, args);
    when(!quiet && (named || (misfit || mistyped)), Code::E06)
}

fn bundle_flaw(alloc: Global, bundle: bool) -> Result<Option<Flaw>, Memory>
    ensures { IfOk result (λ flaw. flaw ≡ spec.bundle_flaw bundle) }
{
    worded_when(alloc, bundle, Code::E07, b"[")
}

#[tactic(auto, unfolding(crate::specs::Calls::parts_flaw))]
fn parts_flaw<'a>(
    alloc: Global,
    types: &Types<'a>,
    made: &'a Made,
    body: &Body<'a>,
    quiet: bool,
    function: Option<&'a Head>,
    intrinsic: Option<Intrinsic>,
    callee: &'a Operand,
    args: &'a [Arg],
) -> Result<Option<Flaw>, Memory>
    requires { body.now.units ≡ types.now.units }
    ensures { IfOk result (λ flaw. flaw
        ≡ spec.parts_flaw types.now.output types.now.units body.now.head quiet (option_copied function.entry) intrinsic callee.now args.now) }
{
    let callee = callee_flaw(alloc, types, made, body, function, callee)?;
    let each = arguments_flaw(alloc, types, made, body, quiet, intrinsic, args)?;
    let rotation = rotation_flaw(alloc, types, intrinsic, args)?;
    Ok(counts(callee, counts(each, rotation)))
}

#[tactic(auto, unfolding(crate::specs::Calls::call_of))]
fn call_of<'a>(
    alloc: Global,
    types: &Types<'a>,
    made: &'a Made,
    body: &Body<'a>,
    quiet: bool,
    function: Option<&'a Head>,
    intrinsic: Option<Intrinsic>,
    dst: Option<&Text>,
    given: &'a Ty,
    whole: Option<&'a List<Ty>>,
    dots: bool,
    callee: &'a Operand,
    args: &'a [Arg],
    bundle: bool,
) -> Result<Option<Flaw>, Memory>
    requires { body.now.units ≡ types.now.units }
    ensures { IfOk result (λ flaw. flaw
        ≡ spec.call_of types.now.output types.now.units body.now.head quiet (option_copied function.entry) intrinsic
        (option_copied dst.entry) given.now (option_copied whole.entry) dots callee.now args.now bundle) }
{
    let written = written_flaw(alloc, types, quiet, intrinsic, given, whole, dots)?;
    let parts = parts_flaw(
        alloc, types, made, body, quiet, function, intrinsic, callee, args,
    )?;
    let bundle = bundle_flaw(alloc, bundle)?;
    let fit = fit_flaw(types, quiet, function, dst, given, whole, dots, args);
    Ok(counts(written, counts(parts, counts(bundle, fit))))
}

#[tactic(auto, unfolding(crate::specs::Calls::call_to))]
fn call_to<'a>(
    alloc: Global,
    types: &Types<'a>,
    made: &'a Made,
    body: &Body<'a>,
    function: Option<&'a Head>,
    dst: Option<&Text>,
    given: &'a Ty,
    whole: Option<&'a List<Ty>>,
    dots: bool,
    callee: &'a Operand,
    args: &'a [Arg],
    bundle: bool,
) -> Result<Option<Flaw>, Memory>
    requires { body.now.units ≡ types.now.units }
    ensures { IfOk result (λ flaw. flaw
        ≡ spec.call_to types.now.output types.now.units body.now.head (option_copied function.entry) (option_copied dst.entry) given.now
        (option_copied whole.entry) dots callee.now args.now bundle) }
{
    let quiet = is_left_call(types.context(), function);
    let intrinsic = called_intrinsic(types.context(), function);
    call_of(
        alloc, types, made, body, quiet, function, intrinsic, dst, given, whole, dots, callee,
        args, bundle,
    )
}

/// The flaws of a call: of its types, of what it calls and of its arguments, and of whether they fit each other.
///
/// A call of a left-out intrinsic is quiet, and has no flaw for a type that is known but differs or stands where it may not.
///
/// Source: LLVM Language Reference, "'call' Instruction".
#[tactic(auto, unfolding(crate::specs::Calls::call_flaw))]
pub fn call_flaw<'a>(
    alloc: Global,
    types: &Types<'a>,
    made: &'a Made,
    body: &Body<'a>,
    dst: Option<&Text>,
    given: &'a Ty,
    whole: Option<&'a List<Ty>>,
    dots: bool,
    callee: &'a Operand,
    args: &'a [Arg],
    bundle: bool,
) -> Result<Option<Flaw>, Memory>
    requires { body.now.units ≡ types.now.units }
    ensures { IfOk result (λ flaw. flaw
        ≡ spec.call_flaw types.now.output types.now.units body.now.head (option_copied dst.entry) given.now (option_copied whole.entry) dots
        callee.now args.now bundle) }
{
    let function = called(types, callee);
    call_to(
        alloc, types, made, body, function, dst, given, whole, dots, callee, args, bundle,
    )
}
