// Whether calls fit the functions that they call, and their written types.
ghost use Rattle.std.specs.Prelude.{◌≡◌, slice_get};
ghost use Rattle.std.specs.Option.{option_copied};
ghost use Rattle.ir_values.specs.declared.types.Ty.{out-Ty};
ghost use Rattle.check_types.specs.Written.{is_metadata_type};
ghost use Rattle.check_calls.specs.Fitting as spec;

use check_types::{Types, differ, head};
use ir_values::{Arg, Head, Param, Ty};
use ltt_base::List;

fn is_metadata_type(ty: &Ty) -> bool
    ensures { result ≡ is_metadata_type (out-Ty ty.now) }
{
    match ty {
        Ty::Left(text) => text.bytes() == b"metadata".as_slice(),
        _ => false,
    }
}

fn is_other_argument<'a>(types: &Types<'a>, ty: &'a Ty, arg: &'a Arg) -> bool
    ensures { result ≡ spec.is_other_argument types.now.units ty.now arg.now }
{
    match arg {
        Arg::Value { ty: own, .. } => is_metadata_type(ty) || differ(types, own, ty),
        Arg::Word(_) => head(types, ty).is_some(),
        Arg::Node(_) => head(types, ty).is_some(),
    }
}

fn arg_at(args: &[Arg], at: usize) -> Option<&Arg>
    ensures { option_copied result ≡ slice_get args.now at }
{
    args.get(at)
}

fn type_at(types: &[Ty], at: usize) -> Option<&Ty>
    ensures { option_copied result ≡ slice_get types.now at }
{
    types.get(at)
}

fn is_other_for<'a>(types: &Types<'a>, param: &'a Param, arg: Option<&'a Arg>) -> bool
    ensures { result ≡ spec.is_other_for types.now.units param.now (option_copied arg.entry) }
{
    match arg {
        Some(arg) => is_other_argument(types, &param.ty, arg),
        None => true,
    }
}

fn is_other_type<'a>(types: &Types<'a>, param: &'a Param, ty: Option<&'a Ty>) -> bool
    ensures { result ≡ spec.is_other_type types.now.units param.now (option_copied ty.entry) }
{
    match ty {
        Some(ty) => differ(types, ty, &param.ty),
        None => true,
    }
}

fn is_other_written<'a>(types: &Types<'a>, ty: &'a Ty, arg: Option<&'a Arg>) -> bool
    ensures { result ≡ spec.is_other_written types.now.units ty.now (option_copied arg.entry) }
{
    match arg {
        Some(arg) => is_other_argument(types, ty, arg),
        None => true,
    }
}

#[tactic(auto, unfolding(crate::specs::Fitting::unlike))]
fn are_other_for<'a>(types: &Types<'a>, more: bool, params: &'a [Param], args: &'a [Arg]) -> bool
    ensures { result ≡ spec.unlike (spec.is_other_for types.now.units) more args.now 0 params.now }
{
    let mut unlike = params.len() < args.len() && !more;
    for at in (0..params.len()).rev() {
        unlike = is_other_for(types, &params[at], arg_at(args, at)) || unlike;
    }
    unlike
}

#[tactic(auto, unfolding(crate::specs::Fitting::unlike))]
fn are_other_types<'a>(
    types: &Types<'a>,
    more: bool,
    params: &'a [Param],
    written: &'a [Ty],
) -> bool
    ensures { result ≡ spec.unlike (spec.is_other_type types.now.units) more written.now 0 params.now }
{
    let mut unlike = params.len() < written.len() && !more;
    for at in (0..params.len()).rev() {
        unlike = is_other_type(types, &params[at], type_at(written, at)) || unlike;
    }
    unlike
}

#[tactic(auto, unfolding(crate::specs::Fitting::unlike))]
fn are_other_written<'a>(types: &Types<'a>, more: bool, written: &'a [Ty], args: &'a [Arg]) -> bool
    ensures { result ≡ spec.unlike (spec.is_other_written types.now.units) more args.now 0 written.now }
{
    let mut unlike = written.len() < args.len() && !more;
    for at in (0..written.len()).rev() {
        unlike = is_other_written(types, &written[at], arg_at(args, at)) || unlike;
    }
    unlike
}

fn is_unfit<'a>(
    types: &Types<'a>,
    function: &'a Head,
    whole: Option<&'a List<Ty>>,
    args: &'a [Arg],
) -> bool
    ensures { result ≡ spec.is_unfit types.now.units function.now (option_copied whole.entry) args.now }
{
    let params = function.params.items();
    match whole {
        Some(written) => are_other_types(types, false, params, written.items()),
        None => are_other_for(types, false, params, args),
    }
}

fn is_one(dots: bool, others: bool) -> bool
    ensures { result ≡ spec.is_one dots others }
{
    dots && !others || !dots && others
}

/// Whether a direct call has another type than its function.
pub(crate) fn is_misfit<'a>(
    types: &Types<'a>,
    function: Option<&'a Head>,
    written: &'a Ty,
    whole: Option<&'a List<Ty>>,
    dots: bool,
    args: &'a [Arg],
) -> bool
    ensures { result ≡ spec.is_misfit types.now.units (option_copied function.entry) written.now (option_copied whole.entry) dots args.now }
{
    match function {
        Some(function) => {
            differ(types, written, &function.result)
                || (is_one(dots, function.dots) || is_unfit(types, function, whole, args))
        }
        None => false,
    }
}

/// Whether the arguments don't fit the type that a call writes.
pub(crate) fn is_mistyped<'a>(
    types: &Types<'a>,
    dots: bool,
    whole: Option<&'a List<Ty>>,
    args: &'a [Arg],
) -> bool
    ensures { result ≡ spec.is_mistyped types.now.units dots (option_copied whole.entry) args.now }
{
    match whole {
        Some(written) => are_other_written(types, dots, written.items(), args),
        None => false,
    }
}
