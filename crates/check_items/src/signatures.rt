// The types that intrinsics are declared with.
ghost use Rattle.std.specs.Prelude.{◌≡◌, List, [], ◌∷◌};
ghost use Rattle.std.specs.Option.{option_copied};
ghost use Rattle.ir_values.specs.declared.types.Ty.{out-Ty};
ghost use Rattle.check_items.specs.Signatures as spec;

use check_constants::Intrinsic;
use check_types::{Types, head};
use ir_numbers::bits;
use ir_values::{Head, Param, Ty, Width};

/// A type that an intrinsic has in its declaration. `Loaded`: `{ ptr, i1 }`. `Anything`: where `metadata` stands, which has a
/// rule of its own.
#[derive(Clone, Copy)]
pub enum Shape {
    Nothing,
    Number(Width),
    Pointer,
    Loaded,
    Anything,
}

fn is_number(width: Width, ty: &Ty) -> bool
    ensures { result ≡ spec.is_number width (out-Ty ty.now) }
{
    match ty {
        Ty::Int(other) => bits(*other) == bits(width),
        _ => false,
    }
}

fn is_pointer(ty: &Ty) -> bool
    ensures { result ≡ spec.is_pointer (out-Ty ty.now) }
{
    match ty {
        Ty::Ptr => true,
        _ => false,
    }
}

fn is_nothing(ty: &Ty) -> bool
    ensures { result ≡ spec.is_nothing (out-Ty ty.now) }
{
    match ty {
        Ty::Void => true,
        _ => false,
    }
}

fn passes_number(width: Width, ty: Option<&Ty>) -> bool
    ensures { result ≡ spec.passes (spec.is_number width) (option_copied ty.entry) }
{
    match ty {
        Some(ty) => is_number(width, ty),
        None => true,
    }
}

fn passes_pointer(ty: Option<&Ty>) -> bool
    ensures { result ≡ spec.passes spec.is_pointer (option_copied ty.entry) }
{
    match ty {
        Some(ty) => is_pointer(ty),
        None => true,
    }
}

fn passes_nothing(ty: Option<&Ty>) -> bool
    ensures { result ≡ spec.passes spec.is_nothing (option_copied ty.entry) }
{
    match ty {
        Some(ty) => is_nothing(ty),
        None => true,
    }
}

fn are_loaded<'a>(types: &Types<'a>, parts: &'a [Ty]) -> bool
    ensures { result ≡ spec.are_loaded types.now.units parts.now }
{
    match parts {
        [one, other] => {
            passes_pointer(head(types, one)) && passes_number(Width::W1, head(types, other))
        }
        _ => false,
    }
}

fn is_loaded<'a>(types: &Types<'a>, ty: &'a Ty) -> bool
    ensures { result ≡ spec.is_loaded types.now.units (out-Ty ty.now) }
{
    match ty {
        Ty::Struct(parts) => are_loaded(types, parts.items()),
        _ => false,
    }
}

fn passes_loaded<'a>(types: &Types<'a>, ty: Option<&'a Ty>) -> bool
    ensures { result ≡ spec.passes (spec.is_loaded types.now.units) (option_copied ty.entry) }
{
    match ty {
        Some(ty) => is_loaded(types, ty),
        None => true,
    }
}

fn fits<'a>(types: &Types<'a>, shape: Shape, ty: &'a Ty) -> bool
    ensures { result ≡ spec.fits types.now.units shape ty.now }
{
    match shape {
        Shape::Nothing => passes_nothing(head(types, ty)),
        Shape::Number(width) => passes_number(width, head(types, ty)),
        Shape::Pointer => passes_pointer(head(types, ty)),
        Shape::Loaded => passes_loaded(types, head(types, ty)),
        Shape::Anything => true,
    }
}

fn one_fits<'a>(types: &Types<'a>, shape: Shape, params: &'a [Param]) -> bool
    ensures { result ≡ spec.all_fit types.now.units (shape ∷ []) params.now }
{
    match params {
        [param] => fits(types, shape, &param.ty),
        _ => false,
    }
}

fn two_fit<'a>(types: &Types<'a>, first: Shape, second: Shape, params: &'a [Param]) -> bool
    ensures { result ≡ spec.all_fit types.now.units (first ∷ second ∷ []) params.now }
{
    match params {
        [one, other] => fits(types, first, &one.ty) && fits(types, second, &other.ty),
        _ => false,
    }
}

fn three_fit<'a>(
    types: &Types<'a>,
    first: Shape,
    second: Shape,
    third: Shape,
    params: &'a [Param],
) -> bool
    ensures { result ≡ spec.all_fit types.now.units (first ∷ second ∷ third ∷ []) params.now }
{
    match params {
        [one, other, last] => {
            fits(types, first, &one.ty)
                && (fits(types, second, &other.ty) && fits(types, third, &last.ty))
        }
        _ => false,
    }
}

fn result_shape(intrinsic: Intrinsic) -> Shape
    ensures { result ≡ spec.result_shape intrinsic }
{
    match intrinsic {
        Intrinsic::Test => Shape::Number(Width::W1),
        Intrinsic::CheckedLoad => Shape::Loaded,
        Intrinsic::Assume => Shape::Nothing,
        Intrinsic::Trap => Shape::Nothing,
        Intrinsic::CodedTrap => Shape::Nothing,
        Intrinsic::Rotate => Shape::Number(Width::W64),
    }
}

fn params_fit<'a>(types: &Types<'a>, intrinsic: Intrinsic, params: &'a [Param]) -> bool
    ensures { result ≡ spec.all_fit types.now.units (spec.param_shapes intrinsic) params.now }
{
    let long = Shape::Number(Width::W64);
    match intrinsic {
        Intrinsic::Test => two_fit(types, Shape::Pointer, Shape::Anything, params),
        Intrinsic::CheckedLoad => three_fit(
            types,
            Shape::Pointer,
            Shape::Number(Width::W32),
            Shape::Anything,
            params,
        ),
        Intrinsic::Assume => one_fits(types, Shape::Number(Width::W1), params),
        Intrinsic::Trap => params.is_empty(),
        Intrinsic::CodedTrap => one_fits(types, Shape::Number(Width::W8), params),
        Intrinsic::Rotate => three_fit(types, long, long, long, params),
    }
}

/// Whether a head has an intrinsic's type.
///
/// Source: LLVM Language Reference, "llvm.type.test", "llvm.type.checked.load", "llvm.assume", "llvm.trap", "llvm.ubsantrap" and
/// "llvm.fshr".
pub fn is_signature<'a>(types: &Types<'a>, intrinsic: Intrinsic, head: &'a Head) -> bool
    ensures { result ≡ spec.is_signature types.now.units intrinsic head.now }
{
    fits(types, result_shape(intrinsic), &head.result)
        && params_fit(types, intrinsic, head.params.items())
        && !head.dots
}

fn metadata_at(intrinsic: Intrinsic) -> Option<usize>
    ensures { result ≡ spec.metadata_at intrinsic }
{
    match intrinsic {
        Intrinsic::Test => Some(1),
        Intrinsic::CheckedLoad => Some(2),
        _ => None,
    }
}

fn is_at(at: usize, other: Option<usize>) -> bool
    ensures { result ≡ spec.is_at at other }
{
    match other {
        Some(other) => at == other,
        None => false,
    }
}

/// Whether an intrinsic has `metadata` as the parameter at a place.
pub fn is_metadata_at(intrinsic: Intrinsic, at: usize) -> bool
    ensures { result ≡ spec.is_at at (spec.metadata_at intrinsic) }
{
    is_at(at, metadata_at(intrinsic))
}
