// Where types stand.
ghost use Rattle.std.specs.Prelude.{◌≡◌};
ghost use Rattle.std.specs.Option.{option_copied};
ghost use Rattle.ir_values.specs.declared.types.Ty.{out-Ty};
ghost use Rattle.check_types.specs.Written as spec;

use crate::ends::Types;
use crate::heads::head;
use check_names::{Flaw, when};
use ir_values::{Ty, Width};
use ltt_base::Code;

/// The types that may stand at a place.
///
/// `Returned`: `void`, an integer or `ptr`. `Scalar`: an integer or `ptr`. `Bit`: `i1`. `Metadata`: the word `metadata` alone.
#[derive(Clone, Copy)]
pub enum Allowed {
    Every,
    NonVoid,
    Returned,
    Scalar,
    Integer,
    Bit,
    Metadata,
}

/// Whether a type is `void` itself.
pub fn is_void(ty: &Ty) -> bool
    ensures { result ≡ spec.is_void (out-Ty ty.now) }
{
    match ty {
        Ty::Void => true,
        _ => false,
    }
}

fn is_integer(ty: &Ty) -> bool
    ensures { result ≡ spec.is_integer (out-Ty ty.now) }
{
    match ty {
        Ty::Int(_) => true,
        _ => false,
    }
}

fn is_pointer(ty: &Ty) -> bool
    ensures { result ≡ spec.is_pointer (out-Ty ty.now) }
{
    match ty {
        Ty::Ptr => true,
        _ => false,
    }
}

fn is_bit(ty: &Ty) -> bool
    ensures { result ≡ spec.is_bit (out-Ty ty.now) }
{
    match ty {
        Ty::Int(Width::W1) => true,
        _ => false,
    }
}

fn allows(allowed: Allowed, ty: &Ty) -> bool
    ensures { result ≡ spec.allows allowed (out-Ty ty.now) }
{
    match allowed {
        Allowed::Every => true,
        Allowed::NonVoid => !is_void(ty),
        Allowed::Returned => is_void(ty) || is_integer(ty) || is_pointer(ty),
        Allowed::Scalar => is_integer(ty) || is_pointer(ty),
        Allowed::Integer => is_integer(ty),
        Allowed::Bit => is_bit(ty),
        Allowed::Metadata => false,
    }
}

fn is_allowed(allowed: Allowed, ty: Option<&Ty>) -> bool
    ensures { result ≡ spec.is_allowed allowed (option_copied ty.entry) }
{
    match ty {
        Some(ty) => allows(allowed, ty),
        None => true,
    }
}

/// A known type that stands where it may not.
pub fn place_flaw<'a>(types: &Types<'a>, quiet: bool, allowed: Allowed, ty: &'a Ty) -> Option<Flaw>
    ensures { result ≡ spec.place_flaw types.now.units quiet allowed ty.now }
{
    let broken = !is_allowed(allowed, head(types, ty));
    when(!quiet && broken, Code::E06)
}
