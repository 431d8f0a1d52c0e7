// What is wrong with the heads of functions.
ghost use Rattle.std.specs.Prelude.{◌≡◌, ◌<◌, length, IfOk};
ghost use Rattle.check_bodies.specs.Bodies as bodies;
ghost use Rattle.check_constants.specs.Intrinsics as intrinsics;
ghost use Rattle.check_items.specs.Functions as spec;

use crate::attached::{attached_flaw, declared_flaw};
use crate::linkages::linkage_flaw;
use crate::signatures::{is_metadata_at, is_signature};
use check_bodies::{Body, behind_name, head_flaw, name_or};
use check_constants::{Intrinsic, intrinsic_of};
use check_names::{
    Flaw, Space, counts, definition_flaw, intrinsic_flaw, is_intrinsic, named_when, reserved_flaw,
    when, worded_when,
};
use check_types::{Allowed, Types, type_flaw};
use ir_values::{Form, Head, Param};
use ltt_base::{Code, Memory, Text};
use std::alloc::Global;

fn words_flaw(alloc: Global, words: &[Text]) -> Result<Option<Flaw>, Memory>
    ensures { IfOk result (λ flaw. flaw ≡ spec.words_flaw words.now) }
{
    let mut flaw = None;
    for at in (0..words.len()).rev() {
        flaw = counts(
            worded_when(alloc, true, Code::E07, words[at].bytes())?,
            flaw,
        );
    }
    Ok(flaw)
}

fn place_of(intrinsic: Option<Intrinsic>, at: usize) -> Allowed
    ensures { result ≡ spec.place_of intrinsic at }
{
    match intrinsic {
        Some(intrinsic) => {
            if is_metadata_at(intrinsic, at) {
                Allowed::Metadata
            } else {
                Allowed::Scalar
            }
        }
        None => Allowed::Scalar,
    }
}

fn param_flaw<'a>(
    alloc: Global,
    types: &Types<'a>,
    quiet: bool,
    allowed: Allowed,
    next: u64,
    param: &'a Param,
) -> Result<Option<Flaw>, Memory>
    ensures { IfOk result (λ flaw. flaw
        ≡ spec.param_flaw types.now.output types.now.units quiet allowed next param.now) }
{
    let typed = type_flaw(alloc, types, quiet, allowed, &param.ty)?;
    let words = words_flaw(alloc, param.left.items())?;
    let name = name_or(alloc, next, param.name.as_ref())?;
    let reserved = reserved_flaw(alloc, types.context(), b"%", name.bytes())?;
    Ok(counts(typed, counts(words, reserved)))
}

fn params_flaw<'a>(
    alloc: Global,
    types: &Types<'a>,
    quiet: bool,
    intrinsic: Option<Intrinsic>,
    params: &'a [Param],
) -> Result<Option<Flaw>, Memory>
    ensures { IfOk result (λ flaw. flaw
        ≡ spec.params_flaw types.now.output types.now.units quiet intrinsic 0 0 params.now) }
{
    let mut flaw = None;
    let mut next = 0;
    for at in 0..params.len() {
        let param = &params[at];
        let allowed = place_of(intrinsic, at);
        let more = param_flaw(alloc, types, quiet, allowed, next, param)?;
        flaw = counts(flaw, more);
        next = behind_name(next, param.name.as_ref());
    }
    Ok(flaw)
}

fn rest_flaw<'a>(
    alloc: Global,
    types: &Types<'a>,
    quiet: bool,
    intrinsic: Option<Intrinsic>,
    head: &'a Head,
) -> Result<Option<Flaw>, Memory>
    ensures { IfOk result (λ flaw. flaw
        ≡ spec.rest_flaw types.now.output types.now.units quiet intrinsic head.now) }
{
    let params = params_flaw(alloc, types, quiet, intrinsic, head.params.items())?;
    let dots = worded_when(alloc, head.dots, Code::E07, b"...")?;
    let words = words_flaw(alloc, head.left.items())?;
    Ok(counts(params, counts(dots, words)))
}

fn repeated_flaw(
    alloc: Global,
    types: &Types<'_>,
    at: usize,
    form: &Form,
) -> Result<Option<Flaw>, Memory>
    requires { at < length types.now.units }
    ensures { IfOk result (λ flaw. flaw ≡ bodies.head_flaw types.now.units at form.now) }
{
    let body = Body::new(alloc, types.context().units(), at)?;
    head_flaw(alloc, &body, form)
}

fn body_head_flaw<'a>(
    alloc: Global,
    types: &Types<'a>,
    at: usize,
    head: &'a Head,
) -> Result<Option<Flaw>, Memory>
    ensures { IfOk result (λ flaw. flaw ≡ spec.body_head_flaw types.now.output types.now.units at head.now) }
{
    let result = type_flaw(alloc, types, false, Allowed::Returned, &head.result)?;
    let name = head.name.bytes();
    let named = definition_flaw(alloc, types.context(), at, Space::Globals, name)?;
    let intrinsic = intrinsic_flaw(alloc, name)?;
    let rest = rest_flaw(alloc, types, false, None, head)?;
    Ok(counts(result, counts(named, counts(intrinsic, rest))))
}

/// The flaws of a function's definition, the head at a place, apart from the limits of its file.
///
/// Source: LLVM Language Reference, "Functions".
pub fn define_flaw<'a>(
    alloc: Global,
    types: &Types<'a>,
    at: usize,
    head: &'a Head,
    form: &Form,
) -> Result<Option<Flaw>, Memory>
    requires { at < length types.now.units }
    ensures { IfOk result (λ flaw. flaw ≡ spec.define_flaw types.now.output types.now.units at head.now form.now) }
{
    let linked = linkage_flaw(alloc, head.linkage.as_ref())?;
    let written = body_head_flaw(alloc, types, at, head)?;
    let repeated = repeated_flaw(alloc, types, at, form)?;
    let attached = attached_flaw(alloc, types, None, head.attached.items())?;
    Ok(counts(linked, counts(written, counts(repeated, attached))))
}

fn is_left(types: &Types<'_>, name: &[u8]) -> bool
    ensures { result ≡ spec.is_left types.now.output name.now }
{
    is_intrinsic(name) && own_intrinsic(types, name).is_none()
}

fn own_intrinsic(types: &Types<'_>, name: &[u8]) -> Option<Intrinsic>
    ensures { result ≡ intrinsics.intrinsic_of types.now.output name.now }
{
    intrinsic_of(types.context().is_output(), name)
}

fn left_flaw(alloc: Global, types: &Types<'_>, name: &[u8]) -> Result<Option<Flaw>, Memory>
    ensures { IfOk result (λ flaw. flaw ≡ spec.left_flaw types.now.output name.now) }
{
    named_when(alloc, is_left(types, name), Code::E07, b"@", name)
}

fn result_place(intrinsic: Option<Intrinsic>) -> Allowed
    ensures { result ≡ spec.result_place intrinsic }
{
    match intrinsic {
        Some(_) => Allowed::Every,
        None => Allowed::Returned,
    }
}

fn signature_flaw<'a>(
    types: &Types<'a>,
    intrinsic: Option<Intrinsic>,
    head: &'a Head,
) -> Option<Flaw>
    ensures { result ≡ spec.signature_flaw types.now.units intrinsic head.now }
{
    match intrinsic {
        Some(intrinsic) => when(!is_signature(types, intrinsic, head), Code::E06),
        None => None,
    }
}

fn typed_head_flaw<'a>(
    alloc: Global,
    types: &Types<'a>,
    at: usize,
    quiet: bool,
    intrinsic: Option<Intrinsic>,
    head: &'a Head,
) -> Result<Option<Flaw>, Memory>
    ensures { IfOk result (λ flaw. flaw
        ≡ spec.typed_head_flaw types.now.output types.now.units at quiet intrinsic head.now) }
{
    let result = type_flaw(alloc, types, quiet, result_place(intrinsic), &head.result)?;
    let name = head.name.bytes();
    let named = definition_flaw(alloc, types.context(), at, Space::Globals, name)?;
    let left = left_flaw(alloc, types, name)?;
    let rest = rest_flaw(alloc, types, quiet, intrinsic, head)?;
    let other = signature_flaw(types, intrinsic, head);
    Ok(counts(result, counts(named, counts(left, counts(rest, other)))))
}

fn declared_head_flaw<'a>(
    alloc: Global,
    types: &Types<'a>,
    at: usize,
    head: &'a Head,
) -> Result<Option<Flaw>, Memory>
    ensures { IfOk result (λ flaw. flaw
        ≡ spec.declared_head_flaw types.now.output types.now.units at head.now) }
{
    let quiet = is_left(types, head.name.bytes());
    let intrinsic = own_intrinsic(types, head.name.bytes());
    let flaw = typed_head_flaw(alloc, types, at, quiet, intrinsic, head)?;
    Ok(flaw)
}

/// The flaws of a function's or an intrinsic's declaration, the unit at a place, apart from the limits of its file.
///
/// Source: LLVM Language Reference, "Functions".
pub fn declare_flaw<'a>(
    alloc: Global,
    types: &Types<'a>,
    at: usize,
    head: &'a Head,
    form: &Form,
) -> Result<Option<Flaw>, Memory>
    requires { at < length types.now.units }
    ensures { IfOk result (λ flaw. flaw ≡ spec.declare_flaw types.now.output types.now.units at head.now form.now) }
{
    let attached = declared_flaw(alloc, types.context(), head.attached.items())?;
    let linked = linkage_flaw(alloc, head.linkage.as_ref())?;
    let written = declared_head_flaw(alloc, types, at, head)?;
    let repeated = repeated_flaw(alloc, types, at, form)?;
    Ok(counts(attached, counts(linked, counts(written, repeated))))
}
