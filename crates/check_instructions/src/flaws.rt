ghost use Rattle.std.specs.Prelude.{◌≡◌, IfOk};
ghost use Rattle.check_names.specs.Flaws.{each};
ghost use Rattle.check_instructions.specs.Instructions as spec;

use crate::addresses::address_flaw;
use crate::branches::{branch_flaw, end_flaw};
use crate::phis::phi_flaw;
use crate::plain::{
    both_flaw, cast_flaw, compared, extract_flaw, load_flaw, number_flaw, select_flaw, store_flaw,
};
use check_bodies::{Body, Defined, Spot, add_own};
use check_calls::call_flaw;
use check_names::{Flaw, counts, reserved_flaw, worded_when};
use check_operands::Made;
use check_types::{Allowed, Types};
use ir_values::Form;
use ltt_base::{Code, List, Memory};
use std::alloc::Global;

fn defined_flaw(alloc: Global, types: &Types<'_>, defined: &Defined) -> Result<Option<Flaw>, Memory>
    ensures { IfOk result (λ flaw. flaw ≡ spec.defined_flaw types.now.output defined.now) }
{
    reserved_flaw(alloc, types.context(), b"%", defined.name.bytes())
}

fn each_defined_flaw(
    alloc: Global,
    types: &Types<'_>,
    own: &[Defined],
) -> Result<Option<Flaw>, Memory>
    ensures { IfOk result (λ flaw. flaw ≡ each (spec.defined_flaw types.now.output) own.now) }
{
    let mut flaw = None;
    for at in (0..own.len()).rev() {
        flaw = counts(defined_flaw(alloc, types, &own[at])?, flaw);
    }
    Ok(flaw)
}

fn own_flaw(
    alloc: Global,
    types: &Types<'_>,
    at: usize,
    spot: Spot,
    form: &Form,
) -> Result<Option<Flaw>, Memory>
    ensures { IfOk result (λ flaw. flaw ≡ spec.own_flaw types.now.output at spot form.now) }
{
    let mut own = List::new(alloc);
    add_own(alloc, &mut own, at, spot, form)?;
    each_defined_flaw(alloc, types, own.items())
}

/// The flaws of what a form writes in a body.
fn form_flaw<'a>(
    alloc: Global,
    types: &Types<'a>,
    made: &'a Made,
    body: &Body<'a>,
    form: &'a Form,
) -> Result<Option<Flaw>, Memory>
    requires { body.now.units ≡ types.now.units }
    ensures { IfOk result (λ flaw. flaw
        ≡ spec.form_flaw types.now.output types.now.units body.now.head form.now) }
{
    match form {
        Form::BinaryForm { ty, a, b, .. } => {
            both_flaw(alloc, types, made, body, Allowed::Integer, ty, a, b)
        }
        Form::CompareForm { pred, ty, a, b, .. } => {
            both_flaw(alloc, types, made, body, compared(*pred), ty, a, b)
        }
        Form::SelectForm {
            cond_ty,
            cond,
            ty,
            a,
            other_ty,
            b,
            ..
        } => select_flaw(
            alloc,
            types,
            made,
            body,
            (cond_ty, cond),
            (ty, a),
            (other_ty, b),
        ),
        Form::CastForm {
            op,
            from,
            a,
            to,
            ..
        } => cast_flaw(alloc, types, made, body, *op, from, a, to),
        Form::AddressForm {
            ty,
            base,
            index,
            ..
        } => address_flaw(alloc, types, made, body, ty, base, index.items()),
        Form::LoadForm { ty, addr, .. } => load_flaw(alloc, types, made, body, ty, addr),
        Form::StoreForm { ty, value, addr } => {
            store_flaw(alloc, types, made, body, ty, value, addr)
        }
        Form::CallForm {
            dst,
            result,
            whole,
            dots,
            callee,
            args,
            bundle,
        } => call_flaw(
            alloc,
            types,
            made,
            body,
            dst.as_ref(),
            result,
            whole.as_ref(),
            *dots,
            callee,
            args.items(),
            *bundle,
        ),
        Form::ExtractForm { value, part, .. } => {
            extract_flaw(alloc, types, made, body, value, *part)
        }
        Form::PhiForm { ty, arms, .. } => phi_flaw(alloc, types, made, body, ty, arms.items()),
        Form::BranchForm { text } => branch_flaw(alloc, types, made, body, text),
        Form::EndForm { text } => end_flaw(alloc, types, made, body, text),
        Form::NumberForm { value, .. } => number_flaw(alloc, types, made, body, value),
        Form::LeftForm { word } => worded_when(alloc, true, Code::E07, word.bytes()),
        _ => Ok(None),
    }
}

/// The flaw that counts of a unit at a spot of a body, apart from those that the body alone shows: of the names that it defines, the
/// types and values that it writes, and the names that it uses.
///
/// Source: LLVM Language Reference, "Instruction Reference".
#[tactic(auto, unfolding(crate::specs::Instructions::instruction_flaw))]
pub fn instruction_flaw<'a>(
    alloc: Global,
    types: &Types<'a>,
    made: &'a Made,
    body: &Body<'a>,
    at: usize,
    spot: Spot,
    form: &'a Form,
) -> Result<Option<Flaw>, Memory>
    requires { body.now.units ≡ types.now.units }
    ensures { IfOk result (λ flaw. flaw
        ≡ spec.instruction_flaw types.now.output types.now.units body.now.head at spot form.now) }
{
    let own = own_flaw(alloc, types, at, spot, form)?;
    let written = form_flaw(alloc, types, made, body, form)?;
    Ok(counts(own, written))
}
